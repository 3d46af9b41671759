// Which command a line is, by its first word and its number of words.
ghost use Rattle.std.specs.Prelude.{◌≡◌, drop};
ghost use Rattle.commands.specs.Command.{command_of, found, named, rows};

use reading::Reading;
use templates::{Pair, Segment, Term};
use texts::equal;

#[derive(Clone, Copy)]
pub enum Command {
    Help,
    Distance,
    Text,
    Code,
    Check,
    Show,
    Page,
    Field,
    Pair,
    Segment,
    Term,
    Char,
    Index,
    Next,
    Conform,
    Fetch,
    Reading,
    Compare,
    Change,
    Propose,
    Commit,
    Build,
    Unknown,
}

fn of_one(name: &[u8]) -> Command
    ensures { result ≡ named name.now 1 }
{
    if equal(name, b"help") {
        return Command::Help;
    }
    Command::Unknown
}

fn of_two(name: &[u8]) -> Command
    ensures { result ≡ named name.now 2 }
{
    if equal(name, b"distance") {
        return Command::Distance;
    }
    Command::Unknown
}

fn of_three(name: &[u8]) -> Command
    ensures { result ≡ named name.now 3 }
{
    if equal(name, b"check") {
        return Command::Check;
    }
    if equal(name, b"show") {
        return Command::Show;
    }
    if equal(name, b"text") {
        return Command::Text;
    }
    if equal(name, b"code") {
        return Command::Code;
    }
    Command::Unknown
}

// Rows of four words after those of `of_item`.
fn of_list(name: &[u8]) -> Command
    ensures { result ≡ found (drop 7 rows) name.now 4 }
{
    if equal(name, b"conform") {
        return Command::Conform;
    }
    if equal(name, b"index") {
        return Command::Index;
    }
    if equal(name, b"next") {
        return Command::Next;
    }
    Command::Unknown
}

// Rows of four words after those of `of_four`.
fn of_item(name: &[u8]) -> Command
    ensures { result ≡ found (drop 4 rows) name.now 4 }
{
    if equal(name, b"segment") {
        return Command::Segment;
    }
    if equal(name, b"term") {
        return Command::Term;
    }
    if equal(name, b"char") {
        return Command::Char;
    }
    of_list(name)
}

fn of_four(name: &[u8]) -> Command
    ensures { result ≡ named name.now 4 }
{
    if equal(name, b"page") {
        return Command::Page;
    }
    if equal(name, b"field") {
        return Command::Field;
    }
    if equal(name, b"pair") {
        return Command::Pair;
    }
    of_item(name)
}

fn of_five(name: &[u8]) -> Command
    ensures { result ≡ named name.now 5 }
{
    if equal(name, b"reading") {
        return Command::Reading;
    }
    if equal(name, b"compare") {
        return Command::Compare;
    }
    if equal(name, b"fetch") {
        return Command::Fetch;
    }
    Command::Unknown
}

fn of_six(name: &[u8]) -> Command
    ensures { result ≡ named name.now 6 }
{
    if equal(name, b"change") {
        return Command::Change;
    }
    if equal(name, b"propose") {
        return Command::Propose;
    }
    Command::Unknown
}

fn of_seven(name: &[u8]) -> Command
    ensures { result ≡ named name.now 7 }
{
    if equal(name, b"commit") {
        return Command::Commit;
    }
    Command::Unknown
}

// The command with the values of a template's fields.
fn of_sheet(name: &[u8]) -> Command
    ensures { result ≡ named name.now 28 }
{
    if equal(name, b"build") {
        return Command::Build;
    }
    Command::Unknown
}

// The command of a first word and a number of words.
fn of_words(name: &[u8], words: u64) -> Command
    ensures { result ≡ named name.now words }
{
    match words {
        1 => of_one(name),
        2 => of_two(name),
        3 => of_three(name),
        4 => of_four(name),
        5 => of_five(name),
        6 => of_six(name),
        7 => of_seven(name),
        28 | 30 | 32 => of_sheet(name),
        _ => Command::Unknown,
    }
}

// The command that a line is.
pub fn command_of(line: &[u8]) -> Command
    ensures { result ≡ command_of line.now }
{
    of_words(
        console_words::word(line, 0),
        console_words::word_count(line),
    )
}

// The command `reading`.
ghost use Rattle.std.specs.Prelude.{◌≡◌, length};
ghost use Rattle.commands.specs.Dashes.{dash};
ghost use Rattle.commands.specs.Replies.{reading_reply};

use crate::arguments::ROOM;
use crate::{arguments, printing};
use console_words::{front, word};
use listing::{put, put_figure};
use reading::{Dash, Reading};
use refusal::Refusal;
use std::io::Write;
use texts::equal;

// The dash that a word names.
fn dash_of(word: &[u8]) -> Option<Dash>
    ensures { result ≡ dash word.now }
{
    if equal(word, b"large") {
        return Some(Dash::Large);
    }
    if equal(word, b"small") {
        return Some(Dash::Small);
    }
    None
}

// The reading of the image, the input and the dash, words 1 to 4.
fn reading_reply(line: &[u8], room: &mut [u8]) -> Option<Result<Reading, Refusal>>
    ensures { result ≡ reading_reply (length room.old) line.now }
{
    let chip = arguments::lent(line, room)?;
    let input = console_words::figure_of(word(line, 3))?;
    let dash = dash_of(word(line, 4))?;
    let image = front(room, chip.length);
    Some(reading::take_reading(chip.kind, image, input, dash))
}

fn print_reading(out: &mut impl Write, answer: Result<Reading, Refusal>) {
    match answer {
        Ok(reading) => {
            put_figure(out, reading.fraction);
            put(out, b" ");
            printing::double(out, reading.figure);
            printing::end(out);
        }
        Err(r) => printing::refused(out, r),
    }
}

// Answers `reading`: the kind, the image, the input and the dash, words 1 to 4.
pub fn reading(out: &mut impl Write, line: &[u8]) {
    let mut room = [0u8; ROOM];
    match reading_reply(line, &mut room) {
        Some(answer) => print_reading(out, answer),
        None => printing::unknown(out),
    }
}

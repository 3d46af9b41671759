// The commands `change`, `propose` and `commit`.
ghost use Rattle.std.specs.Prelude.{◌≡◌, length};
ghost use Rattle.commands.specs.Arguments.{edit as edit_in, exchange as exchange_in};
ghost use Rattle.commands.specs.Replies.{write_reply_said, change_reply, propose_reply, commit_reply};

use crate::arguments::{ROOM, WrittenFront};
use crate::{arguments, printing};
use change::Proposal;
use codes::Value;
use console_words::{front, word};
use listing::{put, put_number};
use refusal::Refusal;
use std::io::Write;
use templates::Level;

// A value for a field, and the writer's level.
#[derive(Clone, Copy)]
struct Edit {
    field: u64,
    value: Value,
    level: Level,
}

// The field, the value and the level, words 3 to 5 of a change or a proposal.
fn edit_of(line: &[u8]) -> Option<Edit>
    ensures { result ≡ edit_in line.now }
{
    let field = console_words::number_of(word(line, 3))?;
    let value = console_words::value_of(word(line, 4))?;
    let level = console_words::level_of(word(line, 5))?;
    Some(Edit {
        field,
        value,
        level,
    })
}

// The change of the image, words 1 to 5, and what the image then is.
fn change_reply(line: &[u8], room: &mut [u8]) -> Option<WrittenFront>
    ensures { write_reply_said result room.new ≡ change_reply (length room.old) line.now }
{
    let edit = edit_of(line)?;
    let chip = arguments::lent(line, room)?;
    let length = chip.length;
    let value = edit.value;
    let level = edit.level;
    let answer = change::change(chip.kind, &mut room[..length], level, edit.field, value);
    Some(WrittenFront { answer, length })
}

// Answers `change`: the kind, the image, the field, the value and the level, words 1 to 5.
pub fn change(out: &mut impl Write, line: &[u8]) {
    let mut room = [0u8; ROOM];
    let reply = change_reply(line, &mut room);
    printing::write_reply(out, reply, &room);
}

// The proposal for the image, words 1 to 5.
fn propose_reply(line: &[u8], room: &mut [u8]) -> Option<Result<Proposal, Refusal>>
    ensures { result ≡ propose_reply (length room.old) line.now }
{
    let edit = edit_of(line)?;
    let chip = arguments::lent(line, room)?;
    let image = front(room, chip.length);
    let value = edit.value;
    let level = edit.level;
    Some(change::propose(chip.kind, image, level, edit.field, value))
}

fn proposed(out: &mut impl Write, proposal: Proposal) {
    let back = proposal.value;
    put_number(out, proposal.present);
    put(out, b" ");
    put_number(out, proposal.new);
    put(out, b" ");
    printing::value(out, back);
}

fn print_proposal(out: &mut impl Write, answer: Result<Proposal, Refusal>) {
    match answer {
        Ok(proposal) => proposed(out, proposal),
        Err(r) => printing::refused(out, r),
    }
}

// Answers `propose`: the kind, the image, the field, the value and the level, words 1 to 5.
pub fn propose(out: &mut impl Write, line: &[u8]) {
    let mut room = [0u8; ROOM];
    match propose_reply(line, &mut room) {
        Some(answer) => print_proposal(out, answer),
        None => printing::unknown(out),
    }
}

// The present code of a field, the new one, and the writer's level.
#[derive(Clone, Copy)]
struct Exchange {
    field: u64,
    present: u64,
    new: u64,
    level: Level,
}

// The field, the two codes and the level, words 3 to 6 of a commit.
fn exchange_of(line: &[u8]) -> Option<Exchange>
    ensures { result ≡ exchange_in line.now }
{
    let field = console_words::number_of(word(line, 3))?;
    let present = console_words::number_of(word(line, 4))?;
    let new = console_words::number_of(word(line, 5))?;
    let level = console_words::level_of(word(line, 6))?;
    Some(Exchange {
        field,
        present,
        new,
        level,
    })
}

// The commit to the image, words 1 to 6, and what the image then is.
fn commit_reply(line: &[u8], room: &mut [u8]) -> Option<WrittenFront>
    ensures { write_reply_said result room.new ≡ commit_reply (length room.old) line.now }
{
    let codes = exchange_of(line)?;
    let chip = arguments::lent(line, room)?;
    let length = chip.length;
    let level = codes.level;
    let image = &mut room[..length];
    let answer = change::commit(
        chip.kind,
        image,
        level,
        codes.field,
        codes.present,
        codes.new,
    );
    Some(WrittenFront { answer, length })
}

// Answers `commit`: the kind, the image, the field, the two codes and the level, words 1 to 6.
pub fn commit(out: &mut impl Write, line: &[u8]) {
    let mut room = [0u8; ROOM];
    let reply = commit_reply(line, &mut room);
    printing::write_reply(out, reply, &room);
}

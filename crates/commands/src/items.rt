// The commands `pair`, `segment`, `term` and `char`: one item of a sheet, by its index.
ghost use Rattle.std.specs.Prelude.{◌≡◌, length};
ghost use Rattle.commands.specs.Replies.{pair_reply, segment_reply, term_reply, character_reply};

use crate::arguments::ROOM;
use crate::{arguments, printing};
use console_words::front;
use listing::{put, put_figure};
use refusal::Refusal;
use std::io::Write;
use templates::{Pair, Segment, Term};

// The calibration point and its deviation, words 1 to 3.
fn pair_reply(line: &[u8], room: &mut [u8]) -> Option<Result<Pair, Refusal>>
    ensures { result ≡ pair_reply (length room.old) line.now }
{
    let request = arguments::number_request(line, room)?;
    let chip = request.chip;
    let image = front(room, chip.length);
    Some(sheet::read_pair(chip.kind, image, request.number))
}

fn print_pair(out: &mut impl Write, answer: Result<Pair, Refusal>) {
    match answer {
        Ok(pair) => printing::figures(out, pair.point, pair.deviation),
        Err(r) => printing::refused(out, r),
    }
}

// Answers `pair`: the kind, the image and the index, words 1 to 3.
pub fn pair(out: &mut impl Write, line: &[u8]) {
    let mut room = [0u8; ROOM];
    match pair_reply(line, &mut room) {
        Some(answer) => print_pair(out, answer),
        None => printing::unknown(out),
    }
}

// The segment's start and its number of terms, words 1 to 3.
fn segment_reply(line: &[u8], room: &mut [u8]) -> Option<Result<Segment, Refusal>>
    ensures { result ≡ segment_reply (length room.old) line.now }
{
    let request = arguments::number_request(line, room)?;
    let chip = request.chip;
    let image = front(room, chip.length);
    Some(sheet::read_segment(chip.kind, image, request.number))
}

fn print_segment(out: &mut impl Write, answer: Result<Segment, Refusal>) {
    match answer {
        Ok(segment) => {
            put_figure(out, segment.start);
            put(out, b" ");
            printing::number(out, segment.terms);
        }
        Err(r) => printing::refused(out, r),
    }
}

// Answers `segment`: the kind, the image and the index, words 1 to 3.
pub fn segment(out: &mut impl Write, line: &[u8]) {
    let mut room = [0u8; ROOM];
    match segment_reply(line, &mut room) {
        Some(answer) => print_segment(out, answer),
        None => printing::unknown(out),
    }
}

// The term's exponent and coefficient, words 1 to 3.
fn term_reply(line: &[u8], room: &mut [u8]) -> Option<Result<Term, Refusal>>
    ensures { result ≡ term_reply (length room.old) line.now }
{
    let request = arguments::number_request(line, room)?;
    let chip = request.chip;
    let image = front(room, chip.length);
    Some(sheet::read_term(chip.kind, image, request.number))
}

fn print_term(out: &mut impl Write, answer: Result<Term, Refusal>) {
    match answer {
        Ok(term) => {
            put_figure(out, term.exponent);
            put(out, b" ");
            printing::single(out, term.coefficient);
            printing::end(out);
        }
        Err(r) => printing::refused(out, r),
    }
}

// Answers `term`: the kind, the image and the index, words 1 to 3.
pub fn term(out: &mut impl Write, line: &[u8]) {
    let mut room = [0u8; ROOM];
    match term_reply(line, &mut room) {
        Some(answer) => print_term(out, answer),
        None => printing::unknown(out),
    }
}

// The character of the closing text, words 1 to 3.
fn character_reply(line: &[u8], room: &mut [u8]) -> Option<Result<u8, Refusal>>
    ensures { result ≡ character_reply (length room.old) line.now }
{
    let request = arguments::number_request(line, room)?;
    let chip = request.chip;
    let image = front(room, chip.length);
    Some(sheet::read_character(chip.kind, image, request.number))
}

fn print_character(out: &mut impl Write, answer: Result<u8, Refusal>) {
    match answer {
        Ok(b) => printing::number(out, b as u64),
        Err(r) => printing::refused(out, r),
    }
}

// Answers `char`: the kind, the image and the index, words 1 to 3.
pub fn character(out: &mut impl Write, line: &[u8]) {
    let mut room = [0u8; ROOM];
    match character_reply(line, &mut room) {
        Some(answer) => print_character(out, answer),
        None => printing::unknown(out),
    }
}

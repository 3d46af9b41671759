// The commands `check`, `show`, `page` and `field`.
ghost use Rattle.std.specs.Prelude.{◌≡◌, length};
ghost use Rattle.commands.specs.Lists.{front_said};
ghost use Rattle.commands.specs.Replies.{check_reply, page_reply, field_reply};

use crate::arguments::ROOM;
use crate::{arguments, printing};
use codes::Value;
use console_words::front;
use listing::{put, put_number};
use memory::page_bytes;
use refusal::Refusal;
use sheet::Summary;
use std::io::Write;

// The check of the image, words 1 and 2.
fn check_reply(line: &[u8], room: &mut [u8]) -> Option<Result<Summary, Refusal>>
    ensures { result ≡ check_reply (length room.old) line.now }
{
    let chip = arguments::lent(line, room)?;
    let image = front(room, chip.length);
    Some(sheet::check(chip.kind, image))
}

fn accepted(out: &mut impl Write, summary: Summary) {
    put(out, b"ok ");
    put_number(out, summary.bits);
    put(out, b" ");
    put_number(out, summary.points);
    if summary.end_bit {
        put(out, b" 1 ");
    } else {
        put(out, b" 0 ");
    }
    put_number(out, summary.characters);
    put(out, b" ");
    let template = summary.template;
    put_number(out, templates::template_number(template));
    put(out, b" ");
    let domain = summary.domain;
    printing::domain(out, domain);
    put(out, b" ");
    put_number(out, summary.segments);
    put(out, b" ");
    printing::number(out, summary.terms);
}

fn print_check(out: &mut impl Write, answer: Result<Summary, Refusal>) {
    match answer {
        Ok(summary) => accepted(out, summary),
        Err(r) => printing::refused(out, r),
    }
}

// Answers `check`: the kind and the image, words 1 and 2.
pub fn check(out: &mut impl Write, line: &[u8]) {
    let mut room = [0u8; ROOM];
    match check_reply(line, &mut room) {
        Some(answer) => print_check(out, answer),
        None => printing::unknown(out),
    }
}

// Answers `show`: the kind and the image, words 1 and 2.
pub fn show(out: &mut impl Write, line: &[u8]) {
    let mut room = [0u8; ROOM];
    match arguments::lent(line, &mut room) {
        Some(chip) => listing::show(out, chip.kind, front(&room, chip.length)),
        None => printing::unknown(out),
    }
}

// The digits of a page's 31 bytes.
const PAGE_DIGITS: usize = 62;

// The bytes of the page, words 1 to 3, spelt at the start of a buffer.
fn page_reply(line: &[u8], room: &mut [u8], digits: &mut [u8]) -> Option<usize>
    ensures { front_said result digits.new ≡ page_reply (length room.old) (length digits.old) line.now }
{
    let request = arguments::number_request(line, room)?;
    let chip = request.chip;
    let image = front(room, chip.length);
    let page = page_bytes(chip.kind, image, request.number);
    console_words::spell(page, digits)
}

// Answers `page`: the kind, the image and the page, words 1 to 3.
pub fn page(out: &mut impl Write, line: &[u8]) {
    let mut room = [0u8; ROOM];
    let mut digits = [0u8; PAGE_DIGITS];
    match page_reply(line, &mut room, &mut digits) {
        Some(count) => {
            put(out, front(&digits, count));
            printing::end(out);
        }
        None => printing::unknown(out),
    }
}

// The value of the field, words 1 to 3.
fn field_reply(line: &[u8], room: &mut [u8]) -> Option<Result<Value, Refusal>>
    ensures { result ≡ field_reply (length room.old) line.now }
{
    let request = arguments::number_request(line, room)?;
    let chip = request.chip;
    let image = front(room, chip.length);
    Some(sheet::read_field(chip.kind, image, request.number))
}

// Answers `field`: the kind, the image and the field, words 1 to 3.
pub fn field(out: &mut impl Write, line: &[u8]) {
    let mut room = [0u8; ROOM];
    printing::field_reply(out, field_reply(line, &mut room));
}

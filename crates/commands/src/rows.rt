// The command `next`.
ghost use Rattle.std.specs.Prelude.{◌≡◌, length};
ghost use Rattle.commands.specs.Replies.{next_reply};

use crate::arguments::ROOM;
use crate::{arguments, printing};
use console_words::{front, word};
use listing::{put, put_number};
use refusal::Refusal;
use std::io::Write;
use writing::Row;

// The next row of the kind from what the chip holds to the image to be written, words 1 to 3.
fn next_reply(
    line: &[u8],
    room: &mut [u8],
    image: &mut [u8],
) -> Option<Result<Option<Row>, Refusal>>
    ensures { result ≡ next_reply (length room.old) (length image.old) line.now }
{
    let chip = arguments::lent(line, room)?;
    let length = console_words::bytes_of(word(line, 3), image)?;
    let present = front(room, chip.length);
    let wanted = front(image, length);
    Some(writing::next_row(chip.kind, present, wanted))
}

fn print_row(out: &mut impl Write, answer: Result<Option<Row>, Refusal>) {
    match answer {
        Ok(None) => put(out, b"done\n"),
        Ok(Some(row)) => {
            put_number(out, row.offset as u64);
            put(out, b" ");
            printing::bytes(out, &row.bytes);
            printing::end(out);
        }
        Err(r) => printing::refused(out, r),
    }
}

// Answers `next`: the kind, what the chip holds and the image to be written, words 1 to 3.
pub fn next(out: &mut impl Write, line: &[u8]) {
    let mut room = [0u8; ROOM];
    let mut image = [0u8; ROOM];
    match next_reply(line, &mut room, &mut image) {
        Some(answer) => print_row(out, answer),
        None => printing::unknown(out),
    }
}

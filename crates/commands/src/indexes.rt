// The commands `index` and `fetch`.
ghost use Rattle.std.specs.Prelude.{◌≡◌, length};
ghost use Rattle.commands.specs.Replies.{index_reply, write_reply_said, fetch_reply};

use crate::arguments::{ROOM, WrittenFront};
use crate::{arguments, printing};
use codes::Value;
use console_words::{front, word};
use refusal::Refusal;
use std::io::Write;

// The index of the image in the buffer, words 1 to 3.
fn index_reply(line: &[u8], room: &mut [u8], buffer: &mut [u8]) -> Option<WrittenFront>
    ensures { write_reply_said result buffer.new ≡ index_reply (length room.old) (length buffer.old) line.now }
{
    let chip = arguments::lent(line, room)?;
    let length = console_words::bytes_of(word(line, 3), buffer)?;
    let image = front(room, chip.length);
    let answer = index::make_index(chip.kind, image, &mut buffer[..length]);
    Some(WrittenFront { answer, length })
}

// Answers `index`: the kind, the image and the buffer, words 1 to 3.
pub fn index(out: &mut impl Write, line: &[u8]) {
    let mut room = [0u8; ROOM];
    let mut buffer = [0u8; ROOM];
    let reply = index_reply(line, &mut room, &mut buffer);
    printing::write_reply(out, reply, &buffer);
}

// The field fetched from the image by the index's bytes, words 1 to 4.
fn fetch_reply(line: &[u8], room: &mut [u8], buffer: &mut [u8]) -> Option<Result<Value, Refusal>>
    ensures { result ≡ fetch_reply (length room.old) (length buffer.old) line.now }
{
    let chip = arguments::lent(line, room)?;
    let length = console_words::bytes_of(word(line, 3), buffer)?;
    let field = console_words::number_of(word(line, 4))?;
    let image = front(room, chip.length);
    let index = front(buffer, length);
    Some(index::fetch(chip.kind, image, index, field))
}

// Answers `fetch`: the kind, the image, the index's bytes and the field, words 1 to 4.
pub fn fetch(out: &mut impl Write, line: &[u8]) {
    let mut room = [0u8; ROOM];
    let mut buffer = [0u8; ROOM];
    printing::field_reply(out, fetch_reply(line, &mut room, &mut buffer));
}

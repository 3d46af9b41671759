// The commands `text` and `code`.
ghost use Rattle.std.specs.Prelude.{◌≡◌, length};
ghost use Rattle.commands.specs.Replies.{text_reply, code_reply};

use crate::arguments::ROOM;
use crate::printing;
use console_words::{front, word};
use refusal::Refusal;
use std::io::Write;
use texts::Text;

// The text of the field and the code, words 1 and 2.
fn text_reply(line: &[u8]) -> Option<Result<Text, Refusal>>
    ensures { result ≡ text_reply line.now }
{
    let field = console_words::number_of(word(line, 1))?;
    let code = console_words::number_of(word(line, 2))?;
    Some(texts::text_of(field, code))
}

fn print_text(out: &mut impl Write, answer: Result<Text, Refusal>) {
    match answer {
        Ok(text) => {
            printing::bytes(out, front(&text.characters, text.length as usize));
            printing::end(out);
        }
        Err(r) => printing::refused(out, r),
    }
}

// Answers `text`: the field and the code, words 1 and 2.
pub fn text(out: &mut impl Write, line: &[u8]) {
    match text_reply(line) {
        Some(answer) => print_text(out, answer),
        None => printing::unknown(out),
    }
}

// The code of the field and the text, words 1 and 2.
fn code_reply(line: &[u8], room: &mut [u8]) -> Option<Result<u64, Refusal>>
    ensures { result ≡ code_reply (length room.old) line.now }
{
    let field = console_words::number_of(word(line, 1))?;
    let length = console_words::bytes_of(word(line, 2), room)?;
    Some(texts::code_of(field, front(room, length)))
}

fn print_code(out: &mut impl Write, answer: Result<u64, Refusal>) {
    match answer {
        Ok(code) => printing::number(out, code),
        Err(r) => printing::refused(out, r),
    }
}

// Answers `code`: the field and the text, words 1 and 2.
pub fn code(out: &mut impl Write, line: &[u8]) {
    let mut room = [0u8; ROOM];
    match code_reply(line, &mut room) {
        Some(answer) => print_code(out, answer),
        None => printing::unknown(out),
    }
}

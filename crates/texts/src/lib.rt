// Document 01, "Layout": letters and dates to text and back, by value. No call has a `requires`.
#![tactic(auto)]

ghost use Rattle.std.specs.Prelude.{◌≡◌};
ghost use Rattle.texts.specs.Text.{text_of, text_said, same, code_of};
ghost use Rattle.texts.specs.Whose.{code_if_shown};

mod dates; // dates.rt: dates and their text
mod letters; // letters.rt: letters and their text

use refusal::Refusal;

// The text of a code: its length, and its characters, followed by zeros.
#[derive(Clone, Copy)]
pub struct Text {
    pub length: u64,
    pub characters: [u8; 10],
}

// The text of a code that the field can hold and that does not mean missing: one letter for field
// 3, a date for 18, three letters for 19. Else 8 for another field, or 10, with the field as place.
#[tactic(auto, using(crate::proofs::Answers::text_laws))]
pub fn text_of(field: u64, code: u64) -> Result<Text, Refusal>
    ensures { result ≡ text_said (text_of field code) }
{
    match (field, code) {
        (3, 1..=26) => Ok(Text {
            length: 1,
            characters: letters::one_text(code),
        }),
        (18, 0..=65_534) => Ok(Text {
            length: 10,
            characters: dates::text_of(code),
        }),
        (19, 0..=32_767) => Ok(Text {
            length: 3,
            characters: letters::three_text(code),
        }),
        (3 | 18 | 19, _) => Err(Refusal::OutOfRange(field)),
        _ => Err(Refusal::NoSuch(field)),
    }
}

// The code whose text this is, if the field can hold it. Else 8 for a field other than 3, 18
// and 19; then 9 for a text of another length than the field's; or 10. The place is the field.
#[tactic(auto, using(crate::proofs::Answers::code_laws))]
pub fn code_of(field: u64, text: &[u8]) -> Result<u64, Refusal>
    ensures { result ≡ code_of field text.now }
{
    let code = match (field, text.len()) {
        (3, 1) => letters::one_code(text),
        (18, 10) => dates::code_of(text),
        (19, 3) => letters::three_code(text),
        (3 | 18 | 19, _) => return Err(Refusal::WrongSort(field)),
        _ => return Err(Refusal::NoSuch(field)),
    };
    code_if_shown(field, code, text)
}

// A code, if this is its text; else 10 with the field
// as place. This refuses every text that no code has.
#[tactic(auto, using(crate::proofs::Answers::shown_laws))]
fn code_if_shown(field: u64, code: u64, text: &[u8]) -> Result<u64, Refusal>
    ensures { result ≡ code_if_shown field code text.now }
{
    let shown = text_of(field, code)?;
    let end = shown.length as usize;
    if equal(&shown.characters[..end], text) {
        return Ok(code);
    }
    Err(Refusal::OutOfRange(field))
}

// Whether two slices hold the same bytes.
pub fn equal(a: &[u8], b: &[u8]) -> bool
    ensures { result ≡ same a.now b.now }
{
    a == b
}

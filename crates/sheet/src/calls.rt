// The calls of a dash: check an image; read a field, a pair, a character, a segment, a term.
ghost use Rattle.std.specs.Prelude.{◌≡◌};
ghost use Rattle.sheet.specs.Check.{check as check_of, read_field, read_pair, read_character, read_segment, read_term};

use crate::opening::{Item, open, open_at};
use crate::{Summary, held, segments};
use codes::Value;
use refusal::Refusal;
use templates::{Pair, Segment, Term};

// A summary of an accepted image; or 1, 17, 2 by page, or the
// first of 3 to 7, 22, 24 and 25 from the stream's start.
pub fn check(kind: u8, image: &[u8]) -> Result<Summary, Refusal>
    ensures { result ≡ check_of kind image.now }
{
    let sheet = open(kind, image)?;
    let summary = sheet.summary;
    Ok(summary)
}

// The value of a field, counted from 1; or the check's
// refusal, or 8 if the sheet's template has no such field.
pub fn read_field(kind: u8, image: &[u8], field: u64) -> Result<Value, Refusal>
    ensures { result ≡ read_field kind image.now field }
{
    let sheet = open(kind, image)?;
    let layout = sheet.layout;
    let template = layout.template;
    if field < 1 {
        return Err(Refusal::NoSuch(field));
    }
    if templates::last_field(template) < field {
        return Err(Refusal::NoSuch(field));
    }
    Ok(held::value_in(sheet, image, field))
}

// A calibration point and its deviation, counted from 0; or
// the check's refusal, or 8 if the index is past the last.
pub fn read_pair(kind: u8, image: &[u8], index: u64) -> Result<Pair, Refusal>
    ensures { result ≡ read_pair kind image.now index }
{
    let sheet = open_at(kind, image, Item::Pair, index)?;
    Ok(held::pair_in(sheet, image, index))
}

// A character of the closing text, counted from 0; or the
// check's refusal, or 8 if the index is past the last.
pub fn read_character(kind: u8, image: &[u8], index: u64) -> Result<u8, Refusal>
    ensures { result ≡ read_character kind image.now index }
{
    let sheet = open_at(kind, image, Item::Character, index)?;
    Ok(held::character_in(sheet, image, index))
}

// A segment of the curve, counted from 0; or the
// check's refusal, or 8 if the index is past the last.
pub fn read_segment(kind: u8, image: &[u8], index: u64) -> Result<Segment, Refusal>
    ensures { result ≡ read_segment kind image.now index }
{
    let sheet = open_at(kind, image, Item::Segment, index)?;
    Ok(segments::segment_in(sheet, image, index))
}

// A term, counted from 0 over the whole curve; or the
// check's refusal, or 8 if the index is past the last.
pub fn read_term(kind: u8, image: &[u8], index: u64) -> Result<Term, Refusal>
    ensures { result ≡ read_term kind image.now index }
{
    let sheet = open_at(kind, image, Item::Term, index)?;
    Ok(segments::term_in(sheet, image, index))
}

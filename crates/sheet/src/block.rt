// After the fields: one block, of a calibration table
// or of a curve, and selector 3; or selector 3 alone.
ghost use Rattle.std.specs.Prelude.{◌≡◌};
ghost use Rattle.memory.specs.Answers.{WholeImage};
ghost use Rattle.layout.specs.Format.{parse};
ghost use Rattle.layout.specs.Contents.{block_at, calibration_of};
ghost use Rattle.layout.specs.Image.{stream_in};
ghost use Rattle.sheet.specs.Walk.{keeping, counts_of, only_block, step_said};

use crate::{curve_block, table, walk};
use memory::Sizes;
use refusal::Refusal;
use stream::Cursor;
use templates::Domain;

// What a check keeps of a calibration: the domain and the number of
// points of a table, the numbers of segments and terms of a curve.
#[derive(Clone, Copy)]
pub struct Counts {
    pub domain: Option<Domain>,
    pub points: u64,
    pub segments: u64,
    pub terms: u64,
}

// The rest of a block whose selector is at bit `at`: the template's number, and the table or curve.
fn take_block(
    sizes: Sizes,
    image: &[u8],
    cursor: Cursor,
    at: u64,
) -> Result<(Counts, Cursor), Refusal>
    requires { WholeImage sizes image.now }
    ensures { step_said result ≡ keeping counts_of (parse (stream_in sizes image.now) (block_at at) cursor.at) }
{
    let (number, next) = cursor.take(sizes, image, layout::NUMBER_BITS)?;
    if number == templates::TABLE_TEMPLATE {
        return table::take_table(sizes, image, next);
    }
    if number == templates::CURVE_TEMPLATE {
        return curve_block::take_curve(sizes, image, next);
    }
    Err(Refusal::WrongBlock(at))
}

// The rest of a block whose selector is at bit `at`, and the selector after it, which has to be 3.
fn take_only_block(
    sizes: Sizes,
    image: &[u8],
    cursor: Cursor,
    at: u64,
) -> Result<(Counts, Cursor), Refusal>
    requires { WholeImage sizes image.now }
    ensures { step_said result ≡ keeping counts_of (parse (stream_in sizes image.now) (only_block at) cursor.at) }
{
    let (counts, last) = take_block(sizes, image, cursor, at)?;
    let end = walk::take_mark(sizes, image, last, layout::SELECTOR_BITS, 3, last.at as u64)?;
    Ok((counts, end))
}

// One block and selector 3, or selector 3 alone: the counts of the calibration.
pub fn take_calibration(
    sizes: Sizes,
    image: &[u8],
    cursor: Cursor,
) -> Result<(Counts, Cursor), Refusal>
    requires { WholeImage sizes image.now }
    ensures { step_said result ≡ keeping counts_of (parse (stream_in sizes image.now) calibration_of cursor.at) }
{
    let at = cursor.at as u64;
    let (selector, next) = cursor.take(sizes, image, layout::SELECTOR_BITS)?;
    if selector == 0 {
        return take_only_block(sizes, image, next, at);
    }
    if selector == 3 {
        let counts = Counts {
            domain: None,
            points: 0,
            segments: 0,
            terms: 0,
        };
        return Ok((counts, next));
    }
    Err(Refusal::WrongBlock(at))
}

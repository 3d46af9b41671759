// The whole check, once.
ghost use Rattle.std.specs.Prelude.{◌≡◌};
ghost use Rattle.sheet.specs.Opened.{opened, counted, opened_at};
ghost use Rattle.memory.specs.Answers.{WholeImage};
ghost use Rattle.layout.specs.Image.{stream_in};
ghost use Rattle.layout.specs.Places.{first_selector, behind_fields};
ghost use Rattle.sheet.specs.Walk.{Roomy, own_start, ending_opened, calibration_opened, own_opened, block_opened, walked};

use crate::block::Counts;
use crate::{Summary, block, ending, walk};
use memory::Sizes;
use refusal::Refusal;
use stream::Cursor;
use templates::{Layout, Template};

// An accepted sheet: the sizes of its image, what its rows depend
// on, the cursor after its fields, and the check's summary.
#[derive(Clone, Copy)]
pub struct Opened {
    pub sizes: Sizes,
    pub layout: Layout,
    pub behind: Cursor,
    pub summary: Summary,
}

// What a read finds by its index.
#[derive(Clone, Copy)]
pub enum Item {
    Pair,
    Character,
    Segment,
    Term,
}

// Opens the ending after a counted calibration, of a sheet whose fields end at a cursor.
fn open_ending(
    sizes: Sizes,
    image: &[u8],
    layout: Layout,
    behind: Cursor,
    counts: Counts,
    cursor: Cursor,
) -> Result<Opened, Refusal>
    requires { WholeImage sizes image.now × (behind.at ≡ behind_fields layout) }
    ensures { result ≡ ending_opened sizes (stream_in sizes image.now) layout counts cursor.at }
{
    let (end_bit, characters, end) = ending::take_ending(sizes, image, cursor)?;
    Ok(Opened {
        sizes,
        layout,
        behind,
        summary: Summary {
            bits: end.at as u64,
            points: counts.points,
            end_bit,
            characters,
            template: layout.template,
            domain: counts.domain,
            segments: counts.segments,
            terms: counts.terms,
        },
    })
}

// Opens the block after the fields of a layout, if there is one, and the ending.
fn open_calibration(
    sizes: Sizes,
    image: &[u8],
    layout: Layout,
    cursor: Cursor,
) -> Result<Opened, Refusal>
    requires { WholeImage sizes image.now × (cursor.at ≡ behind_fields layout) }
    ensures { result ≡ calibration_opened sizes (stream_in sizes image.now) layout cursor.at }
{
    let (counts, next) = block::take_calibration(sizes, image, cursor)?;
    open_ending(sizes, image, layout, cursor, counts, next)
}

// Opens a template's own fields, and what follows them.
fn open_own(sizes: Sizes, image: &[u8], template: Template) -> Result<Opened, Refusal>
    requires { Roomy sizes image.now }
    ensures { result ≡ own_opened sizes (stream_in sizes image.now) template own_start }
{
    let (precision, cursor) = walk::take_own(sizes, image, template)?;
    let layout = Layout {
        template,
        precision,
    };
    open_calibration(sizes, image, layout, cursor)
}

// Opens the first block, and what follows it.
fn open_block(sizes: Sizes, image: &[u8]) -> Result<Opened, Refusal>
    requires { Roomy sizes image.now }
    ensures { result ≡ block_opened sizes (stream_in sizes image.now) first_selector }
{
    let template = walk::take_template(sizes, image)?;
    open_own(sizes, image, template)
}

// Opens the stream from its start.
fn walk_sheet(sizes: Sizes, image: &[u8]) -> Result<Opened, Refusal>
    requires { Roomy sizes image.now }
    ensures { result ≡ walked sizes image.now }
{
    walk::judge_basic(sizes, image)?;
    open_block(sizes, image)
}

// 1, 17, 2 by page, then the stream from its start: the opened sheet, or the check's refusal.
pub fn open(kind: u8, image: &[u8]) -> Result<Opened, Refusal>
    ensures { result ≡ opened kind image.now }
{
    let sizes = memory::image_sizes(kind, image.len())?;
    memory::check_sums(sizes, image)?;
    walk_sheet(sizes, image)
}

// How many items of this sort the sheet has.
fn count_of(item: Item, summary: Summary) -> u64
    ensures { result ≡ counted item summary }
{
    match item {
        Item::Pair => summary.points,
        Item::Character => summary.characters,
        Item::Segment => summary.segments,
        Item::Term => summary.terms,
    }
}

// The opened sheet, to read the item of an index; or the
// check's refusal, or 8 if the index is past the last.
pub fn open_at(kind: u8, image: &[u8], item: Item, index: u64) -> Result<Opened, Refusal>
    ensures { result ≡ opened_at kind image.now item index }
{
    let sheet = open(kind, image)?;
    if count_of(item, sheet.summary) <= index {
        return Err(Refusal::NoSuch(index));
    }
    Ok(sheet)
}

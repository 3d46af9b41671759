// A field fetched through an index. The stream is not parsed:
// only the page sums and the field's own bits are tested.
ghost use Rattle.std.specs.Prelude.{◌≡◌, ◌≤◌};
ghost use Rattle.memory.specs.Image.{stream_number};
ghost use Rattle.memory.specs.Answers.{WholeImage};
ghost use Rattle.templates.specs.Lines.{last_field, line_of};
ghost use Rattle.codes.specs.Stored.{Sound};
ghost use Rattle.index.specs.Index.{taken_as, template_at, row_of_length, bits_at, fetch_in, fetch as fetch_of};

use crate::{Entry, entries};
use codes::{Row, Value};
use memory::Sizes;
use refusal::Refusal;
use stream::Cursor;
use templates::{Layout, Template};

// The most codes of a field that sets widths.
const CHOICES: u64 = 4;

// The template for a number: 33 for any number but 32.
fn taken_as(number: u64) -> Template
    ensures { result ≡ taken_as number }
{
    templates::template_of(number).unwrap_or(Template::Bridge)
}

// The template whose fields are fetched, by the first
// template's number alone. Every stream has its bits.
fn template_at(sizes: Sizes, image: &[u8]) -> Template
    requires { WholeImage sizes image.now × (1 ≤ sizes.pages) }
    ensures { result ≡ template_at (stream_number sizes image.now) }
{
    let cursor = Cursor {
        at: layout::FIRST_NUMBER,
    };
    let Ok((number, _)) = cursor.take(sizes, image, layout::NUMBER_BITS) else {
        return Template::Bridge;
    };
    taken_as(number)
}

// The row of a field that is as long as its entry; 5 at the offset if there is none.
fn row_of_length(template: Template, field: u64, entry: Entry) -> Result<Row, Refusal>
    requires { (1 ≤ field) × (field ≤ last_field template) }
    ensures { result ≡ row_of_length (line_of template field) entry }
{
    for precision in 0..CHOICES {
        let layout = Layout {
            template,
            precision,
        };
        let row = templates::row_of(layout, field);
        if row.width == entry.length {
            return Ok(row);
        }
    }
    Err(Refusal::OutsideTable(entry.offset))
}

// The bits at an entry, as its row decodes them: 5 at
// the offset if it ends past the stream, then 5 or 6.
fn bits_at(sizes: Sizes, image: &[u8], row: Row, entry: Entry) -> Result<Value, Refusal>
    requires { WholeImage sizes image.now × Sound row × (row.width ≡ entry.length) }
    ensures { result ≡ bits_at sizes image.now row entry }
{
    let offset = entry.offset;
    let cursor = Cursor {
        at: offset as usize,
    };
    let Ok((code, _)) = cursor.take(sizes, image, entry.length as usize) else {
        return Err(Refusal::OutsideTable(offset));
    };
    codes::decode(row, offset, code)
}

// A field of an image whose page sums are right: 8, then 18, then 5 and 6.
fn fetch_in(sizes: Sizes, image: &[u8], index: &[u8], field: u64) -> Result<Value, Refusal>
    requires { WholeImage sizes image.now × (1 ≤ sizes.pages) }
    ensures { result ≡ fetch_in sizes image.now index.now field }
{
    let template = template_at(sizes, image);
    let last = templates::last_field(template);
    if field < 1 || last < field {
        return Err(Refusal::NoSuch(field));
    }
    if (index.len() as u64) < 4 * last {
        return Err(Refusal::ShortIndex(4 * last));
    }
    let entry = entries::entry_at(index, (field - 1) as usize);
    let row = row_of_length(template, field, entry)?;
    bits_at(sizes, image, row, entry)
}

// The value of a field, counted from 1, at the place that an
// index has for it. No other entry is read. Refused with:
// - 1, 17, 2 by page;
// - 8 if the template has no such field;
// - 18 if the index can't hold an entry for each field;
// - 5 at the entry's offset if the field can't have its length or would end past the stream;
// - then 5 or 6 for the field's bits.
pub fn fetch(kind: u8, image: &[u8], index: &[u8], field: u64) -> Result<Value, Refusal>
    ensures { result ≡ fetch_of kind image.now index.now field }
{
    let sizes = memory::image_sizes(kind, image.len())?;
    memory::check_sums(sizes, image)?;
    fetch_in(sizes, image, index, field)
}

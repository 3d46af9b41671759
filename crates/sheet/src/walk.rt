// Fields and blocks: what is at a cursor, and the cursor after it, or the first refusal.
ghost use Rattle.std.specs.Prelude.{◌≡◌, ◌+◌, ◌≤◌};
ghost use Rattle.memory.specs.Bits.{field_at};
ghost use Rattle.memory.specs.Image.{stream_bits, stream_number};
ghost use Rattle.memory.specs.Answers.{WholeImage};
ghost use Rattle.codes.specs.Stored.{Sound};
ghost use Rattle.codes.specs.Validity.{judge};
ghost use Rattle.layout.specs.Format.{parse};
ghost use Rattle.layout.specs.Contents.{field_of, first_block};
ghost use Rattle.layout.specs.Image.{stream_in};
ghost use Rattle.layout.specs.Places.{first_selector};
ghost use Rattle.sheet.specs.Walk.{keeping, coded, Roomy, basic_choice, own_judged, own_choice, layout_at, EndsBehind, mark_of, code_said, mark_said, step_said, stood_to, template_step_said};

use codes::Row;
use memory::Sizes;
use refusal::Refusal;
use stream::{Cursor, Field};
use templates::{Layout, Template};

// The code of the field of a row: 3 if it would pass the end, then 5 or 6.
pub fn take_code(
    sizes: Sizes,
    image: &[u8],
    cursor: Cursor,
    row: Row,
) -> Result<(u64, Cursor), Refusal>
    requires { WholeImage sizes image.now × Sound row }
    ensures { code_said cursor.at result ≡ keeping coded (parse (stream_in sizes image.now) (field_of row) cursor.at) }
{
    let (code, next) = cursor.take(sizes, image, row.width as usize)?;
    codes::judge(row, cursor.at as u64, code)?;
    Ok((code, next))
}

// A code of `width` bits: 3, then 4 at the selector's bit if the code is not the expected one.
pub fn take_mark(
    sizes: Sizes,
    image: &[u8],
    cursor: Cursor,
    width: usize,
    wanted: u64,
    at: u64,
) -> Result<Cursor, Refusal>
    requires { WholeImage sizes image.now × (1 ≤ width) × (width ≤ 32) }
    ensures { mark_said result ≡ parse (stream_in sizes image.now) (mark_of width wanted at) cursor.at }
{
    let (code, next) = cursor.take(sizes, image, width)?;
    if code == wanted {
        return Ok(next);
    }
    Err(Refusal::WrongBlock(at))
}

// ---- fields inside the stream

// Whether a field can hold its code, by its row: 5 or 6.
fn judge_at(sizes: Sizes, image: &[u8], row: Row, field: Field) -> Result<(), Refusal>
    requires { WholeImage sizes image.now × Sound row × (field.at + row.width ≤ stream_bits sizes) }
    ensures { result ≡ judge row field.at (field_at (stream_number sizes image.now) field.at row.width) }
{
    codes::judge(
        row,
        field.at as u64,
        field.code(sizes, image, row.width as usize),
    )
}

// Basic, which is inside every stream: its fields up to the last that can
// refuse a code. Basic and each template have their own loop, with constant
// rows and a constant end, so that no row is selected at run time.
pub fn judge_basic(sizes: Sizes, image: &[u8]) -> Result<(), Refusal>
    requires { WholeImage sizes image.now }
    ensures { stood_to 0 first_selector result ≡ basic_choice (stream_in sizes image.now) }
{
    let last = templates::basic_closed();
    let mut cursor = Cursor::start();
    let mut field: u64 = 1;
    while field <= last {
        let row = templates::basic_row(field);
        let passed = cursor.over(row.width as usize);
        judge_at(sizes, image, row, passed.field)?;
        cursor = passed.next;
        field += 1;
    }
    Ok(())
}

// The fields of template 33 at a precision, without the
// last field, up to the last that can refuse a code.
fn judge_bridge(sizes: Sizes, image: &[u8], precision: u64) -> Result<(), Refusal>
    requires { Roomy sizes image.now }
    ensures { result ≡ own_judged (stream_in sizes image.now) (layout_at Template.Bridge precision) }
{
    let last = templates::last_closed(Template::Bridge);
    let mut cursor = Cursor {
        at: layout::OWN_FIELDS,
    };
    let mut field = templates::basic_fields() + 1;
    while field <= last {
        let row = templates::bridge_row(precision, field);
        let passed = cursor.over(row.width as usize);
        judge_at(sizes, image, row, passed.field)?;
        cursor = passed.next;
        field += 1;
    }
    Ok(())
}

// The fields of template 32 at a precision, without the
// last field, up to the last that can refuse a code.
fn judge_resistance(sizes: Sizes, image: &[u8], precision: u64) -> Result<(), Refusal>
    requires { Roomy sizes image.now }
    ensures { result ≡ own_judged (stream_in sizes image.now) (layout_at Template.Resistance precision) }
{
    let last = templates::last_closed(Template::Resistance);
    let mut cursor = Cursor {
        at: layout::OWN_FIELDS,
    };
    let mut field = templates::basic_fields() + 1;
    while field <= last {
        let row = templates::resistance_row(precision, field);
        let passed = cursor.over(row.width as usize);
        judge_at(sizes, image, row, passed.field)?;
        cursor = passed.next;
        field += 1;
    }
    Ok(())
}

fn judge_own(sizes: Sizes, image: &[u8], layout: Layout) -> Result<(), Refusal>
    requires { Roomy sizes image.now }
    ensures { result ≡ own_judged (stream_in sizes image.now) layout }
{
    let template = layout.template;
    match template {
        Template::Bridge => judge_bridge(sizes, image, layout.precision),
        Template::Resistance => judge_resistance(sizes, image, layout.precision),
    }
}

// The first block, which is inside every stream: selector 0, in the lowest
// bits, and the number of a template; else 4 at the selector's bit.
pub fn take_template(sizes: Sizes, image: &[u8]) -> Result<Template, Refusal>
    requires { WholeImage sizes image.now }
    ensures { template_step_said result ≡ parse (stream_in sizes image.now) first_block first_selector }
{
    let first = Field {
        at: layout::FIRST_SELECTOR,
    };
    let block = first.code(sizes, image, layout::BLOCK_BITS);
    if block & 3 != 0 {
        return Err(Refusal::WrongBlock(layout::FIRST_SELECTOR as u64));
    }
    match templates::template_of(block >> layout::SELECTOR_BITS) {
        Some(template) => Ok(template),
        None => Err(Refusal::WrongBlock(layout::FIRST_SELECTOR as u64)),
    }
}

// A template's own fields, at the precision in the stream. All but the last are inside every
// stream, and the last takes every code: so 3 can only occur at the last, after 5 and 6.
pub fn take_own(sizes: Sizes, image: &[u8], template: Template) -> Result<(u64, Cursor), Refusal>
    requires { Roomy sizes image.now }
    ensures { (step_said result ≡ own_choice (stream_in sizes image.now) template) × EndsBehind template result }
{
    let choice = Field {
        at: layout::PRECISION,
    };
    let precision = choice.code(sizes, image, layout::PRECISION_BITS);
    let layout = Layout {
        template,
        precision,
    };
    judge_own(sizes, image, layout)?;
    let end = layout::fields_end(layout);
    if 8 * (image.len() - sizes.pages) < end {
        let last = layout::locate(layout, templates::last_field(template));
        return Err(Refusal::PastEnd(last as u64));
    }
    Ok((precision, Cursor { at: end }))
}

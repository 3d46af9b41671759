// An index made in the caller's buffer.
ghost use Rattle.std.specs.Prelude.{◌≡◌, [], ◌∷◌, ℕ, ◌+◌, ◌*◌, ◌^◌, ◌≤◌, ◌<◌, length};
ghost use Rattle.refusal.specs.Written.{written_said, afterwards};
ghost use Rattle.templates.specs.declared.Template.{Template};
ghost use Rattle.templates.specs.Lines.{basic, last_field, row_of};
ghost use Rattle.layout.specs.Places.{behind_fields};
ghost use Rattle.sheet.specs.Walk.{layout_at};
ghost use Rattle.index.specs.Index.{entry, entry_bytes, index as index_of};
ghost use Rattle.index.specs.Laid.{laid, first_entries};

use crate::{Entry, entries};
use codes::Row;
use refusal::Refusal;
use stream::Cursor;
use templates::{Layout, Template};

// Writes entry i, of the field of `width` bits at a cursor: the cursor after the field.
fn write_entry(buffer: &mut [u8], i: usize, cursor: Cursor, width: u64) -> Cursor
    requires { (4 * i + 4 ≤ length buffer.old) × (cursor.at + width < 2 ^ 64) }
    ensures { (buffer.new ≡ laid buffer.old (4 * i) (entry_bytes (entry cursor.at width ∷ []))) × (result.at ≡ cursor.at + width) }
{
    let passed = cursor.over(width as usize);
    entries::put_entry(
        buffer,
        4 * i,
        Entry {
            offset: passed.field.at as u64,
            length: width,
        },
    );
    passed.next
}

// Writes the entries of Basic, equal in every layout. An entry begins where
// the one before it ends. Basic and each template have their own loop, with
// constant rows and a constant end, so that no row is selected at run time.
fn write_basic(buffer: &mut [u8])
    requires { 4 * length basic ≤ length buffer.old }
    ensures { (layout : Layout) → buffer.new ≡ laid buffer.old 0 (entry_bytes (first_entries layout (length basic))) }
{
    let last = templates::basic_fields() as usize;
    let mut cursor = Cursor::start();
    for i in 0..last {
        let row = templates::basic_row(i as u64 + 1);
        cursor = write_entry(buffer, i, cursor, row.width);
    }
}

// A template's own fields. Each template is a type, so that its rows are constants in its loop.
trait OwnFields: Copy {
    ghost template: { Template };

    ghost precision: { Self → ℕ };

    // The number of the last field.
    fn last() -> u64
        ensures { result ≡ last_field template };

    // The row of a field, counted from 1.
    fn row(self, field: u64) -> Row
        requires { (length basic < field) × (field ≤ last_field template) }
        ensures { result ≡ row_of (layout_at template (precision self)) field };
}

#[derive(Clone, Copy)]
struct Bridge {
    precision: u64,
}

impl OwnFields for Bridge {
    ghost template = { Template.Bridge };

    ghost precision = { λ fields. fields.precision };

    fn last() -> u64 {
        templates::last_field(Template::Bridge)
    }

    fn row(self, field: u64) -> Row {
        templates::bridge_row(self.precision, field)
    }
}

#[derive(Clone, Copy)]
struct Resistance {
    precision: u64,
}

impl OwnFields for Resistance {
    ghost template = { Template.Resistance };

    ghost precision = { λ fields. fields.precision };

    fn last() -> u64 {
        templates::last_field(Template::Resistance)
    }

    fn row(self, field: u64) -> Row {
        templates::resistance_row(self.precision, field)
    }
}

// Writes the entries of a template's own fields after those of Basic.
fn write_fields<F: OwnFields>(buffer: &mut [u8], fields: F)
    requires { let layout = layout_at F.template (F.precision fields) in
        (4 * last_field F.template ≤ length buffer.old) × (buffer.old ≡ laid buffer.old 0 (entry_bytes (first_entries layout (length basic)))) }
    ensures { let layout = layout_at F.template (F.precision fields) in
        buffer.new ≡ laid buffer.old 0 (entry_bytes (first_entries layout (last_field F.template))) }
{
    let first = templates::basic_fields() as usize;
    let last = F::last() as usize;
    let mut cursor = Cursor {
        at: layout::OWN_FIELDS,
    };
    for i in first..last {
        let row = fields.row(i as u64 + 1);
        cursor = write_entry(buffer, i, cursor, row.width);
    }
}

fn write_own(layout: Layout, buffer: &mut [u8])
    requires { (4 * last_field layout.template ≤ length buffer.old) × (buffer.old ≡ laid buffer.old 0 (entry_bytes (first_entries layout (length basic)))) }
    ensures { buffer.new ≡ laid buffer.old 0 (entry_bytes (first_entries layout (last_field layout.template))) }
{
    let template = layout.template;
    let precision = layout.precision;
    match template {
        Template::Bridge => write_fields(buffer, Bridge { precision }),
        Template::Resistance => write_fields(buffer, Resistance { precision }),
    }
}

// Writes the entries of the calibration points after the fields, which end at a cursor.
fn write_points(layout: Layout, behind: Cursor, buffer: &mut [u8], count: usize)
    requires at_value { (behind.at ≡ behind_fields layout) × (4 * count ≤ length buffer.old) × (count < 2 ^ 32) × (last_field layout.template ≤ count) }
    requires buffer_value { buffer.old ≡ laid buffer.old 0 (entry_bytes (first_entries layout (last_field layout.template))) }
    ensures { buffer.new ≡ laid buffer.old 0 (entry_bytes (first_entries layout count)) }
{
    let template = layout.template;
    let first = templates::last_field(template) as usize;
    let mut cursor = Cursor {
        at: layout::locate_pair(behind.at, 0),
    };
    for i in first..count {
        cursor = write_entry(buffer, i, cursor, layout::PAIR_BITS as u64);
    }
}

// Writes this many entries of an accepted sheet, whose fields end at
// a cursor: at least those of all fields. "bytes beyond them stay".
fn write_entries(layout: Layout, behind: Cursor, buffer: &mut [u8], count: usize)
    requires { (behind.at ≡ behind_fields layout) × (4 * count ≤ length buffer.old) × (count < 2 ^ 32) × (last_field layout.template ≤ count) }
    ensures { buffer.new ≡ laid buffer.old 0 (entry_bytes (first_entries layout count)) }
{
    write_basic(buffer);
    write_own(layout, buffer);
    write_points(layout, behind, buffer, count);
}

// Writes the index of an image: an entry for each field in order, then one for
// each calibration point; "bytes beyond them stay". Else the check's refusal, or
// 18 with the bytes needed if the buffer has fewer. A refusal writes nothing.
pub fn make_index(kind: u8, image: &[u8], buffer: &mut [u8]) -> Result<(), Refusal>
    ensures { let outcome = index_of kind image.now buffer.old in
        (written_said result buffer.new ≡ outcome) × (buffer.new ≡ afterwards buffer.old outcome) }
{
    let opened = sheet::open(kind, image)?;
    let layout = opened.layout;
    let template = layout.template;
    let summary = opened.summary;
    let count = templates::last_field(template) + summary.points;
    if (buffer.len() as u64) < 4 * count {
        return Err(Refusal::ShortIndex(4 * count));
    }
    write_entries(layout, opened.behind, buffer, count as usize);
    Ok(())
}

// Document 01: change one field; document 02, Note 6: by
// a writer of a level. Order: check, 8, 12, 20, 9, 10.
ghost use Rattle.std.specs.Prelude.{◌≡◌, ◌≤◌};
ghost use Rattle.refusal.specs.Written.{written_said, afterwards};
ghost use Rattle.change.specs.Change.{change as change_of};
ghost use Rattle.templates.specs.Lines.{last_field};
ghost use Rattle.change.specs.Parts.{writable_in, allowed_in, code_in};

use crate::standing;
use codes::Value;
use refusal::Refusal;
use templates::{Layout, Level, Template};

// 20 if a writer of the level may not write the field.
fn may_write(template: Template, level: Level, field: u64) -> Result<(), Refusal>
    requires { (1 ≤ field) × (field ≤ last_field template) }
    ensures { result ≡ writable_in template level field }
{
    if templates::may_write(level, templates::mark_of(template, field)) {
        return Ok(());
    }
    Err(Refusal::LevelTooLow(field))
}

// 8 if the template has no such field, 12 for a field that
// sets the widths of others, 20 if the level is too low.
pub fn may_change(template: Template, level: Level, field: u64) -> Result<(), Refusal>
    ensures { result ≡ allowed_in template level field }
{
    if field < 1 || templates::last_field(template) < field {
        return Err(Refusal::NoSuch(field));
    }
    if templates::is_choice(template, field) {
        return Err(Refusal::ChangedAlone(field));
    }
    may_write(template, level, field)
}

// The code that a value would be stored at in a field; or 8, 12, 20, 9
// if the field takes no value of this sort, 10 if it has no code for it.
pub fn code_for(layout: Layout, level: Level, field: u64, value: Value) -> Result<u64, Refusal>
    ensures { result ≡ code_in layout level field value }
{
    let template = layout.template;
    may_change(template, level, field)?;
    templates::encode(layout, field, value)
}

// Stores a value in a field, counted from 1, of an image: rewrites "the field
// and the check bytes of its pages, no other bit". A refusal writes nothing:
// - the check's refusal;
// - 8 if the template has no such field;
// - 12 for a field that sets the widths of others;
// - 20 if a writer of the level may not write it;
// - 9 if the field takes no value of this sort;
// - 10 if it has no code for it.
pub fn change(
    kind: u8,
    image: &mut [u8],
    level: Level,
    field: u64,
    value: Value,
) -> Result<(), Refusal>
    ensures { (written_said result image.new ≡ change_of kind image.old level field value)
        × (image.new ≡ afterwards image.old (change_of kind image.old level field value)) }
{
    let opened = sheet::open(kind, image)?;
    let layout = opened.layout;
    let code = code_for(layout, level, field, value)?;
    standing::put_code(opened, image, field, code);
    Ok(())
}

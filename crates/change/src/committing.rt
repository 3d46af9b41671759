// Document 02, Notes 5 and 6: a writer of a level puts a code into a field,
// if the present one is still there. Order: check, 8, 12, 20, 19, 10.
ghost use Rattle.std.specs.Prelude.{◌≡◌, ℕ};
ghost use Rattle.refusal.specs.Written.{written_said, afterwards};
ghost use Rattle.codes.specs.Stored.{Sound};
ghost use Rattle.layout.specs.Contents.{Contents};
ghost use Rattle.sheet.specs.Opened.{Opens, Held};
ghost use Rattle.change.specs.Change.{may_stand, may_commit, commit as commit_of};
ghost use Rattle.change.specs.Parts.{may_follow};

use crate::{changing, standing};
use codes::Row;
use refusal::Refusal;
use sheet::Opened;
use templates::Level;

// Whether a field can hold a code: it fits the field's bits, and a check would accept it.
fn may_stand(row: Row, code: u64) -> bool
    requires { Sound row }
    ensures { result ≡ may_stand row code }
{
    if 0 < code >> row.width {
        return false;
    }
    codes::judge(row, 0, code).is_ok()
}

// 19 if the field holds another code than the present one, 10 if it can't hold the new one.
fn may_follow(row: Row, stands: u64, field: u64, present: u64, new: u64) -> Result<(), Refusal>
    requires { Sound row }
    ensures { result ≡ may_follow row stands field present new }
{
    let is_other = stands != present;
    if is_other {
        return Err(Refusal::OtherCode(field));
    }
    if !may_stand(row, new) {
        return Err(Refusal::OutOfRange(field));
    }
    Ok(())
}

// Whether a new code may be put into a field of an opened sheet: 8, 12, 20, 19, 10.
fn may_commit(
    sheet: Opened,
    image: &[u8],
    level: Level,
    field: u64,
    present: u64,
    new: u64,
) -> Result<(), Refusal>
    requires { Held sheet image.now }
    ensures { (kind : ℕ) (c : Contents) → Opens kind image.now sheet c → result ≡ may_commit c level field present new }
{
    let layout = sheet.layout;
    let template = layout.template;
    changing::may_change(template, level, field)?;
    may_follow(
        templates::row_of(layout, field),
        standing::code_in(sheet, image, field),
        field,
        present,
        new,
    )
}

// Puts a code into a field, counted from 1, of an image: rewrites the field
// and the check bytes of its pages, no other bit. A refusal writes nothing:
// - the check's refusal;
// - 8 if the template has no such field;
// - 12 for a field that sets the widths of others;
// - 20 if a writer of the level may not write it;
// - 19 if it holds another code than the present one;
// - 10 if it can't hold the new one.
pub fn commit(
    kind: u8,
    image: &mut [u8],
    level: Level,
    field: u64,
    present: u64,
    new: u64,
) -> Result<(), Refusal>
    ensures { (written_said result image.new ≡ commit_of kind image.old level field present new)
        × (image.new ≡ afterwards image.old (commit_of kind image.old level field present new)) }
{
    let opened = sheet::open(kind, image)?;
    may_commit(opened, image, level, field, present, new)?;
    standing::put_code(opened, image, field, new);
    Ok(())
}

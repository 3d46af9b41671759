// Document 02, Note 5: what a field would become. A proposal
// is refused as the change would be, and writes nothing.
ghost use Rattle.std.specs.Prelude.{◌≡◌, ◌^◌, ◌≤◌, ◌<◌};
ghost use Rattle.templates.specs.Lines.{last_field, row_of};
ghost use Rattle.layout.specs.Places.{field_place};
ghost use Rattle.change.specs.Change.{propose as propose_of};
ghost use Rattle.change.specs.Parts.{proposed_at};

use crate::{Proposal, changing, standing};
use codes::Value;
use refusal::Refusal;
use templates::{Layout, Level};

// The proposal of a code for a field that holds the present one.
fn proposed(layout: Layout, field: u64, present: u64, new: u64) -> Result<Proposal, Refusal>
    requires { (1 ≤ field) × (field ≤ last_field layout.template) × (new < 2 ^ (row_of layout field).width) }
    ensures { result ≡ proposed_at (row_of layout field) (field_place layout field) present new }
{
    let row = templates::row_of(layout, field);
    let at = layout::locate(layout, field);
    let value = codes::decode(row, at as u64, new)?;
    Ok(Proposal {
        present,
        new,
        value,
    })
}

// The present code of a field, the code that a value would be stored
// at, and what that reads back; or the refusal of the change.
pub fn propose(
    kind: u8,
    image: &[u8],
    level: Level,
    field: u64,
    value: Value,
) -> Result<Proposal, Refusal>
    ensures { result ≡ propose_of kind image.now level field value }
{
    let opened = sheet::open(kind, image)?;
    let layout = opened.layout;
    let new = changing::code_for(layout, level, field, value)?;
    let present = standing::code_in(opened, image, field);
    proposed(layout, field, present, new)
}

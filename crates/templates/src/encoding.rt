// Document 01, "Layout": the code that a field's value is stored at, by template and field number.
ghost use Rattle.std.specs.Prelude.{◌≡◌, ◌≤◌};
ghost use Rattle.codes.specs.Rules.{encode as encode_of};
ghost use Rattle.templates.specs.Lines.{last_field, row_of};

use crate::Layout;
use crate::lines::row_of;
use codes::{Value, encode_by};
use refusal::Refusal;

// The code of a field's value, each refusal at the field.
pub fn encode(layout: Layout, field: u64, value: Value) -> Result<u64, Refusal>
    requires { (1 ≤ field) × (field ≤ last_field layout.template) }
    ensures { result ≡ encode_of (row_of layout field) field value }
{
    encode_by(row_of(layout, field), field, value)
}

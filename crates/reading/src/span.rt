// The ends of the span.
ghost use Rattle.std.specs.Prelude.{◌≡◌, false, ℕ};
ghost use Rattle.layout.specs.Contents.{Contents};
ghost use Rattle.sheet.specs.Opened.{Opens, Held};
ghost use Rattle.reading.specs.Reading.{is_resistance, span_of};

use crate::ends::ends_of;
use codes::Value;
use refusal::Refusal;
use sheet::{Opened, unscaled_in};

// The ends of the span, fields 7, 8, 10 and 11, none of them missing.
#[derive(Clone, Copy)]
pub struct Span {
    pub low: f32,
    pub high: f32,
    pub least: i64,
    pub greatest: i64,
}

// The ends of the span of an opened sheet of template 33. Else 13 with
// the first that is missing; 21 with the first electrical one outside
// −2 to 2 V/V; or 13 with 11 if the least is not below the greatest.
pub fn span_in(sheet: Opened, image: &[u8]) -> Result<Span, Refusal>
    requires { Held sheet image.now × (is_resistance sheet.layout.template ≡ false) }
    ensures { (kind : ℕ) (c : Contents) → Opens kind image.now sheet c → result ≡ span_of c }
{
    let Value::Single(low) = unscaled_in(sheet, image, 7) else {
        return Err(Refusal::NoSpan(7));
    };
    let Value::Single(high) = unscaled_in(sheet, image, 8) else {
        return Err(Refusal::NoSpan(8));
    };
    let ends = ends_of(unscaled_in(sheet, image, 10), unscaled_in(sheet, image, 11))?;
    Ok(Span {
        low,
        high,
        least: ends.least,
        greatest: ends.greatest,
    })
}

// A reading in the order of its refusals.
ghost use Rattle.std.specs.Prelude.{◌≡◌, false, ℕ};
ghost use Rattle.layout.specs.Contents.{Contents};
ghost use Rattle.sheet.specs.Opened.{Opens, Held};
ghost use Rattle.reading.specs.Reading.{is_resistance, too_many, too_far, reading_at, take_reading};
ghost use Rattle.reading.specs.Steps.{Ready};

use crate::dashes::is_too_many;
use crate::fraction::fraction;
use crate::physical_fraction::physical_fraction;
use crate::position::{is_too_far, position};
use crate::span::{Span, span_in};
use crate::{Dash, Reading};
use refusal::Refusal;
use sheet::Opened;
use templates::Template;

// The reading of an accepted input: the fraction q at its position, and the physical figure.
fn shown(sheet: Opened, image: &[u8], span: Span, input: i64) -> Reading
    requires { Held sheet image.now × Ready span × (too_far input span.least span.greatest ≡ false) }
    ensures { (kind : ℕ) (c : Contents) → Opens kind image.now sheet c → result ≡ reading_at c.calibration span input }
{
    let p = position(input, span);
    let q = fraction(sheet, image, p);
    Reading {
        fraction: q,
        figure: figures::physical_figure(
            span.low,
            span.high,
            physical_fraction(sheet, image, p, q),
        ),
    }
}

// Whether the first block's template is 32, for which there is no reading.
fn is_resistance(template: Template) -> bool
    ensures { result ≡ is_resistance template }
{
    matches!(template, Template::Resistance)
}

// A reading of an opened sheet of template 33 that the dash takes: 13 and 21, then 14.
#[tactic(auto, unfolding(crate::specs::Reading::take_reading))]
fn bridge_reading(sheet: Opened, image: &[u8], input: i64, dash: Dash) -> Result<Reading, Refusal>
    requires { Held sheet image.now × (is_resistance sheet.layout.template ≡ false) × (too_many dash sheet.summary.points ≡ false) }
    ensures { (kind : ℕ) (c : Contents) → Opens kind image.now sheet c → result ≡ take_reading kind image.now input dash }
{
    let span = span_in(sheet, image)?;
    if is_too_far(input, span) {
        return Err(Refusal::OutsideSpan);
    }
    Ok(shown(sheet, image, span, input))
}

// A reading of an opened sheet of template 33: 23 if it has more points than the dash takes.
#[tactic(auto, unfolding(crate::specs::Reading::take_reading))]
fn dash_reading(sheet: Opened, image: &[u8], input: i64, dash: Dash) -> Result<Reading, Refusal>
    requires { Held sheet image.now × (is_resistance sheet.layout.template ≡ false) }
    ensures { (kind : ℕ) (c : Contents) → Opens kind image.now sheet c → result ≡ take_reading kind image.now input dash }
{
    let points = sheet.summary.points;
    if is_too_many(dash, points) {
        return Err(Refusal::TooManyPoints(points));
    }
    bridge_reading(sheet, image, input, dash)
}

// A reading of an opened sheet: 4 at the first selector
// for template 32, else the reading of template 33.
#[tactic(auto, unfolding(crate::specs::Reading::take_reading))]
pub fn reading_in(sheet: Opened, image: &[u8], input: i64, dash: Dash) -> Result<Reading, Refusal>
    requires { Held sheet image.now }
    ensures { (kind : ℕ) (c : Contents) → Opens kind image.now sheet c → result ≡ take_reading kind image.now input dash }
{
    if is_resistance(sheet.layout.template) {
        return Err(Refusal::WrongBlock(layout::FIRST_SELECTOR as u64));
    }
    dash_reading(sheet, image, input, dash)
}

// A reading of an image at an input in nV/V, on a dash:
// the fraction q and the physical figure. Refused with:
// - the check's refusal;
// - 4 for template 32;
// - 23 for the small dash, if the table has more than 32 points;
// - 13 if field 7, 8, 10 or 11 is missing;
// - 21 if field 10 or 11 is a Single outside −2 to 2 V/V;
// - 13 if e is not below f;
// - 14 for an input too far outside the span.
pub fn take_reading(kind: u8, image: &[u8], input: i64, dash: Dash) -> Result<Reading, Refusal>
    ensures { result ≡ take_reading kind image.now input dash }
{
    let sheet = sheet::open(kind, image)?;
    reading_in(sheet, image, input, dash)
}

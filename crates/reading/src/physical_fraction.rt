// The fraction of the span that the physical figure is computed from: q, or
// with a curve its float fraction, from the terms of the segment that serves.
ghost use Rattle.std.specs.Prelude.{◌≡◌, ℕ, ◌^◌, ◌≤◌, ◌<◌, nat_abs};
ghost use Rattle.memory.specs.Answers.{WholeImage};
ghost use Rattle.layout.specs.Contents.{Contents};
ghost use Rattle.layout.specs.Image.{stream_in, segments_in};
ghost use Rattle.sheet.specs.Opened.{Opens, Held};
ghost use Rattle.correction.specs.Powers.{no_powers, taken};
ghost use Rattle.reading.specs.Reading.{fraction, serving_terms, physical_fraction as physical_fraction_of};
ghost use Rattle.reading.specs.Steps.{own_terms};

use correction::Powers;
use memory::Sizes;
use sheet::{Opened, curve_in, segment_at, segment_end, term_at};
use stream::Cursor;

// The terms of a segment: the cursor at the segment, and their number.
#[derive(Clone, Copy)]
pub struct Run {
    pub cursor: Cursor,
    pub terms: u64,
}

// The terms of the segment that serves at p.
fn serving(sheet: Opened, image: &[u8], p: i64) -> Run
    requires { Held sheet image.now × (0 < sheet.summary.segments) }
    ensures { (result.cursor.at < 2 ^ 32) × (result.terms < 2 ^ 7) × ((kind : ℕ) (c : Contents) → Opens kind image.now sheet c → own_terms (stream_in sheet.sizes image.now) result.cursor.at result.terms ≡ serving_terms p (segments_in c.calibration)) }
{
    let sizes = sheet.sizes;
    let mut cursor = curve_in(sheet);
    let mut terms = segment_at(sizes, image, cursor).terms;
    for _ in 1..sheet.summary.segments {
        let behind = segment_end(cursor, terms);
        let next = segment_at(sizes, image, behind);
        if p < next.start {
            break;
        }
        cursor = behind;
        terms = next.terms;
    }
    Run { cursor, terms }
}

// The coefficients of the terms, by power.
fn powers_of(sizes: Sizes, image: &[u8], run: Run) -> Powers
    requires { WholeImage sizes image.now × (run.cursor.at < 2 ^ 32) × (run.terms < 2 ^ 7) }
    ensures { (result.count ≤ 6) × (result ≡ taken no_powers (own_terms (stream_in sizes image.now) run.cursor.at run.terms)) }
{
    let mut powers = Powers::none();
    for index in 0..run.terms {
        let term = term_at(sizes, image, segment_end(run.cursor, index));
        powers = powers.with(term.exponent as u64, term.coefficient);
    }
    powers
}

// The curve's float fraction if there is a curve, else q / 1,000,000,000.
pub fn physical_fraction(sheet: Opened, image: &[u8], p: i64, q: i64) -> f64
    requires { Held sheet image.now × (nat_abs q ≤ 2 ^ 53) }
    ensures { (kind : ℕ) (c : Contents) → Opens kind image.now sheet c → q ≡ fraction c.calibration p → result ≡ physical_fraction_of c.calibration p }
{
    if sheet.summary.segments == 0 {
        return figures::float_fraction(q);
    }
    let run = serving(sheet, image, p);
    correction::float_fraction(powers_of(sheet.sizes, image, run), p)
}

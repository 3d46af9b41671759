// Document 02, Note 11: curves, template 41. The rows of its fields, the codes of a
// start, an exponent and a coefficient, and the rules of a curve, for checks and builds.
ghost use Rattle.std.specs.Prelude.{◌≡◌, ◌/◌, ltb, pos, nat_abs, ◌*ℤ◌};
ghost use Rattle.refusal.specs.Outcome.{Err};
ghost use Rattle.refusal.specs.declared.Refusal.TheVariants.{WrongCurve};
ghost use Rattle.codes.specs.Rules.{encode as encode_of};
ghost use Rattle.templates.specs.CurveRules.{curve_row, curve_rule};
ghost use Rattle.templates.specs.Curves as spec;

use crate::blocks::{
    COEFFICIENT_BITS, DOMAIN_BITS, EXPONENT_BITS, EXPONENT_STEP, LEAST_EXPONENT,
    SEGMENT_COUNT_BITS, START_BITS, START_STEP, TERM_COUNT_BITS,
};
use crate::rows::{always, any};
use codes::{Row, Rule, Value, nearest_step, single_bits};
use integers::{minus, plus};
use refusal::Refusal;

// The codes of the exponents 0 and 5. Neighbouring codes are
// half a power apart, so whole exponents have every second code.
const FIRST_EXPONENT: u64 = 64;

const LAST_EXPONENT: u64 = 74;

// The most segments of a curve, terms of a segment and terms of a curve.
const MOST_SEGMENTS: u64 = 20;

const MOST_OWN: u64 = 6;

const MOST_TERMS: u64 = 30;

// A field of a curve whose codes obey a rule of their own (24).
#[derive(Clone, Copy)]
pub enum CurveField {
    SegmentCount,
    Start,
    TermCount,
    Exponent,
}

// The row of a curve's domain, which can only be 0.
pub fn curve_domain() -> Row
    ensures { result ≡ spec.curve_domain }
{
    always(DOMAIN_BITS, Rule::Plain(0, 0))
}

fn segment_count() -> Row
    ensures { result ≡ spec.segment_count }
{
    any(SEGMENT_COUNT_BITS)
}

// The row of a segment's start.
pub fn segment_start() -> Row
    ensures { result ≡ spec.segment_start }
{
    always(START_BITS, Rule::Stepped(0, START_STEP))
}

// The row of the number of a segment's terms.
pub fn term_count() -> Row
    ensures { result ≡ spec.term_count }
{
    any(TERM_COUNT_BITS)
}

// The row of a term's exponent.
pub fn term_exponent() -> Row
    ensures { result ≡ spec.exponent }
{
    always(EXPONENT_BITS, Rule::Stepped(LEAST_EXPONENT, EXPONENT_STEP))
}

// The row of a term's coefficient.
pub fn term_coefficient() -> Row
    ensures { result ≡ spec.coefficient }
{
    always(COEFFICIENT_BITS, Rule::Single)
}

// The code of a start in billionths of the span, or 10: `encode` of its row.
pub fn encode_start(place: u64, figure: i64) -> Result<u64, Refusal>
    ensures { result ≡ encode_of spec.segment_start place (Value.Whole figure) }
{
    nearest_step(0, START_STEP, START_BITS, place, figure)
}

// The code of a coefficient, or 10: `encode` of its row.
pub fn encode_coefficient(place: u64, x: f32) -> Result<u64, Refusal>
    ensures { result ≡ encode_of spec.coefficient place (Value.Single x) }
{
    single_bits(place, x)
}

// Whether the exponent of a code is a whole number 0 to 5.
fn is_exponent(code: u64) -> bool
    ensures { result ≡ spec.is_exponent (spec.tenths_of code) }
{
    if code < FIRST_EXPONENT {
        return false;
    }
    if LAST_EXPONENT < code {
        return false;
    }
    code % 2 == 0
}

// Whether an exponent's code may follow the one before it in its segment.
pub fn exponent_follows(before: Option<u64>, code: u64) -> bool
    ensures { result ≡ spec.exponent_follows (spec.tenths_before (before)) (spec.tenths_of code) }
{
    if is_exponent(code) {
        return match before {
            None => true,
            Some(last) => last < code,
        };
    }
    false
}

// The code of an exponent, or 24 if it may not follow the one before it in its segment.
pub fn encode_exponent(before: Option<u64>, place: u64, exponent: i64) -> Result<u64, Refusal>
    ensures { result ≡ spec.exponent_code (spec.tenths_before (before)) place (pos 10 *ℤ exponent) }
{
    if exponent < 0 {
        return Err(Refusal::WrongCurve(place));
    }
    if 5 < exponent {
        return Err(Refusal::WrongCurve(place));
    }
    let code = FIRST_EXPONENT + 2 * plus(exponent);
    if exponent_follows(before, code) {
        return Ok(code);
    }
    Err(Refusal::WrongCurve(place))
}

// The exponent whose tenths these are.
pub fn exponent_of(tenths: i64) -> i64
    ensures { result ≡ pos (nat_abs tenths / 10) }
{
    ((plus(tenths) + minus(tenths)) / 10) as i64
}

// Whether a start's code may follow the one before it.
pub fn start_follows(before: Option<u64>, code: u64) -> bool
    ensures { result ≡ spec.start_follows (before) code }
{
    match before {
        None => code == 0,
        Some(last) => last < code,
    }
}

// Whether a curve can have this many segments.
pub fn is_segment_count(count: u64) -> bool
    ensures { result ≡ spec.is_segment_count count }
{
    if 1 <= count {
        return count <= MOST_SEGMENTS;
    }
    false
}

// Whether a segment can have this many terms.
pub fn is_term_count(count: u64) -> bool
    ensures { result ≡ spec.is_term_count count }
{
    if 1 <= count {
        return count <= MOST_OWN;
    }
    false
}

// Whether these are more terms than a curve can have.
pub fn too_many(total: u64) -> bool
    ensures { result ≡ ltb spec.most_terms total }
{
    MOST_TERMS < total
}

// The row of a field that obeys a rule of the curve.
pub fn curve_row(field: CurveField) -> Row
    ensures { result ≡ curve_row field }
{
    match field {
        CurveField::SegmentCount => segment_count(),
        CurveField::Start => segment_start(),
        CurveField::TermCount => term_count(),
        CurveField::Exponent => term_exponent(),
    }
}

// Whether the field's rule accepts a code; a start and an exponent are
// compared with the one before them. `before` is not part of
// `CurveField`, so that the compiler knows the field where it is named.
pub fn obeys(field: CurveField, before: Option<u64>, code: u64) -> bool
    ensures { result ≡ curve_rule field before code }
{
    match field {
        CurveField::SegmentCount => is_segment_count(code),
        CurveField::Start => start_follows(before, code),
        CurveField::TermCount => is_term_count(code),
        CurveField::Exponent => exponent_follows(before, code),
    }
}

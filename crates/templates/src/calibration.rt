// Document 01, "Layout", and document 02, Note 9: the calibration table,
// template 40. The rows of its fields, the codes of a pair, and the rules
// between neighbouring pairs. Figures are in billionths of the span.
ghost use Rattle.std.specs.Prelude.{◌≡◌, ◌&&◌, ◌+◌, ◌*◌, ◌/◌, ◌%◌, ◌^◌, ◌<◌, pos};
ghost use Rattle.std.specs.Int.Signed.{le_z};
ghost use Rattle.refusal.specs.Outcome.{refuse◌if◌};
ghost use Rattle.refusal.specs.declared.Refusal.TheVariants.{SumsNotRising};
ghost use Rattle.codes.specs.Rules.{stepped_value, encode as encode_of};
ghost use Rattle.templates.specs.Calibration as spec;

use crate::blocks::{COUNT_BITS, D, DEVIATION_BITS, DOMAIN_BITS, LEAST_DEVIATION, POINT_BITS, R};
use crate::rows::always;
use crate::{Codes, Domain, Pair};
use codes::{Row, Rule, Value, nearest_step};
use refusal::Refusal;

// The row of a table's domain.
pub fn cal_domain() -> Row
    ensures { result ≡ spec.cal_domain }
{
    always(DOMAIN_BITS, Rule::Plain(0, 1))
}

// The code of a domain: 0 electrical, 1 physical.
pub fn domain_code(domain: Domain) -> u64
    ensures { result ≡ spec.domain_code domain }
{
    match domain {
        Domain::Electrical => 0,
        Domain::Physical => 1,
    }
}

// The domain of a code: 0 is electrical, any other physical.
pub fn domain_of(code: u64) -> Domain
    ensures { result ≡ spec.domain_of code }
{
    if code == 0 {
        return Domain::Electrical;
    }
    Domain::Physical
}

// The row of the number of points.
pub fn point_count() -> Row
    ensures { result ≡ spec.point_count }
{
    always(COUNT_BITS, Rule::Plain(1, 127))
}

// The row of a calibration point.
pub fn cal_point() -> Row
    ensures { result ≡ spec.cal_point }
{
    always(POINT_BITS, Rule::Stepped(0, D))
}

// The row of a deviation.
pub fn cal_deviation() -> Row
    ensures { result ≡ spec.cal_deviation }
{
    always(DEVIATION_BITS, Rule::Stepped(LEAST_DEVIATION, R))
}

// The code of a calibration point's figure: `encode` of its row, a
// constant here. That makes a build of a long table nearly twice as fast.
pub fn encode_point(place: u64, figure: i64) -> Result<u64, Refusal>
    ensures { result ≡ encode_of spec.cal_point place (Value.Whole figure) }
{
    nearest_step(0, D, POINT_BITS, place, figure)
}

// The code of a deviation's figure: `encode` of its row, a constant here.
pub fn encode_deviation(place: u64, figure: i64) -> Result<u64, Refusal>
    ensures { result ≡ encode_of spec.cal_deviation place (Value.Whole figure) }
{
    nearest_step(LEAST_DEVIATION, R, DEVIATION_BITS, place, figure)
}

// The pair whose codes are in one number of 37 bits: the point's lowest, then the deviation's.
pub fn pair_of(code: u64) -> Pair
    requires { code < 2 ^ 37 }
    ensures { result ≡ record { point = stepped_value (pos 0) spec.D (code % 2 ^ 16); deviation = stepped_value spec.least_deviation spec.R (code / 2 ^ 16) } }
{
    Pair {
        point: (D * (code & 0xffff)) as i64,
        deviation: LEAST_DEVIATION + (R * (code >> POINT_BITS)) as i64,
    }
}

// A pair's point plus its deviation, in billionths of the span above the least deviation.
pub fn sum_above(codes: Codes) -> u64
    ensures { result ≡ spec.D * codes.point + spec.R * codes.deviation }
{
    D * codes.point as u64 + R * codes.deviation as u64
}

// Row 22: whether a pair's sum is above that of the one before it, in domain 1.
fn climbs(domain: Domain, before: Codes, place: u64, next: Codes) -> Result<(), Refusal>
    ensures { result ≡ (refuse (SumsNotRising place) if spec.is_physical domain && le_z (spec.stored_sum next) (spec.stored_sum before)) }
{
    match domain {
        Domain::Electrical => Ok(()),
        Domain::Physical => {
            if sum_above(next) <= sum_above(before) {
                return Err(Refusal::SumsNotRising(place));
            }
            Ok(())
        }
    }
}

// Rows 7 and 22: whether a pair may follow the one before it. Points rise
// strictly, as codes; in domain 1 points plus deviations rise too, as stored.
pub fn follows(
    domain: Domain,
    before: Option<Codes>,
    place: u64,
    next: Codes,
) -> Result<(), Refusal>
    ensures { result ≡ spec.follows domain (before) place next }
{
    match before {
        None => Ok(()),
        Some(codes) => {
            if next.point <= codes.point {
                return Err(Refusal::NotRising(place));
            }
            climbs(domain, codes, place, next)
        }
    }
}

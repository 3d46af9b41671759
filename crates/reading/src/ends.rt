// The electrical ends of the span, in nV/V.
ghost use Rattle.std.specs.Prelude.{◌≡◌, cond};
ghost use Rattle.std.specs.Prelude.{None, Some};
ghost use Rattle.reading.specs.Reading.{electrical_figure, is_missing, is_outside};
ghost use Rattle.reading.specs.Steps.{ends_of};

use codes::Value;
use refusal::Refusal;

// e and f, in nV/V.
#[derive(Clone, Copy)]
pub struct Ends {
    pub least: i64,
    pub greatest: i64,
}

fn is_missing(value: Value) -> bool
    ensures { result ≡ is_missing value }
{
    matches!(value, Value::Missing)
}

// A value in nV/V, or that it is a Single outside −2 to 2 V/V.
fn end_of(value: Value) -> Option<i64>
    ensures { result ≡ cond (is_outside value) None (Some (electrical_figure value)) }
{
    match value {
        Value::Whole(figure) => Some(figure),
        Value::Single(x) => codes::nanovolts(x),
        Value::Missing => Some(0),
    }
}

// The ends from the values of fields 10 and 11. Else 13 with the first that is missing; 21 with the
// first that is a Single outside −2 to 2 V/V; or 13 with 11 if the least is not below the greatest.
#[tactic(auto, unfolding(crate::specs::Steps::ends_of))]
pub fn ends_of(first: Value, last: Value) -> Result<Ends, Refusal>
    ensures { result ≡ ends_of first last }
{
    if is_missing(first) {
        return Err(Refusal::NoSpan(10));
    }
    if is_missing(last) {
        return Err(Refusal::NoSpan(11));
    }
    let least = end_of(first).ok_or(Refusal::EndOutside(10))?;
    let greatest = end_of(last).ok_or(Refusal::EndOutside(11))?;
    if greatest <= least {
        return Err(Refusal::NoSpan(11));
    }
    Ok(Ends { least, greatest })
}

// The position of an input in the span.
ghost use Rattle.std.specs.Prelude.{◌≡◌, false};
ghost use Rattle.reading.specs.Reading.{position as position_of, too_far};
ghost use Rattle.reading.specs.Steps.{Ready, Lies};

use crate::span::Span;

// How far an input is above e, how far below e, and f − e.
#[derive(Clone, Copy)]
pub struct Offset {
    pub above: u64,
    pub below: u64,
    pub span: u64,
}

fn offset_in(v: i64, span: Span) -> Offset
    requires { Ready span }
    ensures { Lies v span result }
{
    Offset {
        above: integers::plus(v) + integers::minus(span.least),
        below: integers::minus(v) + integers::plus(span.least),
        span: correction::gap(span.greatest, span.least),
    }
}

// Row 14: whether an input is too far outside the span.
pub fn is_too_far(v: i64, span: Span) -> bool
    requires { Ready span }
    ensures { result ≡ too_far v span.least span.greatest }
{
    if !(-2_000_000_000..=2_000_000_000).contains(&v) {
        return true;
    }
    let o = offset_in(v, span);
    10 * o.above + o.span < 10 * o.below || 11 * o.span + 10 * o.below < 10 * o.above
}

// (v − e) × 1,000,000,000 / (f − e) to the nearest whole, halves upward.
#[tactic(auto, unfolding(crate::specs::Reading::position))]
pub fn position(v: i64, span: Span) -> i64
    requires { Ready span × (too_far v span.least span.greatest ≡ false) }
    ensures { result ≡ position_of v span.least span.greatest }
{
    let o = offset_in(v, span);
    integers::nearest(1_000_000_000 * o.above, 1_000_000_000 * o.below, o.span)
}

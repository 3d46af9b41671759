// The straight line between neighbouring calibration points.
ghost use Rattle.std.specs.Prelude.{◌≡◌, ◌+◌, ◌*◌, ◌^◌, ◌≤◌, pos, ◌-ℤ◌, ◌≤ℤ◌};
ghost use Rattle.integers.specs.Nearest.{◌over◌, nearest};
ghost use Rattle.correction.specs.Before.{point_of};
ghost use Rattle.correction.specs.Line.{between as between_of};
ghost use Rattle.correction.specs.Ranges.{Weights, Between};

use templates::Pair;

// a − b, if a is at least b.
pub fn gap(a: i64, b: i64) -> u64
    requires { b ≤ℤ a }
    ensures { pos result ≡ a -ℤ b }
{
    integers::plus(a) + integers::minus(b) - (integers::minus(a) + integers::plus(b))
}

// s × left + t × past.
pub fn weighed(s: u64, t: u64, past: u64, left: u64) -> u64
    requires { Weights s t past left }
    ensures { (result ≡ s * left + t * past) × (result ≤ 2 ^ 62) }
{
    s * left + t * past
}

// The deviation at p, between the point before it and the next, to the nearest whole,
// halves upward. Each deviation is weighted by the distance of p from the other's point.
pub fn between(p: i64, before: Pair, behind: Pair) -> i64
    requires { Between point_of p before behind }
    ensures { result ≡ nearest ((between_of p 1 before behind).num over (between_of p 1 before behind).run) }
{
    let past = gap(p, before.point);
    let left = gap(behind.point, p);
    let s = before.deviation;
    let t = behind.deviation;
    integers::nearest(
        weighed(integers::plus(s), integers::plus(t), past, left),
        weighed(integers::minus(s), integers::minus(t), past, left),
        past + left,
    )
}

// Document 02, Note 9: the crossing before the first sum,
// after the last, and between neighbouring calibration points.
ghost use Rattle.std.specs.Prelude.{◌≡◌, ◌^◌, ◌≤◌, pos, ◌+ℤ◌, unsigned_abs};
ghost use Rattle.correction.specs.Crossing.{sum as sum_of, crossing_held, crossing_between};
ghost use Rattle.correction.specs.Ranges.{Figures, Between};

use crate::line::gap;
use templates::Pair;

// A point plus its deviation.
pub fn sum(pair: Pair) -> i64
    requires { Figures pair }
    ensures { result ≡ sum_of pair }
{
    pair.point + pair.deviation
}

// The least whole number that meets p if a point's deviation holds there.
pub fn crossing_held(p: i64, pair: Pair) -> i64
    requires { Figures pair × (unsigned_abs p ≤ 2 ^ 62) }
    ensures { result ≡ crossing_held p pair }
{
    p - pair.deviation
}

// The position this many steps after a point.
fn onward(point: i64, steps: u64) -> i64
    requires { (unsigned_abs point ≤ 2 ^ 30) × (steps ≤ 2 ^ 30) }
    ensures { result ≡ point +ℤ pos steps }
{
    point + steps as i64
}

// The least whole number that meets p between neighbours. From the left point on: the height
// of p above its sum, times the run of the points, over the climb of the sums, rounded up.
pub fn crossing_between(p: i64, before: Pair, behind: Pair) -> i64
    requires { Between sum_of p before behind }
    ensures { result ≡ crossing_between p before behind }
{
    let low = sum(before);
    let above = gap(p, low);
    let climb = gap(sum(behind), low);
    let run = gap(behind.point, before.point);
    onward(before.point, integers::ceiling(above * run, climb))
}

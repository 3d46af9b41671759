// The correction of a lent list of points and deviations
// by turns at a whole position: exact, as a fraction.
ghost use Rattle.std.specs.Prelude.{◌≡◌, ◌/◌, ◌^◌, ◌≤◌, ◌<◌, nat_abs, length};
ghost use Rattle.build.specs.Build.{pairs_lent};
ghost use Rattle.build.specs.Tested.{pair_at};
ghost use Rattle.correction.specs.Before.{point_of, Before};
ghost use Rattle.correction.specs.Line.{at_end, between as between_of, correction};
ghost use Rattle.correction.specs.Ranges.{Table, Between};
ghost use Rattle.conformity.specs.Steps.{Exact};

use templates::Pair;

// (above − below) / run.
#[derive(Clone, Copy)]
pub struct Corrected {
    pub above: u64,
    pub below: u64,
    pub run: u64,
}

// Pair i of the list.
fn pair_at(points: &[i64], i: usize) -> Pair
    requires { i < length points.now / 2 }
    ensures { result ≡ pair_at points.now i }
{
    let at = 2 * i;
    Pair {
        point: points[at],
        deviation: points[at + 1],
    }
}

// The correction where a pair's deviation holds.
fn held(pair: Pair) -> Corrected
    requires { nat_abs pair.deviation ≤ 2 ^ 32 }
    ensures { Exact result (at_end 1 pair) }
{
    let deviation = pair.deviation;
    Corrected {
        above: integers::plus(deviation),
        below: integers::minus(deviation),
        run: 1,
    }
}

// The correction between neighbours: each deviation
// weighted by the distance of p from the other's point.
fn between(p: i64, before: Pair, behind: Pair) -> Corrected
    requires { Between point_of p before behind }
    ensures { Exact result (between_of p 1 before behind) }
{
    let past = correction::gap(p, before.point);
    let left = correction::gap(behind.point, p);
    let s = before.deviation;
    let t = behind.deviation;
    Corrected {
        above: correction::weighed(integers::plus(s), integers::plus(t), past, left),
        below: correction::weighed(integers::minus(s), integers::minus(t), past, left),
        run: past + left,
    }
}

// The correction at p, which has n points before it.
pub fn correction_at(points: &[i64], n: usize, p: i64) -> Corrected
    requires { Table (pairs_lent points.now) × Before point_of (pairs_lent points.now) p n }
    ensures { Exact result (correction p 1 (pairs_lent points.now)) }
{
    let count = points.len() / 2;
    if count == 0 {
        return Corrected {
            above: 0,
            below: 0,
            run: 1,
        };
    }
    if n == 0 {
        return held(pair_at(points, 0));
    }
    let before = pair_at(points, n - 1);
    if n == count {
        return held(before);
    }
    between(p, before, pair_at(points, n))
}

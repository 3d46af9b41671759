// The greatest difference between the corrections of
// two lists of points, at the points of one of them.
ghost use Rattle.std.specs.Prelude.{◌≡◌, ℕ, max, ◌+◌, ◌*◌, ◌/◌, ◌^◌, ◌≤◌, ◌<◌, nat_abs, length, ◌<ℤ◌};
ghost use Rattle.build.specs.Build.{pairs_lent};
ghost use Rattle.build.specs.Tested.{pair_at};
ghost use Rattle.integers.specs.Ceiling.{ceiling};
ghost use Rattle.correction.specs.Before.{point_of, Before};
ghost use Rattle.correction.specs.Line.{Correction};
ghost use Rattle.correction.specs.Ranges.{Table};
ghost use Rattle.conformity.specs.Conformity.{difference_at, greatest_over};
ghost use Rattle.conformity.specs.Steps.{Sized, Exact, upward_difference};

use crate::corrections::{Corrected, correction_at};

// 2000 × num / run, rounded up. The whole part and the
// rest are computed separately, so that nothing overflows.
fn upward(num: u64, run: u64) -> u64
    requires { (0 < run) × (run ≤ 2 ^ 30) × (num ≤ 2 ^ 33 * run) }
    ensures { (result ≡ ceiling (2000 * num) run) × (result ≤ 2 ^ 45) }
{
    let whole = num / run;
    let rest = num % run;
    2000 * whole + integers::ceiling(2000 * rest, run)
}

// 2000 × the difference of a deviation and a correction, rounded up.
fn difference(s: i64, c: Corrected) -> u64
    requires { (nat_abs s ≤ 2 ^ 32) × Sized c }
    ensures { ((e : Correction) → Exact c e → result ≡ upward_difference s e) × (result ≤ 2 ^ 45) }
{
    let run = c.run;
    let above = integers::plus(s) * run + c.below;
    let below = integers::minus(s) * run + c.above;
    upward(above.abs_diff(below), run)
}

// The number of points before p, if those before `from` are.
fn passed(points: &[i64], from: usize, p: i64) -> usize
    requires { (from ≤ length points.now / 2) × ((k : ℕ) → k + 1 ≡ from → (pair_at points.now k).point <ℤ p) }
    ensures { Before point_of (pairs_lent points.now) p result }
{
    let count = points.len() / 2;
    for n in from..count {
        if p <= points[2 * n] {
            return n;
        }
    }
    count
}

// The greatest difference at the points of `own`. Both lists
// rise, so that the search continues from the last position.
pub fn greatest(own: &[i64], other: &[i64]) -> u64
    requires { Table (pairs_lent own.now) × Table (pairs_lent other.now) }
    ensures { (result ≡ greatest_over (difference_at (pairs_lent own.now) (pairs_lent other.now)) (pairs_lent own.now)) × (result ≤ 2 ^ 45) }
{
    let count = own.len() / 2;
    let mut most: u64 = 0;
    let mut before: usize = 0;
    for i in 0..count {
        let p = own[2 * i];
        before = passed(other, before, p);
        most = most.max(difference(own[2 * i + 1], correction_at(other, before, p)));
    }
    most
}

// The steepest slope between neighbouring points, and the distance that follows from it.
ghost use Rattle.std.specs.Prelude.{◌≡◌, max, ◌+◌, ◌*◌, ◌/◌, ◌^◌, ◌≤◌, ◌<◌, nat_abs, ◌-ℤ◌, length};
ghost use Rattle.integers.specs.Ceiling.{ceiling};
ghost use Rattle.build.specs.Build.{pairs_lent};
ghost use Rattle.build.specs.Tested.{pair_at};
ghost use Rattle.correction.specs.Certificate.{Neighbours};
ghost use Rattle.distance.specs.Distance.{least_slope, steepest as steepest_of, by_slope, distance as distance_of};
ghost use Rattle.distance.specs.Steps.{Step};

use crate::CertificateBound;
use refusal::Refusal;
use templates::{D, Domain, R};

// The least whole K with 1000 × a rise or fall at most K × its run.
fn slope(rise: u64, run: u64) -> u64
    requires { (rise ≤ 2 ^ 32) × (0 < run) × (run ≤ 2 ^ 32) }
    ensures { (result ≡ ceiling (1000 * rise) run) × (result ≤ 2 ^ 43) }
{
    integers::ceiling(1000 * rise, run)
}

// The least whole K with 1000 × the rise or fall from point i to the next at most K × their run.
fn slope_at(points: &[i64], i: usize) -> u64
    requires { (i + 1 < length points.now / 2) × Step (pair_at points.now i) (pair_at points.now (i + 1)) }
    ensures { (result ≡ least_slope (pair_at points.now i) (pair_at points.now (i + 1))) × (result ≤ 2 ^ 43) }
{
    let at = 2 * i;
    let next = 2 * (i + 1);
    let rise = points[next + 1].abs_diff(points[at + 1]);
    let run = points[next].abs_diff(points[at]);
    slope(rise, run)
}

// The greatest slope over all neighbours.
fn steepest(points: &[i64]) -> u64
    requires { Neighbours Step (pairs_lent points.now) }
    ensures { (result ≡ steepest_of (pairs_lent points.now)) × (result ≤ 2 ^ 43) }
{
    let n = points.len() / 2;
    let mut k: u64 = 0;
    for i in 0..n.saturating_sub(1) {
        k = k.max(slope_at(points, i));
    }
    k
}

// The bound that follows from a slope.
fn by_slope(k: u64) -> CertificateBound
    requires { k ≤ 2 ^ 43 }
    ensures { result ≡ by_slope k }
{
    CertificateBound {
        slope: k,
        bound: 2000 + 1000 * R + k * (D + 1),
    }
}

// The distance that readings of a sheet with these points in domain 0 keep
// from the certificate line. Else 16 for a list that is odd or over 254
// long; then pair by pair 10 for the point, 10 for its deviation, and 7.
pub fn distance(points: &[i64]) -> Result<CertificateBound, Refusal>
    ensures { result ≡ distance_of points.now }
{
    let n = points.len();
    if build::is_wrong_list(n) {
        return Err(Refusal::WrongList(n as u64));
    }
    build::check_points(Domain::Electrical, points)?;
    Ok(by_slope(steepest(points)))
}

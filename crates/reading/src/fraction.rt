// The fraction at a position, from the calibration points of an opened sheet.
ghost use Rattle.std.specs.Prelude.{Some, ◌≡◌, ℕ, ◌≤◌, ◌^◌, nat_abs};
ghost use Rattle.layout.specs.Contents.{Contents};
ghost use Rattle.layout.specs.Image.{points};
ghost use Rattle.sheet.specs.Opened.{Opens, Held};
ghost use Rattle.correction.specs.Before.{Before};
ghost use Rattle.correction.specs.Ranges.{Figures, Between};
ghost use Rattle.reading.specs.Reading.{fraction_by, fraction as fraction_of};
ghost use Rattle.reading.specs.Steps.{figure_in, held_in, between_in};

use sheet::{Opened, pair_in};
use templates::{Domain, Pair};

// The figure of a pair that a position is compared
// with: its point in domain 0, its sum in domain 1.
fn figure_in(domain: Domain, pair: Pair) -> i64
    requires { Figures pair }
    ensures { result ≡ figure_in domain pair }
{
    match domain {
        Domain::Electrical => pair.point,
        Domain::Physical => correction::sum(pair),
    }
}

// The number of pairs before p. They rise, so a binary search finds it.
fn pairs_before(sheet: Opened, image: &[u8], domain: Domain, p: i64) -> u64
    requires { Held sheet image.now }
    ensures { (result ≤ sheet.summary.points) × ((kind : ℕ) (c : Contents) → Opens kind image.now sheet c → Before (figure_in domain) (points c) p result) }
{
    let mut low = 0;
    let mut high = sheet.summary.points;
    while low < high {
        let middle = low + (high - low) / 2;
        let figure = figure_in(domain, pair_in(sheet, image, middle));
        if p <= figure {
            high = middle;
        } else {
            low = middle + 1;
        }
    }
    low
}

// The fraction where a pair's deviation holds.
fn held_in(domain: Domain, p: i64, pair: Pair) -> i64
    requires { Figures pair × (nat_abs p ≤ 2 ^ 31) }
    ensures { result ≡ held_in domain p pair }
{
    match domain {
        Domain::Electrical => p + pair.deviation,
        Domain::Physical => correction::crossing_held(p, pair),
    }
}

// The fraction between neighbours.
fn between_in(domain: Domain, p: i64, before: Pair, behind: Pair) -> i64
    requires { Between (figure_in domain) p before behind × (nat_abs p ≤ 2 ^ 31) }
    ensures { result ≡ between_in domain p before behind }
{
    match domain {
        Domain::Electrical => p + correction::between(p, before, behind),
        Domain::Physical => correction::crossing_between(p, before, behind),
    }
}

// The fraction by the points of a table: p plus the deviation there in domain 0, the
// crossing in domain 1. The end deviation holds before the first and after the last point.
fn fraction_in(sheet: Opened, image: &[u8], domain: Domain, p: i64) -> i64
    requires { Held sheet image.now × (sheet.summary.domain ≡ Some domain) × (nat_abs p ≤ 2 ^ 31) }
    ensures { (kind : ℕ) (c : Contents) → Opens kind image.now sheet c → result ≡ fraction_by domain (points c) p }
{
    let count = sheet.summary.points;
    if count == 0 {
        return p;
    }
    let next = pairs_before(sheet, image, domain, p);
    if next == 0 {
        return held_in(domain, p, pair_in(sheet, image, 0));
    }
    let before = pair_in(sheet, image, next - 1);
    if next == count {
        return held_in(domain, p, before);
    }
    between_in(domain, p, before, pair_in(sheet, image, next))
}

// The fraction at p: by the points of a table, or p itself without a table.
pub fn fraction(sheet: Opened, image: &[u8], p: i64) -> i64
    requires { Held sheet image.now × (nat_abs p ≤ 2 ^ 31) }
    ensures { (kind : ℕ) (c : Contents) → Opens kind image.now sheet c → result ≡ fraction_of c.calibration p }
{
    match sheet.summary.domain {
        None => p,
        Some(domain) => fraction_in(sheet, image, domain, p),
    }
}

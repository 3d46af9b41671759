// The seven highest digits of a number.
ghost use Rattle.std.specs.Prelude.{◌≡◌, ◌-◌, ◌*◌, ◌%◌, ◌^◌, ◌≤◌, ◌<◌, length, take};
ghost use Rattle.listing.specs.Digits.{Digits, number, Highest};
ghost use Rattle.listing.specs.Rounding.{upward, Rounds, exact};

use crate::digits::{any_below, raise, scale, wide};

// The number n × 10^up.
#[derive(Clone, Copy)]
pub struct Rounded {
    pub n: u64,
    pub up: u64,
}

// The number of the seven highest digits, without zeros above them,
// and the number of digits below; 0 if there are at most seven.
fn highest(digits: &[u8]) -> Rounded
    requires { Digits digits.now }
    ensures { Highest digits.now result.n result.up }
{
    let mut n = 0;
    let mut at = digits.len();
    while 0 < at {
        if 1_000_000 <= n {
            return Rounded { n, up: at as u64 };
        }
        at -= 1;
        n = n * 10 + wide(digits[at]);
    }
    Rounded { n, up: 0 }
}

// Whether n, the number of the digits above an index, rounds up for those below.
fn is_upward(digits: &[u8], up: usize, n: u64) -> bool
    requires { Digits digits.now × (up ≤ length digits.now) }
    ensures { result ≡ upward (number (take up digits.now)) (10 ^ up) n }
{
    if up < 1 {
        return false;
    }
    let below = digits[up - 1];
    if below != 5 {
        return 5 < below;
    }
    if any_below(digits, up - 1) {
        return true;
    }
    n % 2 == 1
}

// The digits' number to the nearest of seven digits, a tie to the even one.
fn round(digits: &[u8]) -> Rounded
    requires { Digits digits.now }
    ensures { Rounds (number digits.now) result.n result.up × (result.n ≤ 10_000_000) × (result.up ≤ length digits.now) }
{
    let x = highest(digits);
    if is_upward(digits, x.up as usize, x.n) {
        return Rounded {
            n: x.n + 1,
            up: x.up,
        };
    }
    x
}

// a − b, or 0.
pub fn less(a: u64, b: u64) -> u64
    ensures { result ≡ a - b }
{
    if a < b {
        return 0;
    }
    a - b
}

// m × 2^p / 2^149 to the nearest of seven digits, a tie to the even one; the decimal point is 149 −
// p places up if p is less. The digits are computed in the slice: 144 are enough for every Single.
pub fn decimal_of(digits: &mut [u8], m: u64, p: u64) -> Rounded
    requires { (length digits.old ≡ 144) × (m < 16_777_216) × (p < 256) }
    ensures { Rounds (exact m p) result.n result.up × (result.n ≤ 10_000_000) × (result.up ≤ 144) }
{
    scale(digits, 0, m);
    raise(digits, 2, less(p, 149));
    raise(digits, 5, less(149, p));
    round(digits)
}

// An equal number without zeros at the end of n.
pub fn shortest(x: Rounded) -> Rounded
    requires { (x.n ≤ 10_000_000) × (x.up ≤ 1000) }
    ensures { (result.n * 10 ^ result.up ≡ x.n * 10 ^ x.up) × (result.n % 10 ≡ 0 → result.n ≡ 0)
        × (result.n ≤ 10_000_000) × (result.up ≤ 20_000_000) }
{
    let mut n = x.n;
    let mut up = x.up;
    while n % 10 == 0 {
        if n == 0 {
            return Rounded { n, up };
        }
        n /= 10;
        up += 1;
    }
    Rounded { n, up }
}

// Decimal digits in a lent slice, the least first.
ghost use Rattle.std.specs.Prelude.{◌≡◌, ◌+◌, ◌*◌, ◌^◌, ◌≤◌, ◌<◌, ltb, length, take};
ghost use Rattle.listing.specs.Digits.{Digits, number, Becomes};

// A digit in 64 bits.
pub fn wide(x: u8) -> u64
    ensures { (result ≡ x) × (result < 256) }
{
    x as u64
}

// Replaces the digits by those of `by` times their
// number, plus `more`: as many as the slice has room for.
pub fn scale(digits: &mut [u8], by: u64, more: u64)
    requires { (by ≤ 5) × (more < 16_777_216) }
    ensures { Becomes digits.old digits.new (number digits.old * by + more) }
{
    let mut carry = more;
    let mut at = 0;
    while at < digits.len() {
        let sum = wide(digits[at]) * by + carry;
        digits[at] = (sum % 10) as u8;
        carry = sum / 10;
        at += 1;
    }
}

// Multiplies the number of the digits by `by`, `times` times.
pub fn raise(digits: &mut [u8], by: u64, times: u64)
    requires { Digits digits.old × (by ≤ 5) }
    ensures { Becomes digits.old digits.new (number digits.old * by ^ times) }
{
    let mut left = times;
    while 0 < left {
        scale(digits, by, 0);
        left -= 1;
    }
}

// Whether any digit below an index is not 0.
pub fn any_below(digits: &[u8], end: usize) -> bool
    requires { end ≤ length digits.now }
    ensures { result ≡ ltb 0 (number (take end digits.now)) }
{
    let mut at = 0;
    while at < end {
        if digits[at] != 0 {
            return true;
        }
        at += 1;
    }
    false
}

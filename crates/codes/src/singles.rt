// Document 02, Note 8: a Single in V/V, from its own bits, to the nearest nV/V.
ghost use Rattle.std.specs.Prelude.{◌≡◌, cond, ◌%◌, ◌^◌, ◌≤◌};
ghost use Rattle.std.specs.Prelude.{None, Some};
ghost use Rattle.std.specs.Float.{binary32};
ghost use Rattle.std.specs.Float.Ieee.{of_bits};
ghost use Rattle.codes.specs.Singles.{outside_two, nanovolts as nanovolts_of};

use integers::nearest;

// The nearest nV/V of the bits of a Single from −2 to 2 V/V. Below 2^−31 V/V, 0x3000_0000,
// every value is less than half a nV/V, zeros and subnormals too. From there on a Single
// is its 24 digits over at most 2^54, and the digits times 10^9 are below 2^54.
fn from_bits(bits: u32) -> i64
    requires { bits % 2 ^ 31 ≤ 2 ^ 30 }
    ensures { result ≡ nanovolts_of (of_bits binary32 bits) }
{
    let size = (bits % 0x8000_0000) as u64;
    if size < 0x3000_0000 {
        return 0;
    }
    let num = (size % 0x80_0000 + 0x80_0000) * 1_000_000_000;
    let den = 1u64 << (150 - size / 0x80_0000);
    if bits < 0x8000_0000 {
        return nearest(num, 0, den);
    }
    nearest(0, num, den)
}

// A Single from −2 to 2 V/V as the nearest nV/V, halves upward, also below
// 0. Both ends are inside; infinities and NaN are outside. Without the
// sign bit, patterns are ordered as their values, and 2 is 0x4000_0000.
pub fn nanovolts(x: f32) -> Option<i64>
    ensures { result ≡ cond (outside_two x) None (Some (nanovolts_of x)) }
{
    if x != x {
        return None;
    }
    let bits = f32::to_bits(x);
    if 0x4000_0000 < bits % 0x8000_0000 {
        return None;
    }
    Some(from_bits(bits))
}

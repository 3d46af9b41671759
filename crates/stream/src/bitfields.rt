// Reads and writes fields of 1 to 49 bits at any bit of the stream, directly in the image.
ghost use Rattle.std.specs.Prelude.{◌≡◌, ◌+◌, ◌-◌, ◌*◌, ◌/◌, ◌%◌, ◌^◌, ◌≤◌, ◌<◌, length};
ghost use Rattle.memory.specs.Bits.{number, bytes_of, field_at, put_at};
ghost use Rattle.memory.specs.Image.{stream_number};
ghost use Rattle.memory.specs.Laid.{put_in};
ghost use Rattle.stream.specs.Answers.{InStream};

use memory::Sizes;

// The 8 bytes of the image from byte `from` on, as one number.
fn eight(image: &[u8], from: usize) -> u64
    requires { from + 8 ≤ length image.now }
    ensures { result ≡ field_at (number image.now) (8 * from) 64 }
{
    u64::from(image[from])
        | (u64::from(image[from + 1]) << 8)
        | (u64::from(image[from + 2]) << 16)
        | (u64::from(image[from + 3]) << 24)
        | (u64::from(image[from + 4]) << 32)
        | (u64::from(image[from + 5]) << 40)
        | (u64::from(image[from + 6]) << 48)
        | (u64::from(image[from + 7]) << 56)
}

// The 8 bytes of the image from byte `from` on, as one number, with zeros
// after the image's end: if fewer than 8 bytes are left, the last 8 shifted.
fn window(image: &[u8], from: usize) -> u64
    requires { (8 ≤ length image.now) × (from < length image.now) }
    ensures { result ≡ field_at (number image.now) (8 * from) 64 }
{
    let last = image.len() - 8;
    if from <= last {
        return eight(image, from);
    }
    eight(image, last) >> (8 * (from - last))
}

// The number of check bytes before byte `i` of the stream:
// a division by 31, as a product with (2^35 - 1) / 31.
fn checks_before(sizes: Sizes, i: usize) -> usize
    requires { (sizes.register ≤ 8) × (i < 2 ^ 32 - 32) }
    ensures { (i < sizes.register + 31 * result) × (sizes.register + 31 * result ≤ i + 31) }
{
    ((i + 32 - sizes.register) * 0x4210_8421) >> 35
}

// A number with the 8 bits after its first `bits` removed.
fn over_check(word: u64, bits: usize) -> u64
    requires { bits < 64 }
    ensures { result ≡ word / 2 ^ (8 + bits) * 2 ^ bits + word % 2 ^ bits }
{
    let near = (1u64 << bits) - 1;
    (word & near) | ((word >> 8) & !near)
}

// The code of the field of `width` bits at bit `at` of the stream.
pub fn take(sizes: Sizes, image: &[u8], at: usize, width: usize) -> u64
    requires { InStream sizes image.now at width }
    ensures { result ≡ field_at (stream_number sizes image.now) at width }
{
    let i = at / 8;
    let checks = checks_before(sizes, i);
    let from = i + checks;
    let word = window(image, from) >> (at % 8);
    // The stream bit right after the next check byte.
    let edge = 8 * sizes.register + 248 * checks;
    let mask = (1u64 << width) - 1;
    if at + width <= edge {
        return word & mask;
    }
    over_check(word, edge - at) & mask
}

// The lowest byte of a number.
fn byte(word: u64) -> u8
    ensures { result ≡ word % 256 }
{
    (word & 0xff) as u8
}

// Writes a number into the 8 bytes of the image from byte `from` on.
fn lay_eight(image: &mut [u8], from: usize, word: u64)
    requires { from + 8 ≤ length image.old }
    ensures { image.new ≡ bytes_of (length image.old) (put_at (number image.old) (8 * from) 64 word) }
{
    image[from] = byte(word);
    image[from + 1] = byte(word >> 8);
    image[from + 2] = byte(word >> 16);
    image[from + 3] = byte(word >> 24);
    image[from + 4] = byte(word >> 32);
    image[from + 5] = byte(word >> 40);
    image[from + 6] = byte(word >> 48);
    image[from + 7] = byte(word >> 56);
}

// A number with a check byte inserted after its first `bits` bits.
fn with_check(word: u64, bits: usize, check: u64) -> u64
    requires { (word < 2 ^ 56) × (bits ≤ 56) × (check < 2 ^ 8) }
    ensures { result ≡ word / 2 ^ bits * 2 ^ (8 + bits) + (check * 2 ^ bits + word % 2 ^ bits) }
{
    let near = (1u64 << bits) - 1;
    (word & near) | (check << bits) | ((word & !near) << 8)
}

// A number with its field of `width` bits at bit `low` replaced by a code.
fn replaced(word: u64, low: usize, width: usize, code: u64) -> u64
    requires { (low < 64) × (width < 64) × (width + low ≤ 64) × (code < 2 ^ width) }
    ensures { result ≡ put_at word low width code }
{
    let mask = ((1u64 << width) - 1) << low;
    (word & !mask) | (code << low)
}

// Writes a code into the field of `width` bits at bit
// `bit` of the image, in the 8 bytes from byte `from` on.
fn put_eight(image: &mut [u8], from: usize, bit: usize, width: usize, code: u64)
    requires from_in_bounds { (from + 8 ≤ length image.old) × (length image.old < 2 ^ 32) × (8 * from ≤ bit) × (bit + width ≤ 8 * from + 64) }
    requires le_width { (1 ≤ width) × (width ≤ 49) × (code < 2 ^ width) }
    ensures { image.new ≡ bytes_of (length image.old) (put_at (number image.old) bit width code) }
{
    let word = eight(image, from);
    lay_eight(image, from, replaced(word, bit - 8 * from, width, code));
}

// Writes a code into the field of `width` bits at bit `bit` of the
// image, in 8 bytes that contain it: the last 8 if fewer are left.
fn put_bits(image: &mut [u8], bit: usize, width: usize, code: u64)
    requires in_bounds { (8 ≤ length image.old) × (length image.old < 2 ^ 32) × (bit + width ≤ 8 * length image.old) }
    requires le_width { (1 ≤ width) × (width ≤ 49) × (code < 2 ^ width) }
    ensures { image.new ≡ bytes_of (length image.old) (put_at (number image.old) bit width code) }
{
    let from = (bit / 8).min(image.len() - 8);
    put_eight(image, from, bit, width, code);
}

// Writes a code into the field of `width` bits at bit `at` of the
// stream. All other bits keep their state, and so does every check byte.
pub fn put(sizes: Sizes, image: &mut [u8], at: usize, width: usize, code: u64)
    requires { InStream sizes image.old at width × (code < 2 ^ width) }
    ensures { image.new ≡ put_in sizes image.old at width code }
{
    let checks = checks_before(sizes, at / 8);
    let edge = 8 * sizes.register + 248 * checks;
    if at + width <= edge {
        put_bits(image, at + 8 * checks, width, code);
        return;
    }
    // The bits before the check byte; the rest goes after it.
    let near = edge - at;
    put_bits(image, at + 8 * checks, near, code & ((1u64 << near) - 1));
    put_bits(image, edge + 8 * checks + 8, width - near, code >> near);
}

// Writes a code into the field of `width` bits at bit `at` of the stream.
// Requires that every stream bit from `at` on is 0, and is faster for it.
#[inline(always)]
pub fn append(sizes: Sizes, image: &mut [u8], at: usize, width: usize, code: u64)
    requires in_stream { InStream sizes image.old at width × (code < 2 ^ width) }
    requires image_bound { stream_number sizes image.old < 2 ^ at }
    ensures { image.new ≡ put_in sizes image.old at width code }
{
    let i = at / 8;
    let checks = checks_before(sizes, i);
    let from = i + checks;
    let word = u64::from(image[from]) | (code << (at % 8));
    // The stream byte right after the next check byte.
    let edge = sizes.register + 31 * checks;
    if i + 8 <= edge {
        lay_eight(image, from, word);
        return;
    }
    if from + 8 <= image.len() {
        let check = u64::from(image[edge + checks]);
        lay_eight(image, from, with_check(word, 8 * (edge - i), check));
        return;
    }
    put(sizes, image, at, width, code);
}

// A Single in decimal, right to the last digit: up to
// seven digits, the nearest, a tie to the even one.
ghost use Rattle.std.specs.Prelude.{◌%◌, ◌≤◌, ◌<◌};
ghost use Rattle.listing.specs.Singles.{Shapes, Scales};

use crate::output::{put, put_from, put_number, put_zeros};
use crate::rounding::{decimal_of, less, shortest};
use std::io::Write;

// Prints the first digit, and the others after a point.
fn print_first_and_rest(out: &mut impl Write, text: &[u8]) {
    put(out, console_words::front(text, 1));
    if 1 < text.len() {
        put(out, b".");
        put_from(out, text, 1);
    }
}

// The position of the decimal point.
#[derive(Clone, Copy)]
enum Shape {
    // After the first digit, times a power of ten; and divided by one.
    Raised(u64),
    Lowered(u64),
    // After this many zeros that follow the digits.
    Whole(u64),
    // After this many of the digits.
    Split(u64),
    // Before this many zeros that precede the digits.
    Behind(u64),
}

// The shape of `count` digits with `up` zeros after them, and the decimal point `point` places
// up. It is plain with up to ten digits before the point, or up to four zeros after it.
fn shape_of(count: u64, up: u64, point: u64) -> Shape
    requires { (count < 9_223_372_036_854_775_808) × (up ≤ 20_000_000) × (point < 1000) }
    ensures { Shapes count up point result }
{
    let top = up + count;
    if point < top {
        let whole = top - point;
        if 10 < whole {
            return Shape::Raised(whole - 1);
        }
        if count <= whole {
            return Shape::Whole(whole - count);
        }
        return Shape::Split(whole);
    }
    let noughts = point - top;
    if 4 < noughts {
        return Shape::Lowered(noughts + 1);
    }
    Shape::Behind(noughts)
}

fn print_digits(out: &mut impl Write, text: &[u8], up: u64, point: u64)
    requires { (up ≤ 20_000_000) × (point < 1000) }
{
    match shape_of(text.len() as u64, up, point) {
        Shape::Raised(power) => {
            print_first_and_rest(out, text);
            put(out, b"e");
            put_number(out, power);
        }
        Shape::Lowered(power) => {
            print_first_and_rest(out, text);
            put(out, b"e-");
            put_number(out, power);
        }
        Shape::Whole(noughts) => {
            put(out, text);
            put_zeros(out, noughts);
        }
        Shape::Split(whole) => {
            put(out, console_words::front(text, whole as usize));
            put(out, b".");
            put_from(out, text, whole as usize);
        }
        Shape::Behind(noughts) => {
            put(out, b"0.");
            put_zeros(out, noughts);
            put(out, text);
        }
    }
}

// Prints the digits of n × 10^up, with the decimal point this many places up.
fn print_number(out: &mut impl Write, n: u64, up: u64, point: u64)
    requires { (up ≤ 20_000_000) × (point < 1000) }
{
    let mut text = [0u8; 20];
    let count = io::decimal(n, &mut text);
    print_digits(out, &text[..count], up, point);
}

// Prints m × 2^p / 2^149.
fn print_scaled(out: &mut impl Write, m: u64, p: u64)
    requires { (m < 16_777_216) × (p < 256) }
{
    if m == 0 {
        put(out, b"0");
        return;
    }
    let mut digits = [0u8; 144];
    let x = shortest(decimal_of(&mut digits, m, p));
    print_number(out, x.n, x.up, less(149, p));
}

// A finite Single: its sign, and m × 2^p / 2^149.
#[derive(Clone, Copy)]
struct Scaled {
    negative: bool,
    m: u64,
    p: u64,
}

// A Single by the fields of its bits: the sign, the exponent and the fraction.
fn scaled_of(bits: u32) -> Scaled
    requires { bits % 2_147_483_648 < 2_139_095_040 }
    ensures { Scales bits result }
{
    let negative = 0x8000_0000 <= bits;
    let exponent = (bits % 0x8000_0000 / 0x80_0000) as u64;
    let fraction = (bits % 0x80_0000) as u64;
    if exponent == 0 {
        return Scaled {
            negative,
            m: fraction,
            p: 0,
        };
    }
    Scaled {
        negative,
        m: 8_388_608 + fraction,
        p: exponent - 1,
    }
}

// Prints a Single from its bits.
fn print_bits(out: &mut impl Write, bits: u32) {
    if 0x7f80_0000 <= bits % 0x8000_0000 {
        if 0x8000_0000 <= bits {
            put(out, b"-");
        }
        return put(out, b"infinity");
    }
    let x = scaled_of(bits);
    if x.negative {
        put(out, b"-");
    }
    print_scaled(out, x.m, x.p);
}

// Prints a Single, with up to seven digits; plain from
// 0.00001 to below 10,000,000,000, else with a power of ten.
pub fn print_single(out: &mut impl Write, x: f32) {
    if x != x {
        put(out, b"NaN");
        return;
    }
    print_bits(out, f32::to_bits(x));
}

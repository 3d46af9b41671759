// The one list of codes that a build fills before it writes. Every test comes first; what passes it goes onto the list.
ghost use Rattle.std.specs.Prelude.{◌≡◌, ◌+◌, ◌^◌, ◌/◌, ◌%◌, ◌<◌, length, set};
ghost use Rattle.build.specs.Listed.{Fitting, unpacked, block_head};

use refusal::Refusal;

// A code to be written, with its bits.
#[derive(Clone, Copy)]
pub struct CodedField {
    pub width: u64,
    pub code: u64,
}

// How many codes are on the list, and the bits that they need.
#[derive(Clone, Copy)]
pub struct Listed {
    pub count: usize,
    pub bits: u64,
}

// A code packed in a u64: width in the upper 8 bits, code in the lower.
pub const CODE_BITS: u64 = 56;

// The mask of the code in a packed code.
pub const CODES: u64 = 0xff_ffff_ffff_ffff;

// A packed code of one bit with code 0, in place of one not on the list yet.
pub const NO_CODE: u64 = 1 << CODE_BITS;

// A code and its bits in one number.
pub fn packed(width: u64, code: u64) -> u64
    requires { Fitting width code }
    ensures { (result / 2 ^ 56 ≡ width) × (result % 2 ^ 56 ≡ code) }
{
    (width << CODE_BITS) | code
}

// Puts two codes onto the list, from index `at` on.
pub fn put_pair(codes: &mut [u64], at: usize, first: CodedField, second: CodedField)
    requires at_in_bounds { at + 1 < length codes.old }
    requires fitting { Fitting first.width first.code × Fitting second.width second.code }
    ensures { unpacked codes.new ≡ set (set (unpacked codes.old) at first) (at + 1) second }
{
    codes[at] = packed(first.width, first.code);
    codes[at + 1] = packed(second.width, second.code);
}

// The codes that begin a block of points or of a curve: selector 0, the template's number, the domain, and a count in so many bits.
pub fn put_head(codes: &mut [u64], number: u64, domain: u64, width: u64, count: u64)
    requires in_bounds { 3 < length codes.old }
    requires number_bound { (number < 2 ^ 8) × (domain < 2) × Fitting width count }
    ensures { unpacked codes.new ≡ block_head (unpacked codes.old) number domain width count }
{
    let selector = CodedField {
        width: layout::SELECTOR_BITS as u64,
        code: 0,
    };
    let template = CodedField {
        width: layout::NUMBER_BITS as u64,
        code: number,
    };
    put_pair(codes, 0, selector, template);
    let side = CodedField {
        width: templates::DOMAIN_BITS,
        code: domain,
    };
    put_pair(codes, 2, side, CodedField { width, code: count });
}

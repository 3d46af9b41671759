// The structs that calls return: a number, 0 if the call is accepted, a place,
// and values. A refused call has the values 0, an accepted one the place 0.
ghost use Rattle.std.specs.Prelude.{◌≡◌};
ghost use Rattle.dartelm.specs.Answers.{domain_number};

use crate::values::{DartelmFields, DartelmValue};
use templates::Domain;

// The answer of a check: the bits up to the end (a zero that ends the text counted),
// the numbers of points and of characters, and the end bit. Then the first template's
// number, the domain of the points, and a curve's numbers of segments and terms.
#[repr(C)]
#[derive(Clone, Copy)]
pub struct DartelmCheckAnswer {
    pub number: u8,
    pub place: u64,
    pub bits: u64,
    pub points: u64,
    pub characters: u64,
    pub end_bit: u8,
    pub template: u8,
    pub domain: u8,
    pub segments: u64,
    pub terms: u64,
}

// A field's value.
#[repr(C)]
#[derive(Clone, Copy)]
pub struct DartelmFieldAnswer {
    pub number: u8,
    pub place: u64,
    pub value: DartelmValue,
}

// The answer of a check, and the values of all fields.
#[repr(C)]
#[derive(Clone, Copy)]
pub struct DartelmSheetAnswer {
    pub number: u8,
    pub place: u64,
    pub bits: u64,
    pub points: u64,
    pub characters: u64,
    pub field_count: u64,
    pub fields: DartelmFields,
    pub domain: u8,
    pub segments: u64,
    pub terms: u64,
}

// A calibration point and its deviation, in billionths of the span.
#[repr(C)]
#[derive(Clone, Copy)]
pub struct DartelmPairAnswer {
    pub number: u8,
    pub place: u64,
    pub point: i64,
    pub deviation: i64,
}

// A segment of a curve: its start in billionths of the span, and the number of its terms.
#[repr(C)]
#[derive(Clone, Copy)]
pub struct DartelmSegmentAnswer {
    pub number: u8,
    pub place: u64,
    pub start: i64,
    pub terms: u64,
}

// A term of a curve: the power of the position, and its
// coefficient. Position and correction are in per cent of the span.
#[repr(C)]
#[derive(Clone, Copy)]
pub struct DartelmTermAnswer {
    pub number: u8,
    pub place: u64,
    pub exponent: i64,
    pub coefficient: f32,
}

// A character of the closing text.
#[repr(C)]
#[derive(Clone, Copy)]
pub struct DartelmCharacterAnswer {
    pub number: u8,
    pub place: u64,
    pub character: u8,
}

// The answer of a build, a change, a commit or an index.
#[repr(C)]
#[derive(Clone, Copy)]
pub struct DartelmWriteAnswer {
    pub number: u8,
    pub place: u64,
}

// What a field would become: the present code, the
// code to be stored, and the value that it reads back.
#[repr(C)]
#[derive(Clone, Copy)]
pub struct DartelmProposalAnswer {
    pub number: u8,
    pub place: u64,
    pub present_code: u64,
    pub new_code: u64,
    pub value: DartelmValue,
}

// A reading: the fraction q in billionths of the span, and the physical figure.
#[repr(C)]
#[derive(Clone, Copy)]
pub struct DartelmReadingAnswer {
    pub number: u8,
    pub place: u64,
    pub fraction: i64,
    pub figure: f64,
}

// Two recordings: whether they agree, else the first fast tick that fails.
#[repr(C)]
#[derive(Clone, Copy)]
pub struct DartelmComparedAnswer {
    pub number: u8,
    pub place: u64,
    pub agrees: u8,
    pub tick: u64,
}

// The certificate distance of points: K, and the bound in 2000ths of a billionth of the span.
#[repr(C)]
#[derive(Clone, Copy)]
pub struct DartelmDistanceAnswer {
    pub number: u8,
    pub place: u64,
    pub slope: u64,
    pub bound: u64,
}

// The conformity of an image with points: K and the bound, as in a distance, and
// whether there is a straight table to compare. Without one K and the bound are 0.
#[repr(C)]
#[derive(Clone, Copy)]
pub struct DartelmConformityAnswer {
    pub number: u8,
    pub place: u64,
    pub slope: u64,
    pub bound: u64,
    pub is_straight: u8,
}

// The next row of an image that is written to a chip: whether nothing
// more is to be written, else the row's offset and its bytes.
#[repr(C)]
#[derive(Clone, Copy)]
pub struct DartelmRowAnswer {
    pub number: u8,
    pub place: u64,
    pub is_done: u8,
    pub offset: u64,
    pub bytes: [u8; 8],
}

// The text of a code: its length, and the characters, then zeros.
#[repr(C)]
#[derive(Clone, Copy)]
pub struct DartelmTextAnswer {
    pub number: u8,
    pub place: u64,
    pub length: u64,
    pub characters: [u8; 11],
}

// The code of a text.
#[repr(C)]
#[derive(Clone, Copy)]
pub struct DartelmCodeAnswer {
    pub number: u8,
    pub place: u64,
    pub code: u64,
}

// A page's stream bytes, 31 or none, then zeros. This is never refused.
#[repr(C)]
#[derive(Clone, Copy)]
pub struct DartelmPageAnswer {
    pub count: u64,
    pub bytes: [u8; 31],
}

// The domain of a table, as a number; 255 if there is no table.
pub fn domain_number(domain: Option<Domain>) -> u8
    ensures { result ≡ domain_number domain }
{
    match domain {
        None => 255,
        Some(found) => match found {
            Domain::Electrical => 0,
            Domain::Physical => 1,
        },
    }
}

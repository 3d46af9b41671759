// The places of fields, pairs, a curve and characters in an accepted sheet.
ghost use Rattle.std.specs.Prelude.{◌≡◌, ◌+◌, ◌*◌, ◌≤◌, ◌<◌, ◌^◌};
ghost use Rattle.templates.specs.Lines.{ending};
ghost use Rattle.layout.specs.Places.{field_place, behind_fields, table_start, pair_bits, table_bits, curve_bits};

use templates::{
    COEFFICIENT_BITS, COUNT_BITS, DEVIATION_BITS, DOMAIN_BITS, EXPONENT_BITS, Layout, POINT_BITS,
    SEGMENT_COUNT_BITS, START_BITS, TERM_COUNT_BITS,
};

// A block begins with a selector and a template number.
pub const SELECTOR_BITS: usize = 2;

pub const NUMBER_BITS: usize = 8;

pub const BLOCK_BITS: usize = SELECTOR_BITS + NUMBER_BITS;

// The first block follows Basic, and its template's fields follow the block. The
// precision is the fourth of them, after measurand, least and greatest physical.
pub const FIRST_SELECTOR: usize = 64;

pub const FIRST_NUMBER: usize = FIRST_SELECTOR + SELECTOR_BITS;

pub const OWN_FIELDS: usize = FIRST_SELECTOR + BLOCK_BITS;

pub const PRECISION: usize = OWN_FIELDS + 6 + 32 + 32;

pub const PRECISION_BITS: usize = 2;

// The bits before the first pair of a table, and before the first segment of
// a curve. The bits of a pair, of a segment without its terms, and of a term.
pub const TABLE_START: usize = BLOCK_BITS + DOMAIN_BITS as usize + COUNT_BITS as usize;

pub const PAIR_BITS: usize = POINT_BITS as usize + DEVIATION_BITS as usize;

pub const CURVE_START: usize = BLOCK_BITS + DOMAIN_BITS as usize + SEGMENT_COUNT_BITS as usize;

pub const SEGMENT_HEAD: usize = START_BITS as usize + TERM_COUNT_BITS as usize;

pub const TERM_BITS: usize = EXPONENT_BITS as usize + COEFFICIENT_BITS as usize;

// The end bit, and a character after it.
pub const END_BITS: usize = 1;

pub const CHARACTER_BITS: usize = 7;

// The first bit of a field, counted from 1. The ending begins right after the fields.
pub fn locate(layout: Layout, field: u64) -> usize
    requires { (1 ≤ field) × (field ≤ ending layout.template) }
    ensures { result ≡ field_place layout field }
{
    let before = templates::bits_before(layout, field) as usize;
    if templates::basic_fields() < field {
        return before + BLOCK_BITS;
    }
    before
}

// The first bit after the fields.
pub fn fields_end(layout: Layout) -> usize
    ensures { result ≡ behind_fields layout }
{
    let template = layout.template;
    locate(layout, templates::last_field(template) + 1)
}

// The first bit of a pair, counted from 0, in a table after fields that end at bit `end`.
pub fn locate_pair(end: usize, index: u64) -> usize
    requires { (end < 2 ^ 32) × (index < 2 ^ 32) }
    ensures { result ≡ end + table_start + pair_bits * index }
{
    end + TABLE_START + PAIR_BITS * (index as usize)
}

// The bits of a table of pairs; 0 without a table.
pub fn table_bits(points: u64) -> usize
    requires { points < 2 ^ 32 }
    ensures { result ≡ table_bits points }
{
    if points == 0 {
        return 0;
    }
    TABLE_START + PAIR_BITS * (points as usize)
}

// The bits of a curve of segments and terms; 0 without a curve.
fn curve_bits(segments: u64, terms: u64) -> usize
    requires { (segments < 2 ^ 32) × (terms < 2 ^ 32) }
    ensures { result ≡ curve_bits segments terms }
{
    if segments == 0 {
        return 0;
    }
    CURVE_START + SEGMENT_HEAD * (segments as usize) + TERM_BITS * (terms as usize)
}

// The first bit of a character, counted from 0. `end` is the bit after the
// fields; between are the pairs of a table, or the segments and terms of a curve.
pub fn locate_character(end: usize, points: u64, segments: u64, terms: u64, index: u64) -> usize
    requires { (end < 2 ^ 32) × (points < 2 ^ 32) × (segments < 2 ^ 32) × (terms < 2 ^ 32) × (index < 2 ^ 32) }
    ensures { result ≡ end + table_bits points + curve_bits segments terms + 3 + 7 * index }
{
    let ending = end + table_bits(points) + curve_bits(segments, terms);
    ending + SELECTOR_BITS + END_BITS + CHARACTER_BITS * (index as usize)
}

// Document 01, "Layout", and document 02, Notes 6, 7, 9 and 11: the fields of templates 33 and 32, in the order of the stream, with
// their rows, marks and levels; and the fields and rules of a calibration table (template 40) and of a curve (template 41).
#![tactic(auto)]

mod blocks; // blocks.rt: the figures of templates 40 and 41
mod calibration; // calibration.rt: the calibration table
mod curves; // curves.rt: curves
mod encoding; // encoding.rt: the code of a field's value, by template and field number
mod levels; // levels.rt: who may write a field
mod lines; // lines.rt: the order of the fields
mod rows; // rows.rt: the rows of the table of fields

pub use blocks::{
    COEFFICIENT_BITS, COUNT_BITS, CURVE_TEMPLATE, D, DEVIATION_BITS, DOMAIN_BITS, EXPONENT_BITS,
    EXPONENT_STEP, LEAST_DEVIATION, LEAST_EXPONENT, POINT_BITS, R, SEGMENT_COUNT_BITS, START_BITS,
    START_STEP, TABLE_TEMPLATE, TERM_COUNT_BITS,
};
pub use calibration::{
    cal_deviation, cal_domain, cal_point, domain_code, domain_of, encode_deviation, encode_point,
    follows, pair_of, point_count, sum_above,
};
pub use curves::{
    CurveField, curve_domain, curve_row, encode_coefficient, encode_exponent, encode_start,
    exponent_follows, exponent_of, is_segment_count, is_term_count, obeys, segment_start,
    start_follows, term_coefficient, term_count, term_exponent, too_many,
};
pub use encoding::encode;
pub use levels::may_write;
pub use lines::{
    basic_closed, basic_fields, basic_row, bits_before, bridge_row, is_choice, last_closed,
    last_field, mark_of, resistance_row, row_of, template_number, template_of,
};
pub use rows::{always, any};

// Document 000's marks: ID, CAL, USR. A field belongs to the
// transducer's identity, to its calibration, or to its user.
#[derive(Clone, Copy)]
pub enum Mark {
    Id,
    Cal,
    Usr,
}

// A writer's level, the lowest first.
#[derive(Clone, Copy)]
pub enum Level {
    Owner,
    CalibrationRoom,
    Maker,
}

// The templates that the first block can name.
#[derive(Clone, Copy)]
pub enum Template {
    // Template 33.
    Bridge,
    // Template 32.
    Resistance,
}

// What the rows of a sheet depend on: its template, and the code of the field that sets widths.
#[derive(Clone, Copy)]
pub struct Layout {
    pub template: Template,
    pub precision: u64,
}

// A calibration point and its deviation, in billionths of the span.
#[derive(Clone, Copy)]
pub struct Pair {
    pub point: i64,
    pub deviation: i64,
}

// What the deviations of a table are listed against: the
// electrical figure, domain 0, or the physical one, domain 1.
#[derive(Clone, Copy)]
pub enum Domain {
    Electrical,
    Physical,
}

// The two codes of a pair: a point has 16 bits, a deviation 21.
#[derive(Clone, Copy)]
pub struct Codes {
    pub point: u16,
    pub deviation: u32,
}

// A curve's segment: its start in billionths of the span, and the number of its terms.
#[repr(C)]
#[derive(Clone, Copy)]
pub struct Segment {
    pub start: i64,
    pub terms: u64,
}

// A term of a segment: the power of the argument, and its coefficient.
#[repr(C)]
#[derive(Clone, Copy)]
pub struct Term {
    pub exponent: i64,
    pub coefficient: f32,
}

// A curve: the number of its segments, the segments, and the terms
// of all segments in order. Unused segments and terms are ignored.
#[repr(C)]
#[derive(Clone, Copy)]
pub struct Curve {
    pub count: u64,
    pub segments: [Segment; 20],
    pub terms: [Term; 30],
}

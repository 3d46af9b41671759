// Document 01, "Layout", and document 02, Note 11: the numbers of
// templates 40 and 41, and the bits and steps of their fields.

// The numbers of the calibration table and of the curve.
pub const TABLE_TEMPLATE: u64 = 40;

pub const CURVE_TEMPLATE: u64 = 41;

// The bits of the domain, of the number of points and of the number of segments.
pub const DOMAIN_BITS: u64 = 1;

pub const COUNT_BITS: u64 = 7;

pub const SEGMENT_COUNT_BITS: u64 = 8;

// A point and its deviation, in billionths of the
// span: bits, steps D and R, and the least deviation.
pub const POINT_BITS: u64 = 16;

pub const D: u64 = 15_300;

pub const DEVIATION_BITS: u64 = 21;

pub const R: u64 = 1_000;

pub const LEAST_DEVIATION: i64 = -1_000_000_000;

// A segment: the bits and the step of its start, in billionths
// of the span, and the bits of its number of terms.
pub const START_BITS: u64 = 13;

pub const START_STEP: u64 = 123_000;

pub const TERM_COUNT_BITS: u64 = 7;

// A term: the bits, the step and the least of its
// exponent, in tenths, and the bits of its coefficient.
pub const EXPONENT_BITS: u64 = 7;

pub const EXPONENT_STEP: u64 = 5;

pub const LEAST_EXPONENT: i64 = -320;

pub const COEFFICIENT_BITS: u64 = 32;

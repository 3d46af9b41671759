// Document 01, "Layout": what a code means, whether a field accepts it, and the code that a value is stored at, for any width,
// start and step. No call faults, whatever i64 or f32 it is given. A call that takes a row asks that it is sound (`Sound` in
// specs/Stored.antt), which every row of a template is, and `decode` that the code has no more bits than the row.
#![tactic(auto)]

use refusal::Refusal;

mod decoding; // decoding.rt: what a code means
mod encoding; // encoding.rt: the code that a value is stored at
mod judging; // judging.rt: whether a field can hold a code
mod limits; // limits.rt: the last codes of a field's bits
mod singles; // singles.rt: a Single in V/V to the nearest nV/V
mod steps; // steps.rt: stepped codes
mod tables; // tables.rt: geometric codes

pub use decoding::{decode, decode_unscaled};
pub use encoding::{NO_CODE, direct_code, encode_by, nearest_step, single_bits};
pub use judging::judge;
pub use limits::{all_ones, top_code};
pub use singles::nanovolts;
pub use steps::{step_code, step_value};
pub use tables::{greatest_value, least_value, scale_value, stored_code};

// "A field's value is a whole number, a Single that carries its float,
// or missing." Whole, Single and missing are document 01's terms. A
// Single is an IEEE 754 number of 32 bits; a missing field has all ones.
#[derive(Clone, Copy)]
pub enum Value {
    Whole(i64),
    Single(f32),
    Missing,
}

// The progressions of the geometric fields.
#[derive(Clone, Copy)]
pub enum Scale {
    // Response times, in 10 ns.
    ResponseTime,
    // Excitation currents, in tenths of a nanoampere.
    Current,
}

// What a code means.
#[derive(Clone, Copy)]
pub enum Rule {
    // The code itself, from the least to the greatest.
    Plain(u64, u64),
    // The start and the step.
    Stepped(i64, u64),
    Geometric(Scale),
    // IEEE 754, 32 bits, finite.
    Single,
}

// A row of the table: the field's bits, its rule, and whether all ones is missing.
#[derive(Clone, Copy)]
pub struct Row {
    pub width: u64,
    pub rule: Rule,
    pub missing: bool,
}

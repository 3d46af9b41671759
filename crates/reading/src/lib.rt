// Document 01, "Reading", and document 02, Notes 7 to 11: a reading of a sender's
// image. `take_reading` has no `requires`: it takes any kind, any slice, any i64.
// Nothing is kept between calls, and every number comes from the lent image.
#![tactic(auto)]

mod dashes; // dashes.rt: how many points a dash takes
mod ends; // ends.rt: the electrical ends of the span
mod fraction; // fraction.rt: the fraction at a position
mod position; // position.rt: the position of an input in the span
mod physical_fraction; // physical_fraction.rt: the fraction of the span that gives the physical figure
mod span; // span.rt: the ends of the span
mod taking; // taking.rt: a reading in the order of its refusals

use refusal::Refusal;
pub use taking::{reading_in, take_reading};

// Dash is document 01's term: the display that a reading is taken for.
// The large one takes every table, the small one at most 32 points.
#[derive(Clone, Copy)]
pub enum Dash {
    Large,
    Small,
}

// "A reading holds q and that float together": the fraction
// q in billionths of the span, and the physical figure.
#[derive(Clone, Copy)]
pub struct Reading {
    pub fraction: i64,
    pub figure: f64,
}

// Document 01, "Layout" and "Turning down", and document 02, Notes 7 and 11:
// check an image, and read a field, a pair, a character, a segment or a term.
// No call of a dash has a `requires`: it takes any kind, any slice, any number.
#![tactic(auto)]

mod block; // block.rt: the block after the fields
mod calls; // calls.rt: the calls of a dash
mod curve_block; // curve_block.rt: the curve
mod ending; // ending.rt: the end bit and the text
mod held; // held.rt: the values of an opened sheet
mod opening; // opening.rt: the whole check, once
mod segments; // segments.rt: the segments and terms of a curve
mod table; // table.rt: the calibration table
mod walk; // walk.rt: fields and blocks

pub use calls::{check, read_character, read_field, read_pair, read_segment, read_term};
use codes::Value;
pub use held::{character_in, pair_in, unscaled_in, value_in};
pub use opening::{Opened, open};
use refusal::Refusal;
pub use segments::{curve_in, segment_at, segment_end, segment_in, term_at, term_in};
use templates::{Domain, Template};
pub use templates::{Pair, Segment, Term};

// What an accepted check returns: the bits up to the end ("a zero that ends the
// text counted"), and the numbers of points and characters with the end bit. Then
// the first block's template, the domain, and the numbers of segments and terms.
#[derive(Clone, Copy)]
pub struct Summary {
    pub bits: u64,
    pub points: u64,
    pub end_bit: bool,
    pub characters: u64,
    pub template: Template,
    pub domain: Option<Domain>,
    pub segments: u64,
    pub terms: u64,
}

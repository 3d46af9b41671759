// Document 01, "Layout" and "Turning down": what a sender's stream may hold, and where.
// The format is in specs/; the code has its figures and the places that follow from them.
#![tactic(auto)]

mod locating; // locating.rt: the places of fields, pairs, segments and characters

pub use locating::{
    BLOCK_BITS, CHARACTER_BITS, CURVE_START, END_BITS, FIRST_NUMBER, FIRST_SELECTOR, NUMBER_BITS,
    OWN_FIELDS, PAIR_BITS, PRECISION, PRECISION_BITS, SEGMENT_HEAD, SELECTOR_BITS, TABLE_START,
    TERM_BITS, fields_end, locate, locate_character, locate_pair, table_bits,
};

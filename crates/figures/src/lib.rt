// Document 01, "Reading": the physical figure, its code and its laws.
#![tactic(auto)]

mod figure; // figure.rt: the physical figure

pub use figure::{float_fraction, physical_figure};

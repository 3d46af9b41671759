// A sender's sheet printed to a writer, for a person. No contract says what is written; what is printed of a value is
// a function of its own, with an equation. A Single's decimal digits are computed in full in a lent slice and rounded once.
#![tactic(auto)]

mod digits; // digits.rt: digits in a slice, the least first
mod lines; // lines.rt: a sheet line by line
mod naming; // naming.rt: the fields' names and units
mod output; // output.rt: bytes and numbers
mod parts; // parts.rt: the items of a sheet's parts
mod reasons; // reasons.rt: a refusal in words
mod rounding; // rounding.rt: the seven highest
mod singles; // singles.rt: a Single in decimal
mod values; // values.rt: a field's value

pub use lines::show;
pub use output::{put, put_figure, put_number};
pub use reasons::refused;

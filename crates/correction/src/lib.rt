// Document 01, "Reading": the straight line between neighbouring calibration points, to the nearest whole; document 02, Note 9: the
// crossing between them; and Note 11: the float fraction of a curve. The exact line and the certificate distance are in specs/
// and proofs/.
#![tactic(auto)]

mod crossing; // crossing.rt: the crossing of two points
mod curve; // curve.rt: the float fraction of a curve
mod line; // line.rt: the line between two points

pub use crossing::{crossing_between, crossing_held, sum};
pub use curve::{Powers, float_fraction};
pub use line::{between, gap, weighed};

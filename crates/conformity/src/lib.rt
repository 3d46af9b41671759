// The conformity of a chip with its certificate: how far any reading of an image
// can be from the line through a certificate's points, whoever wrote the image.
// `conformity` has no `requires`, and for whatever it accepts, nothing overflows.
#![tactic(auto)]

mod comparing; // comparing.rt: the call
mod corrections; // corrections.rt: the correction of a list at a position
mod differences; // differences.rt: the greatest difference of two lists
mod stored; // stored.rt: the calibration points of an image

pub use comparing::conformity;

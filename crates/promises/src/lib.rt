// What holds across calls: the demands of document 01, stated in specs/
// and proved in proofs/; and the third demand on the calls themselves.
#![tactic(auto)]

mod certificate; // certificate.rt: from the points lent to the q returned
mod lent; // lent.rt: changes and commits lent as slices

pub use certificate::points_to_reading;
use reading::Reading;
use refusal::Refusal;

// The answers of a build and of a reading, with changes and commits between them.
#[derive(Clone, Copy)]
pub struct Answers {
    pub built: Result<(), Refusal>,
    pub reading: Result<Reading, Refusal>,
}

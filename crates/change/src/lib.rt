// Document 01: change one field of an image; document 02, Note 5: propose a change, and commit it;
// Note 6: each by a writer of a level. No call has a `requires`, and a refusal writes nothing.
#![tactic(auto)]

mod changing; // changing.rt: the parts of a change, and the change
mod committing; // committing.rt: puts a code where the present one still is
mod proposing; // proposing.rt: what a field would become
mod standing; // standing.rt: the code in a field

pub use changing::change;
use codes::Value;
pub use committing::commit;
pub use proposing::propose;
use refusal::Refusal;

// A proposal: "the present code, the code to be stored and its read-back value".
#[derive(Clone, Copy)]
pub struct Proposal {
    pub present: u64,
    pub new: u64,
    pub value: Value,
}

// Document 02, Note 13: ten against sixty. Two dashes record the same run, one
// at ten refreshes a second and one at sixty; `compare` tests the recordings
// against each other and against the image. It checks the image once, and each
// tick costs one reading of the opened sheet. It has no `requires`.
#![tactic(auto)]

mod comparing; // comparing.rt: tick by tick

pub use comparing::compare;

// A refresh of a recording: its input and the fraction shown.
#[derive(Clone, Copy, PartialEq, Eq)]
pub struct Refresh {
    pub input: i64,
    pub shown: i64,
}

// What a comparison finds: the recordings agree, or the first fast tick that fails.
#[derive(Clone, Copy, PartialEq, Eq)]
pub enum Compared {
    Agree,
    Tick(u64),
}

// Document 02, Note 12: the report on a tray of senders, one line an image and the sum of the
// accepted images' bits. A tray is reported step by step: `begin`; while it `has_next`, bytes are
// read into `read_buffer` and passed to `step`, and the `text` of the returned line is written.
#![tactic(auto)]

mod images; // images.rt: a tray, image by image
mod lines; // lines.rt: the bytes of a line
mod steps; // steps.rt: a tray step by step

pub use lines::text;
pub use steps::{begin, has_next, read_buffer, step};

// A line with its newline, then zeros.
#[derive(Clone, Copy)]
pub struct Line {
    pub bytes: [u8; 43],
    pub length: usize,
}

// The state of a tray: the images judged, the bits of the
// accepted ones, and whether a further image is to be judged.
#[derive(Clone, Copy)]
pub struct SoFar {
    pub images: u64,
    pub bits: u64,
    pub more: bool,
}

// An image's line, and the tray's state after it.
#[derive(Clone, Copy)]
pub struct ImageReport {
    pub line: Line,
    pub tray: SoFar,
}

// The next step: read a kind, read the image of a kind, write the total, or none.
#[derive(Clone, Copy)]
pub enum Next {
    Kind,
    Image(u8),
    Total,
    Nothing,
}

// The tray's state, and its next step.
#[derive(Clone, Copy)]
pub struct State {
    pub tray: SoFar,
    pub next: Next,
}

// The line of a step, which may be empty, and the state after it.
#[derive(Clone, Copy)]
pub struct Stepped {
    pub line: Line,
    pub state: State,
}

// Document 02, Notes 2 and 7: an index beside the image, and a field fetched
// through it. An index is a list of entries, Note 2's "pairs of offset and
// length". No call has a `requires`: it takes any kind, any slices, any number.
#![tactic(auto)]

mod entries; // entries.rt: an entry in an index's bytes
mod fetching; // fetching.rt: a field fetched
mod making; // making.rt: an index made

pub use fetching::fetch;
pub use making::make_index;

// The first bit of a field or calibration point in the stream, and its number of bits.
#[derive(Clone, Copy)]
pub struct Entry {
    pub offset: u64,
    pub length: u64,
}

// Document 01, "Image and stream": a chip's image, its pages and check bytes,
// and the stream of bits between them. `page_bytes`, the call of a dash, has
// no `requires`; the crates above test what the other functions require.
#![tactic(auto)]

mod kinds;
mod pages;

pub use kinds::{image_sizes, stream_bits};
pub use pages::{check_sums, page_bytes, seal, sum};

// A chip's memory: the bytes of its register, and its number of pages. Page and
// kind are document 01's terms: a page is 32 bytes, a kind is one of three chips.
#[derive(Clone, Copy)]
pub struct Sizes {
    pub register: usize,
    pub pages: usize,
}

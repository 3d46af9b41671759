// Document 01, "Image and stream": fields of the stream, read and written one after
// another by a cursor; and an image cleared, rewritten and sealed. Stream is document 01's
// term. A dash calls none of these functions; the crates above test what they require.
#![tactic(auto)]

mod bitfields;
mod cursor;
mod rewriting;

pub use cursor::{Cursor, Field, Passed, Read};
pub use rewriting::{clear, rewrite, seal_pages};

// An entry in an index's bytes: offset and length, 16 bits each, low byte first.
ghost use Rattle.std.specs.Prelude.{◌≡◌, [], ◌∷◌, ◌+◌, ◌*◌, ◌%◌, ◌≤◌, ◌<◌, length, get_or};
ghost use Rattle.memory.specs.Bits.{number, bytes_of};
ghost use Rattle.index.specs.Index.{entry_bytes, entry_at};
ghost use Rattle.index.specs.Laid.{laid};

use crate::Entry;

// Writes a number into the two bytes from byte `at` on.
fn put_two(index: &mut [u8], at: usize, word: u64)
    requires { at + 2 ≤ length index.old }
    ensures { index.new ≡ laid index.old at (bytes_of 2 word) }
{
    let [low, high] = ((word & 0xffff) as u16).to_le_bytes();
    index[at] = low;
    index[at + 1] = high;
}

// Writes an entry into the 4 bytes from byte `at` on.
pub fn put_entry(index: &mut [u8], at: usize, new: Entry)
    requires { at + 4 ≤ length index.old }
    ensures { index.new ≡ laid index.old at (entry_bytes (new ∷ [])) }
{
    put_two(index, at, new.offset);
    put_two(index, at + 2, new.length);
}

// The two bytes from byte `at` on, as one number.
fn two(index: &[u8], at: usize) -> u64
    requires { at + 2 ≤ length index.now }
    ensures { result ≡ number (get_or index.now at 0 ∷ get_or index.now (at + 1) 0 ∷ []) }
{
    u64::from(u16::from_le_bytes([index[at], index[at + 1]]))
}

// Entry i, counted from 0.
pub fn entry_at(index: &[u8], i: usize) -> Entry
    requires { 4 * i + 4 ≤ length index.now }
    ensures { result ≡ entry_at index.now i }
{
    Entry {
        offset: two(index, 4 * i),
        length: two(index, 4 * i + 2),
    }
}

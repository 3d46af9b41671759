// Output. A write that fails is not reported: the person sees that the text stops.
ghost use Rattle.std.specs.Prelude.{◌≡◌};
ghost use Rattle.listing.specs.Tables.{entry_of};

use integers::{minus, plus};
use std::io::Write;

// Prints bytes.
pub fn put(out: &mut impl Write, text: &[u8]) {
    let _ = out.write_all(text);
}

// The entry of a table in this row and column, from 0: rows are
// lines, and a semicolon separates columns. Empty if there is none.
fn entry(table: &[u8], row: u64, column: u64) -> &[u8]
    ensures { result.now ≡ entry_of table.now row column }
{
    console_words::piece_at(console_words::piece_at(table, row, b'\n'), column, b';')
}

// Prints an entry of a table.
pub fn put_entry(out: &mut impl Write, table: &[u8], row: u64, column: u64) {
    put(out, entry(table, row, column));
}

// Prints a number.
pub fn put_number(out: &mut impl Write, n: u64) {
    let _ = write!(out, "{n}");
}

// Prints a number, with a minus sign if it is negative.
pub fn put_figure(out: &mut impl Write, z: i64) {
    if z < 0 {
        put(out, b"-");
        put_number(out, minus(z));
        return;
    }
    put_number(out, plus(z));
}

// Prints the bytes of a text from an index on; none past its end.
pub fn put_from(out: &mut impl Write, text: &[u8], from: usize) {
    if from <= text.len() {
        put(out, &text[from..]);
    }
}

// Prints this many zeros.
pub fn put_zeros(out: &mut impl Write, count: u64) {
    for _ in 0..count {
        put(out, b"0");
    }
}

// Prints a character of the closing text: itself if it
// is printable, else \x and two hexadecimal digits.
pub fn put_character(out: &mut impl Write, c: u8) {
    match c {
        32..=126 => {
            let one = [c];
            put(out, &one);
        }
        _ => {
            let _ = write!(out, "\\x{c:02x}");
        }
    }
}

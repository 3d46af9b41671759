// The bytes of a line.
ghost use Rattle.std.specs.Prelude.{◌≡◌, [], ◌∷◌, ◌++◌, ◌+◌, ◌≤◌, length};
ghost use Rattle.tray_report.specs.Tray.{decimal, line as line_of, total_line};
ghost use Rattle.tray_report.specs.Images.{bytes_in, Reads};
ghost use Rattle.tray_report.specs.Lines.{Put, Room, Longer};

use crate::Line;
use refusal::Refusal;
use sheet::Summary;

// Puts a text into a buffer from an offset on, and returns where it ends.
fn put(out: &mut [u8], at: usize, text: &[u8]) -> usize
    requires { at + length text.now ≤ length out.old }
    ensures { Put out.old at text.now out.new result }
{
    let end = at + text.len();
    out[at..end].copy_from_slice(text);
    end
}

// A line with nothing in it.
pub fn empty() -> Line
    ensures { Reads result [] × Room result 43 }
{
    Line {
        bytes: [0; 43],
        length: 0,
    }
}

// A line with a text appended.
fn with(line: Line, text: &[u8]) -> Line
    requires { Room line (length text.now) }
    ensures { Longer line text.now result }
{
    let Line {
        mut bytes,
        length: at,
    } = line;
    let length = put(&mut bytes, at, text);
    Line { bytes, length }
}

// A line with a number appended, in decimal: at most 20 digits.
fn with_number(line: Line, n: u64) -> Line
    requires { Room line 20 }
    ensures { Longer line (decimal n) result × (length (decimal n) ≤ 20) }
{
    let mut digits = [0u8; 20];
    let count = io::decimal(n, &mut digits);
    with(line, &digits[..count])
}

// A line with a text, a number and a newline appended.
fn ended(line: Line, text: &[u8], n: u64) -> Line
    requires { Room line (length text.now + 21) }
    ensures { Longer line (text.now ++ decimal n ++ (10 ∷ [])) result }
{
    with(with_number(with(line, text), n), b"\n")
}

// The line of an image: its position, a space, and its bits
// up to the end, or a minus sign and the refusal's number.
pub fn line(position: u64, checked: Result<Summary, Refusal>) -> Line
    ensures { Reads result (line_of position checked) }
{
    let begun = with_number(empty(), position);
    match checked {
        Ok(summary) => ended(begun, b" ", summary.bits),
        Err(r) => ended(begun, b" -", u64::from(r.number())),
    }
}

// The last line of a report.
pub fn total_line(bits: u64) -> Line
    ensures { Reads result (total_line bits) }
{
    ended(empty(), b"total ", bits)
}

// The bytes of a line that are to be written.
pub fn text(bytes: &[u8], line: Line) -> &[u8]
    requires { bytes.now ≡ line.bytes }
    ensures { result.now ≡ bytes_in line }
{
    console_words::front(bytes, line.length)
}

// Lines, each answered as soon as it has come.
ghost use Rattle.std.specs.Prelude.{◌≡◌, length};
ghost use Rattle.commands.specs.Gathering.{begun, come_said, more, next, after};

use crate::{dispatch, printing};
use std::io::{Read, Write};

// The longest line.
const LONGEST: usize = 32_768;

// The most bytes of a read.
const BLOCK: usize = 65_536;

// A line that is being read: its bytes so far, and whether it is too long.
#[derive(Clone, Copy)]
struct Gathered {
    length: usize,
    long: bool,
}

// A line of which nothing is read.
fn nothing() -> Gathered
    ensures { result ≡ begun }
{
    Gathered {
        length: 0,
        long: false,
    }
}

// Answers a line.
fn finish(out: &mut impl Write, line: &[u8], so_far: Gathered) {
    if so_far.long {
        return printing::unknown(out);
    }
    dispatch::answer(out, console_words::front(line, so_far.length));
}

// One more byte of a line, kept if there is room.
fn kept(line: &mut [u8], so_far: Gathered, b: u8) -> Gathered
    ensures { come_said line.new result ≡ more (length line.old) (come_said line.old so_far) b }
{
    let length = so_far.length;
    if length >= line.len() {
        return Gathered { length, long: true };
    }
    line[length] = b;
    Gathered {
        length: length + 1,
        long: so_far.long,
    }
}

// One more byte: a newline ends the line, which is then answered.
fn step(out: &mut impl Write, line: &mut [u8], so_far: Gathered, b: u8) -> Gathered
    ensures { come_said line.new result ≡ next (length line.old) (come_said line.old so_far) b }
{
    if b == b'\n' {
        finish(out, line, so_far);
        return nothing();
    }
    kept(line, so_far, b)
}

// A block of bytes, in order.
fn gather(out: &mut impl Write, line: &mut [u8], before: Gathered, block: &[u8]) -> Gathered
    ensures { come_said line.new result ≡ after (length line.old) (come_said line.old before) block.now }
{
    let mut so_far = before;
    let mut at = 0;
    while at < block.len() {
        so_far = step(out, line, so_far, block[at]);
        at += 1;
    }
    so_far
}

// Answers the lines of a reader until it ends or a read fails; what a block
// gave is written before the next is read. A proved loop has to end.
fn serve_lines(input: &mut impl Read, out: &mut impl Write, line: &mut [u8]) {
    let mut block = [0u8; BLOCK];
    let mut so_far = nothing();
    for _ in 0..u64::MAX {
        let _ = out.flush();
        let n = input.read(&mut block).unwrap_or(0);
        if n == 0 {
            break;
        }
        so_far = gather(out, line, so_far, &block[..n]);
    }
    if so_far.length > 0 {
        finish(out, line, so_far);
    }
}

// Answers every line of a reader, to its end.
pub fn serve(input: &mut impl Read, out: &mut impl Write) {
    let mut line = [0u8; LONGEST];
    serve_lines(input, out, &mut line);
}

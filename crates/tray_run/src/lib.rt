// The tray report (docs/TRAY.md) from a reader to a writer. An image is read when its turn
// comes, and its line is written before the next is read. `report` decides what to read and
// what to write; this crate makes one read, one step and one write at a time. That a read's
// count is its own, and that each line is written once, are three lines of this file, tested
// by `bin/tray-test`.
#![tactic(auto)]

ghost use Rattle.std.specs.Prelude.{◌≡◌, ◌≤◌, length};
ghost use Rattle.tray_report.specs.Steps.{SoundState, SteppedOn, Reported};

use std::io::{Read, Write};
use tray_report::{State, Stepped};

// Writes the line of a step, and returns the state after it. A
// write that fails is not reported here: bin/tray detects it.
fn write_line(out: &mut impl Write, stepped: Stepped) -> State
    requires { length stepped.line.bytes ≡ 43 }
    ensures { result ≡ stepped.state }
{
    let line = stepped.line;
    let bytes = line.bytes;
    let _ = out.write_all(tray_report::text(&bytes, line));
    let _ = out.flush();
    stepped.state
}

// Reads until a buffer is full, the input ends or a read
// fails, and returns how many bytes are at its start.
fn read_full(input: &mut impl Read, buffer: &mut [u8]) -> usize
    ensures { result ≤ length buffer.new }
{
    let mut received = 0;
    while received < buffer.len() {
        let n = input.read(&mut buffer[received..]).unwrap_or(0);
        if n == 0 {
            break;
        }
        received += n;
    }
    received
}

// Reads the bytes that the next step wants, or as many as are left.
fn read_step(input: &mut impl Read, buffer: &mut [u8], state: State) -> Stepped
    requires { SoundState state × (512 ≤ length buffer.old) }
    ensures { SteppedOn state buffer.new result }
{
    let received = read_full(input, tray_report::read_buffer(state, buffer));
    tray_report::step(state, buffer, received)
}

// Steps to the end: the lines are the report on the bytes received.
fn report_through(input: &mut impl Read, out: &mut impl Write, buffer: &mut [u8]) -> State
    requires { 512 ≤ length buffer.old }
    ensures { Reported result }
{
    let mut state = tray_report::begin();
    while tray_report::has_next(state) {
        state = write_line(out, read_step(input, buffer, state));
    }
    state
}

// Reads a tray from a reader and writes its report to a writer.
// The buffer has room for the largest image.
pub fn report_tray(input: &mut impl Read, out: &mut impl Write) -> State
    ensures { Reported result }
{
    let mut buffer = [0u8; 512];
    report_through(input, out, &mut buffer)
}

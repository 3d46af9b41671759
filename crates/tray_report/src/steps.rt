// A tray step by step, without input and output: how many
// bytes to read next, and the line for those that were read.
ghost use Rattle.std.specs.Prelude.{◌≡◌, true, ◌≤◌, length, take};
ghost use Rattle.tray_report.specs.Images.{Sound};
ghost use Rattle.tray_report.specs.Steps.{initial, has_next, bytes_wanted, state_of, SoundState, StepsTo};

use crate::{ImageReport, Line, Next, SoFar, State, Stepped, images, lines};

// A tray of which nothing is read.
pub fn begin() -> State
    ensures { result ≡ initial }
{
    State {
        tray: images::begin(),
        next: Next::Kind,
    }
}

// Whether there is a further step.
pub fn has_next(state: State) -> bool
    ensures { result ≡ has_next state.next }
{
    !matches!(state.next, Next::Nothing)
}

// How many bytes the next step wants.
fn bytes_wanted(next: Next) -> usize
    ensures { result ≡ bytes_wanted next }
{
    match next {
        Next::Kind => 1,
        Next::Image(kind) => images::image_bytes(kind),
        Next::Total | Next::Nothing => 0,
    }
}

// The part of a buffer to read the next bytes into: as long as the next step wants.
pub fn read_buffer(state: State, buffer: &mut [u8]) -> &mut [u8]
    requires { 512 ≤ length buffer.old }
    ensures { (result.now ≡ take (bytes_wanted state.next) buffer.old) × (length result.now ≡ bytes_wanted state.next) }
{
    console_words::front_mut(buffer, bytes_wanted(state.next))
}

// A line, and the state after it.
fn stepped(line: Line, tray: SoFar, next: Next) -> Stepped
    ensures { result ≡ record { line = line; state = state_of tray next } }
{
    Stepped {
        line,
        state: State { tray, next },
    }
}

// The step after a kind was read, or the input has ended.
fn kind_received(tray: SoFar, bytes: &[u8]) -> Stepped
    requires { Sound tray × (tray.more ≡ true) }
    ensures { StepsTo (state_of tray Next.Kind) bytes.now result }
{
    match bytes {
        [kind, ..] => stepped(lines::empty(), tray, Next::Image(*kind)),
        [] => stepped(lines::empty(), tray, Next::Total),
    }
}

// The step after an image was read, or the input ended inside it.
fn image_received(tray: SoFar, kind: u8, bytes: &[u8]) -> Stepped
    requires { Sound tray × (tray.more ≡ true) }
    ensures { StepsTo (state_of tray (Next.Image kind)) bytes.now result }
{
    let ImageReport { line, tray } = images::report_image(tray, kind, bytes);
    if tray.more {
        stepped(line, tray, Next::Kind)
    } else {
        stepped(line, tray, Next::Total)
    }
}

// The line for the bytes that were read, the first `received` of a buffer, and
// the state after them. Fewer than wanted are received if the input ended.
pub fn step(state: State, buffer: &[u8], received: usize) -> Stepped
    requires { SoundState state × (received ≤ bytes_wanted state.next) }
    ensures { StepsTo state (take received buffer.now) result }
{
    let bytes = console_words::front(buffer, received);
    let State { tray, next } = state;
    match next {
        Next::Kind => kind_received(tray, bytes),
        Next::Image(kind) => image_received(tray, kind, bytes),
        Next::Total => stepped(lines::total_line(tray.bits), tray, Next::Nothing),
        Next::Nothing => stepped(lines::empty(), tray, Next::Nothing),
    }
}

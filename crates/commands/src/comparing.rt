// The command `compare`.
ghost use Rattle.std.specs.Prelude.{◌≡◌, length};
ghost use Rattle.commands.specs.Replies.{compare_reply};

use crate::arguments::ROOM;
use crate::{arguments, printing};
use console_words::{front, front_figures, word};
use listing::put;
use recordings::Compared;
use refusal::Refusal;
use std::io::Write;

// The comparison of the slow recording and the fast one with the image, words 1 to 4.
fn compare_reply(
    line: &[u8],
    room: &mut [u8],
    slow: &mut [i64],
    fast: &mut [i64],
) -> Option<Result<Compared, Refusal>>
    ensures { result ≡ compare_reply (length room.old) (length slow.old) (length fast.old) line.now }
{
    let chip = arguments::lent(line, room)?;
    let slow_figures = console_words::figures_of(word(line, 3), slow)?;
    let fast_figures = console_words::figures_of(word(line, 4), fast)?;
    let image = front(room, chip.length);
    let slow = front_figures(slow, slow_figures);
    let fast = front_figures(fast, fast_figures);
    Some(recordings::compare(chip.kind, image, slow, fast))
}

fn print_compared(out: &mut impl Write, answer: Result<Compared, Refusal>) {
    match answer {
        Ok(Compared::Agree) => put(out, b"agree\n"),
        Ok(Compared::Tick(tick)) => {
            put(out, b"tick ");
            printing::number(out, tick);
        }
        Err(r) => printing::refused(out, r),
    }
}

// Answers `compare`: the kind, the image and the recordings, words 1 to 4.
pub fn compare(out: &mut impl Write, line: &[u8]) {
    let mut room = [0u8; ROOM];
    let mut slow = [0i64; ROOM];
    let mut fast = [0i64; ROOM];
    match compare_reply(line, &mut room, &mut slow, &mut fast) {
        Some(answer) => print_compared(out, answer),
        None => printing::unknown(out),
    }
}

// The command `conform`.
ghost use Rattle.std.specs.Prelude.{◌≡◌, length};
ghost use Rattle.commands.specs.Replies.{conform_reply};

use crate::arguments::ROOM;
use crate::{arguments, printing};
use console_words::{front, front_figures, word};
use distance::CertificateBound;
use listing::{put, put_number};
use refusal::Refusal;
use std::io::Write;

// The conformity of the image with the points, words 1 to 3.
fn conform_reply(
    line: &[u8],
    room: &mut [u8],
    points: &mut [i64],
) -> Option<Result<Option<CertificateBound>, Refusal>>
    ensures { result ≡ conform_reply (length room.old) (length points.old) line.now }
{
    let chip = arguments::lent(line, room)?;
    let figures = console_words::figures_of(word(line, 3), points)?;
    let image = front(room, chip.length);
    let points = front_figures(points, figures);
    Some(conformity::conformity(chip.kind, image, points))
}

fn print_conformity(out: &mut impl Write, answer: Result<Option<CertificateBound>, Refusal>) {
    match answer {
        Ok(Some(found)) => {
            put_number(out, found.slope);
            put(out, b" ");
            printing::number(out, found.bound);
        }
        Ok(None) => put(out, b"none\n"),
        Err(r) => printing::refused(out, r),
    }
}

// Answers `conform`: the kind, the image and the points, words 1 to 3.
pub fn conform(out: &mut impl Write, line: &[u8]) {
    let mut room = [0u8; ROOM];
    let mut points = [0i64; ROOM];
    match conform_reply(line, &mut room, &mut points) {
        Some(answer) => print_conformity(out, answer),
        None => printing::unknown(out),
    }
}

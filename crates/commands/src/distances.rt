// The command `distance`.
ghost use Rattle.std.specs.Prelude.{◌≡◌, length};
ghost use Rattle.commands.specs.Replies.{distance_reply};

use crate::arguments::ROOM;
use crate::printing;
use console_words::{front_figures, word};
use distance::CertificateBound;
use listing::{put, put_number};
use refusal::Refusal;
use std::io::Write;

// The distance of the points, word 1.
fn distance_reply(line: &[u8], points: &mut [i64]) -> Option<Result<CertificateBound, Refusal>>
    ensures { result ≡ distance_reply (length points.old) line.now }
{
    let figures = console_words::figures_of(word(line, 1), points)?;
    Some(distance::distance(front_figures(points, figures)))
}

fn print_distance(out: &mut impl Write, answer: Result<CertificateBound, Refusal>) {
    match answer {
        Ok(found) => {
            put_number(out, found.slope);
            put(out, b" ");
            printing::number(out, found.bound);
        }
        Err(r) => printing::refused(out, r),
    }
}

// Answers `distance`: the points, word 1.
pub fn distance(out: &mut impl Write, line: &[u8]) {
    let mut points = [0i64; ROOM];
    match distance_reply(line, &mut points) {
        Some(answer) => print_distance(out, answer),
        None => printing::unknown(out),
    }
}

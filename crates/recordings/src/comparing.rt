// Two recordings, tick by tick. A recording has input and shown fraction by turns.
ghost use Rattle.std.specs.Prelude.{◌≡◌, false, ℕ, ◌/◌, ◌<◌, length};
ghost use Rattle.layout.specs.Contents.{Contents};
ghost use Rattle.sheet.specs.Opened.{Opens, Held};
ghost use Rattle.recordings.specs.Recordings.{refreshes, shows, pairs, right, compared_from, unlike, compare as compare_of};
ghost use Rattle.recordings.specs.Ticks.{refresh_at};

use crate::{Compared, Refresh};
use reading::Dash;
use refusal::Refusal;
use sheet::Opened;

// The number of fast ticks to a slow one.
const FAST_TICKS: usize = 6;

// Whether a list has an odd length, or the fast ticks are not six times the slow ones.
fn is_unlike(slow: usize, fast: usize) -> bool
    ensures { result ≡ unlike slow fast }
{
    let ticks = fast / 2;
    slow % 2 == 1 || fast % 2 == 1 || ticks % FAST_TICKS != 0 || ticks / FAST_TICKS != slow / 2
}

// The refresh of a recording at a tick.
fn refresh_at(recording: &[i64], tick: usize) -> Refresh
    requires { tick < length recording.now / 2 }
    ensures { result ≡ refresh_at recording.now tick }
{
    Refresh {
        input: recording[2 * tick],
        shown: recording[2 * tick + 1],
    }
}

// Whether a fast refresh equals the slow tick that it pairs with, if there is one.
fn is_paired(slow: &[i64], tick: usize, x: Refresh) -> bool
    requires { tick / 6 < length slow.now / 2 }
    ensures { result ≡ pairs (refreshes slow.now) tick x }
{
    tick % FAST_TICKS != 0 || refresh_at(slow, tick / FAST_TICKS) == x
}

// Whether a refresh shows the reading of its input on the large dash.
fn is_shown(sheet: Opened, image: &[u8], x: Refresh) -> bool
    requires { Held sheet image.now }
    ensures { (kind : ℕ) (c : Contents) → Opens kind image.now sheet c → result ≡ shows kind image.now x }
{
    match reading::reading_in(sheet, image, x.input, Dash::Large) {
        Err(_) => false,
        Ok(reading) => reading.fraction == x.shown,
    }
}

// Whether a fast tick is right: as its slow tick, if it
// pairs with one, and its fraction the reading of its input.
#[tactic(auto, unfolding(crate::specs::Recordings::right))]
fn is_right(sheet: Opened, image: &[u8], slow: &[i64], tick: usize, x: Refresh) -> bool
    requires { Held sheet image.now × (tick / 6 < length slow.now / 2) }
    ensures { (kind : ℕ) (c : Contents) → Opens kind image.now sheet c → result ≡ right kind image.now (refreshes slow.now) tick x }
{
    is_paired(slow, tick, x) && is_shown(sheet, image, x)
}

// Compares the fast ticks in order, each with the slow one that it pairs with.
fn compare_ticks(sheet: Opened, image: &[u8], slow: &[i64], fast: &[i64]) -> Compared
    requires { Held sheet image.now × (unlike (length slow.now) (length fast.now) ≡ false) }
    ensures { (kind : ℕ) (c : Contents) → Opens kind image.now sheet c → result ≡ compared_from kind image.now (refreshes slow.now) 0 (refreshes fast.now) }
{
    for tick in 0..fast.len() / 2 {
        if !is_right(sheet, image, slow, tick, refresh_at(fast, tick)) {
            return Compared::Tick(tick as u64);
        }
    }
    Compared::Agree
}

// Two recordings against an opened sheet: 26 if their lengths do not belong to one run.
#[tactic(auto, unfolding(crate::specs::Recordings::compare))]
fn compare_in(sheet: Opened, image: &[u8], slow: &[i64], fast: &[i64]) -> Result<Compared, Refusal>
    requires { Held sheet image.now }
    ensures { (kind : ℕ) (c : Contents) → Opens kind image.now sheet c → result ≡ compare_of kind image.now slow.now fast.now }
{
    if is_unlike(slow.len(), fast.len()) {
        return Err(Refusal::WrongTicks((fast.len() / 2) as u64));
    }
    Ok(compare_ticks(sheet, image, slow, fast))
}

// Compares a recording at ten a second with one at sixty: agreement, or the first fast tick
// that fails. They agree if paired inputs and fractions are equal, and every fraction in both
// is the reading of its input from the image on the large dash. Refused with the check's
// refusal, or 26 if a list has an odd length or the fast ticks are not six times the slow ones.
pub fn compare(kind: u8, image: &[u8], slow: &[i64], fast: &[i64]) -> Result<Compared, Refusal>
    ensures { result ≡ compare_of kind image.now slow.now fast.now }
{
    let sheet = sheet::open(kind, image)?;
    compare_in(sheet, image, slow, fast)
}

// The calibration points of an opened sheet, in the
// form of a lent list: point and deviation by turns.
ghost use Rattle.std.specs.Prelude.{◌≡◌, ℕ, ◌*◌, length, take};
ghost use Rattle.build.specs.Build.{pairs_lent};
ghost use Rattle.layout.specs.Contents.{Contents};
ghost use Rattle.layout.specs.Image.{points};
ghost use Rattle.sheet.specs.Opened.{Opens, Held};

use sheet::{Opened, pair_in};

// The points of the sheet, then zeros. A sheet holds at most 127 pairs.
pub fn stored_points(sheet: Opened, image: &[u8]) -> [i64; 254]
    requires { Held sheet image.now }
    ensures { (length result ≡ 254) × ((kind : ℕ) (c : Contents) → Opens kind image.now sheet c → pairs_lent (take (2 * length (points c)) result) ≡ points c) }
{
    let mut room = [0i64; 254];
    for i in 0..sheet.summary.points {
        let pair = pair_in(sheet, image, i);
        let at = 2 * i as usize;
        room[at] = pair.point;
        room[at + 1] = pair.deviation;
    }
    room
}

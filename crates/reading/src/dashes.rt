// Document 02, Note 10: the small round dash "takes 32 points at most".
ghost use Rattle.std.specs.Prelude.{◌≡◌};
ghost use Rattle.reading.specs.Reading.{too_many};

use crate::Dash;

// The most points that the small dash takes.
const SMALL_POINTS: u64 = 32;

// Whether a table has more points than a dash takes.
pub fn is_too_many(dash: Dash, points: u64) -> bool
    ensures { result ≡ too_many dash points }
{
    match dash {
        Dash::Large => false,
        Dash::Small => SMALL_POINTS < points,
    }
}

// Document 02, Note 6: who may write what, by document 000's marks.
ghost use Rattle.std.specs.Prelude.{◌≡◌};
ghost use Rattle.templates.specs.Levels.{may_write};

use crate::{Level, Mark};

// Whether a writer of a level may write a field of a mark.
pub fn may_write(level: Level, mark: Mark) -> bool
    ensures { result ≡ may_write level mark }
{
    match level {
        Level::Maker => true,
        Level::CalibrationRoom => match mark {
            Mark::Id => false,
            Mark::Cal => true,
            Mark::Usr => true,
        },
        Level::Owner => match mark {
            Mark::Id => false,
            Mark::Cal => false,
            Mark::Usr => true,
        },
    }
}

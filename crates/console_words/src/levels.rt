// A writer's level, by its name.
ghost use Rattle.std.specs.Prelude.{◌≡◌};
ghost use Rattle.console_words.specs.Levels.{level};

use templates::Level;
use texts::equal;

// The level that a word names.
pub fn level_of(word: &[u8]) -> Option<Level>
    ensures { result ≡ level word.now }
{
    if equal(word, b"owner") {
        return Some(Level::Owner);
    }
    if equal(word, b"calibration") {
        return Some(Level::CalibrationRoom);
    }
    if equal(word, b"maker") {
        return Some(Level::Maker);
    }
    None
}

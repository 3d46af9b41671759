// One-field changes and commits lent as slices: the kind, level, field, and value or
// codes of each are at its index. Past the end of a slice is 0, and the value is missing.
ghost use Rattle.std.specs.Prelude.{◌≡◌, ◌<◌, length, get_or};
ghost use Rattle.codes.specs.Stored.{Real};
ghost use Rattle.promises.specs.Alterations.{altered_by};
ghost use Rattle.promises.specs.AlterationsLent.{level_lent, value_at, target_at, content_at, alteration_of};

use codes::Value;
use templates::Level;

// What an alteration is made to, and by a writer of which level.
#[derive(Clone, Copy)]
pub struct Target {
    pub kind: u8,
    pub level: Level,
    pub field: u64,
}

// What it writes: for sort 3, a commit, the new code in the place of the present one; for any other sort, a change, the value.
#[derive(Clone, Copy)]
pub struct Content {
    pub sort: u8,
    pub value: Value,
    pub present: u64,
    pub new: u64,
}

// The byte at an index, 0 past the end.
fn byte_at(bytes: &[u8], i: usize) -> u8
    ensures { result ≡ get_or bytes.now i 0 }
{
    if i < bytes.len() {
        return bytes[i];
    }
    0
}

// The code at an index, 0 past the end.
fn code_at(codes: &[u64], i: usize) -> u64
    ensures { result ≡ get_or codes.now i 0 }
{
    if i < codes.len() {
        return codes[i];
    }
    0
}

// A writer's level by its number: 1 is the calibration room, 2 the maker, any other the owner.
fn level_of(number: u8) -> Level
    ensures { result ≡ level_lent number }
{
    match number {
        1 => Level::CalibrationRoom,
        2 => Level::Maker,
        _ => Level::Owner,
    }
}

// The value at an index: sort 0 is a whole number, 1 a Single,
// any other missing; missing too past the end of a slice.
fn value_at(tags: &[u8], wholes: &[i64], singles: &[f32], i: usize) -> Value
    ensures { (result ≡ value_at tags.now wholes.now singles.now i) × Real result }
{
    if i >= tags.len() {
        return Value::Missing;
    }
    if i >= wholes.len() {
        return Value::Missing;
    }
    if i >= singles.len() {
        return Value::Missing;
    }
    match tags[i] {
        0 => Value::Whole(wholes[i]),
        1 => Value::Single(singles[i]),
        _ => Value::Missing,
    }
}

// The target of the alteration at an index.
pub fn target_at(kinds: &[u8], levels: &[u8], fields: &[u64], i: usize) -> Target
    requires { i < length fields.now }
    ensures { result ≡ target_at kinds.now levels.now fields.now i }
{
    Target {
        kind: byte_at(kinds, i),
        level: level_of(byte_at(levels, i)),
        field: fields[i],
    }
}

// The content of the alteration at an index.
pub fn content_at(
    tags: &[u8],
    wholes: &[i64],
    singles: &[f32],
    presents: &[u64],
    news: &[u64],
    i: usize,
) -> Content
    ensures { (result ≡ content_at tags.now wholes.now singles.now presents.now news.now i) × Real result.value }
{
    Content {
        sort: byte_at(tags, i),
        value: value_at(tags, wholes, singles, i),
        present: code_at(presents, i),
        new: code_at(news, i),
    }
}

// Makes the change or the commit.
pub fn alter(image: &mut [u8], target: Target, content: Content)
    ensures { image.new ≡ altered_by image.old (alteration_of target content) }
{
    let kind = target.kind;
    let level = target.level;
    let field = target.field;
    if content.sort == 3 {
        let _ = change::commit(kind, image, level, field, content.present, content.new);
        return;
    }
    let value = content.value;
    let _ = change::change(kind, image, level, field, value);
}

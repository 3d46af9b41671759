// The values of an opened sheet, read from its image. The check accepted
// each field, pair and character, so that none is refused here.
ghost use Rattle.std.specs.Prelude.{◌≡◌, ℕ, ◌≤◌, ◌<◌, get_or};
ghost use Rattle.memory.specs.Answers.{WholeImage};
ghost use Rattle.templates.specs.Lines.{last_field, row_of};
ghost use Rattle.codes.specs.Stored.{Sound};
ghost use Rattle.templates.specs.Calibration.{no_pair};
ghost use Rattle.codes.specs.Unscaled.{Unscaled};
ghost use Rattle.layout.specs.Format.{parse};
ghost use Rattle.layout.specs.Contents.{Contents, field_of};
ghost use Rattle.layout.specs.Image.{stream_in, field as field_in, figure as figure_of, points};
ghost use Rattle.sheet.specs.Opened.{Opens, Held};
ghost use Rattle.sheet.specs.Walk.{value_in};

use crate::Opened;
use codes::{Row, Value};
use memory::Sizes;
use stream::Cursor;
use templates::Pair;

// The value of the field of a row at a cursor; missing if the stream has none there.
pub fn value_at(sizes: Sizes, image: &[u8], cursor: Cursor, row: Row) -> Value
    requires { WholeImage sizes image.now × Sound row }
    ensures { result ≡ value_in (parse (stream_in sizes image.now) (field_of row) cursor.at) }
{
    match cursor.take(sizes, image, row.width as usize) {
        Err(_) => Value::Missing,
        Ok((code, _)) => match codes::decode(row, cursor.at as u64, code) {
            Err(_) => Value::Missing,
            Ok(value) => value,
        },
    }
}

// The value of the field of a row at a cursor, if the row's
// rule is not geometric; missing if the stream has none there.
pub fn unscaled_at(sizes: Sizes, image: &[u8], cursor: Cursor, row: Row) -> Value
    requires { WholeImage sizes image.now × Sound row × Unscaled row.rule }
    ensures { result ≡ value_in (parse (stream_in sizes image.now) (field_of row) cursor.at) }
{
    match cursor.take(sizes, image, row.width as usize) {
        Err(_) => Value::Missing,
        Ok((code, _)) => match codes::decode_unscaled(row, cursor.at as u64, code) {
            Err(_) => Value::Missing,
            Ok(value) => value,
        },
    }
}

// The whole number of a value: a point, a deviation, a start or an exponent always is one.
pub fn figure(value: Value) -> i64
    ensures { result ≡ figure_of value }
{
    match value {
        Value::Whole(z) => z,
        Value::Single(_) => 0,
        Value::Missing => 0,
    }
}

// The value of a field, counted from 1.
pub fn value_in(sheet: Opened, image: &[u8], field: u64) -> Value
    requires { Held sheet image.now × (1 ≤ field) × (field ≤ last_field sheet.layout.template) }
    ensures { (kind : ℕ) (c : Contents) → Opens kind image.now sheet c → result ≡ (field_in c field).value }
{
    let sizes = sheet.sizes;
    let layout = sheet.layout;
    let cursor = Cursor {
        at: layout::locate(layout, field),
    };
    value_at(sizes, image, cursor, templates::row_of(layout, field))
}

// The value of a field whose rule is not geometric.
pub fn unscaled_in(sheet: Opened, image: &[u8], field: u64) -> Value
    requires held { Held sheet image.now × (1 ≤ field) × (field ≤ last_field sheet.layout.template) }
    requires unscaled { Unscaled (row_of sheet.layout field).rule }
    ensures { (kind : ℕ) (c : Contents) → Opens kind image.now sheet c → result ≡ (field_in c field).value }
{
    let sizes = sheet.sizes;
    let layout = sheet.layout;
    let cursor = Cursor {
        at: layout::locate(layout, field),
    };
    unscaled_at(sizes, image, cursor, templates::row_of(layout, field))
}

// A pair, counted from 0: one field, the point's 16 bits lowest.
pub fn pair_in(sheet: Opened, image: &[u8], index: u64) -> Pair
    requires { Held sheet image.now × (index < sheet.summary.points) }
    ensures { (kind : ℕ) (c : Contents) → Opens kind image.now sheet c → result ≡ get_or (points c) index no_pair }
{
    let sizes = sheet.sizes;
    let cursor = Cursor {
        at: layout::locate_pair(sheet.behind.at, index),
    };
    match cursor.take(sizes, image, layout::PAIR_BITS) {
        Err(_) => Pair {
            point: 0,
            deviation: 0,
        },
        Ok((code, _)) => templates::pair_of(code),
    }
}

// A character of the closing text, counted from 0.
pub fn character_in(sheet: Opened, image: &[u8], index: u64) -> u8
    requires { Held sheet image.now × (index < sheet.summary.characters) }
    ensures { (kind : ℕ) (c : Contents) → Opens kind image.now sheet c → result ≡ get_or c.text index 0 }
{
    let sizes = sheet.sizes;
    let summary = sheet.summary;
    let cursor = Cursor {
        at: layout::locate_character(
            sheet.behind.at,
            summary.points,
            summary.segments,
            summary.terms,
            index,
        ),
    };
    match cursor.take(sizes, image, layout::CHARACTER_BITS) {
        Err(_) => 0,
        Ok((character, _)) => character as u8,
    }
}

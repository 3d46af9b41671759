// The segments and terms of an opened sheet's curve, read from its image. The
// check accepted each, so that none is refused here; if there is none, all is 0.
ghost use Rattle.std.specs.Prelude.{◌≡◌, ℕ, ◌+◌, ◌^◌, ◌<◌, get_or};
ghost use Rattle.memory.specs.Answers.{WholeImage};
ghost use Rattle.templates.specs.Curves.{no_segment, no_term};
ghost use Rattle.layout.specs.Format.{bits, parse};
ghost use Rattle.layout.specs.Contents.{Contents};
ghost use Rattle.layout.specs.Image.{stream_in, float as float_of, segments as segments_of, terms as terms_of};
ghost use Rattle.layout.specs.Places.{curve_start};
ghost use Rattle.sheet.specs.Opened.{Opens, Held};
ghost use Rattle.sheet.specs.Walk.{number_in, segment_at, term_at, segment_end, behind_segments, term_place};

use crate::{Opened, held};
use codes::Value;
use memory::Sizes;
use stream::Cursor;
use templates::{Segment, Term};

// The number of terms of the segment at a cursor.
fn terms_at(sizes: Sizes, image: &[u8], cursor: Cursor) -> u64
    requires { WholeImage sizes image.now × (cursor.at < 2 ^ 40) }
    ensures { (result ≡ number_in (parse (stream_in sizes image.now) (bits 7) (cursor.at + 13))) × (result < 128) }
{
    let start = cursor.over(templates::START_BITS as usize);
    match start
        .next
        .take(sizes, image, templates::TERM_COUNT_BITS as usize)
    {
        Err(_) => 0,
        Ok((count, _)) => count,
    }
}

// The cursor after this many terms of the segment at
// a cursor: at its next term, or at the next segment.
pub fn segment_end(cursor: Cursor, terms: u64) -> Cursor
    requires { (cursor.at < 2 ^ 40) × (terms < 2 ^ 32) }
    ensures { result.at ≡ segment_end cursor.at terms }
{
    let passed = cursor.over(layout::SEGMENT_HEAD + layout::TERM_BITS * (terms as usize));
    passed.next
}

// The segment at a cursor.
pub fn segment_at(sizes: Sizes, image: &[u8], cursor: Cursor) -> Segment
    requires { WholeImage sizes image.now × (cursor.at < 2 ^ 40) }
    ensures { result ≡ segment_at (stream_in sizes image.now) cursor.at }
{
    let start = held::unscaled_at(sizes, image, cursor, templates::segment_start());
    Segment {
        start: held::figure(start),
        terms: terms_at(sizes, image, cursor),
    }
}

// The float of a coefficient.
fn float(value: Value) -> f32
    ensures { result ≡ float_of value }
{
    match value {
        Value::Whole(_) => 0.0 / 0.0,
        Value::Single(x) => x,
        Value::Missing => 0.0 / 0.0,
    }
}

// The term at a cursor.
pub fn term_at(sizes: Sizes, image: &[u8], cursor: Cursor) -> Term
    requires { WholeImage sizes image.now × (cursor.at < 2 ^ 40) }
    ensures { result ≡ term_at (stream_in sizes image.now) cursor.at }
{
    let tenths = held::unscaled_at(sizes, image, cursor, templates::term_exponent());
    let exponent = cursor.over(templates::EXPONENT_BITS as usize);
    let coefficient = held::unscaled_at(sizes, image, exponent.next, templates::term_coefficient());
    Term {
        exponent: templates::exponent_of(held::figure(tenths)),
        coefficient: float(coefficient),
    }
}

// The cursor after this many segments from a cursor on.
fn pass_segments(sizes: Sizes, image: &[u8], first: Cursor, count: u64) -> Cursor
    requires { WholeImage sizes image.now × (first.at < 2 ^ 32) × (count < 2 ^ 16) }
    ensures { (result.at ≡ behind_segments (stream_in sizes image.now) first.at count) × (result.at < 2 ^ 40) }
{
    let mut cursor = first;
    let mut left = count;
    while 0 < left {
        cursor = segment_end(cursor, terms_at(sizes, image, cursor));
        left -= 1;
    }
    cursor
}

// The cursor at a term, counted from 0 over this many segments from a cursor on.
fn find_term(sizes: Sizes, image: &[u8], first: Cursor, segments: u64, index: u64) -> Cursor
    requires { WholeImage sizes image.now × (first.at < 2 ^ 32) × (segments < 2 ^ 16) }
    ensures { (result.at ≡ term_place (stream_in sizes image.now) first.at segments index) × (result.at < 2 ^ 40) }
{
    let mut cursor = first;
    let mut left = segments;
    let mut ahead = index;
    while 0 < left {
        let own = terms_at(sizes, image, cursor);
        if ahead < own {
            return segment_end(cursor, ahead);
        }
        cursor = segment_end(cursor, own);
        ahead -= own;
        left -= 1;
    }
    cursor
}

// The cursor at the first segment of a sheet's curve.
pub fn curve_in(sheet: Opened) -> Cursor
    requires { sheet.behind.at < 2 ^ 32 }
    ensures { result.at ≡ sheet.behind.at + curve_start }
{
    let block = sheet.behind.over(layout::CURVE_START);
    block.next
}

// A segment, counted from 0.
pub fn segment_in(sheet: Opened, image: &[u8], index: u64) -> Segment
    requires { Held sheet image.now × (index < sheet.summary.segments) }
    ensures { (kind : ℕ) (c : Contents) → Opens kind image.now sheet c → result ≡ get_or (segments_of c) index no_segment }
{
    let sizes = sheet.sizes;
    segment_at(
        sizes,
        image,
        pass_segments(sizes, image, curve_in(sheet), index),
    )
}

// A term, counted from 0 over the whole curve.
pub fn term_in(sheet: Opened, image: &[u8], index: u64) -> Term
    requires { Held sheet image.now × (index < sheet.summary.terms) }
    ensures { (kind : ℕ) (c : Contents) → Opens kind image.now sheet c → result ≡ get_or (terms_of c) index no_term }
{
    let sizes = sheet.sizes;
    let summary = sheet.summary;
    term_at(
        sizes,
        image,
        find_term(sizes, image, curve_in(sheet), summary.segments, index),
    )
}

// The curve of a build, from its words.
ghost use Rattle.std.specs.Prelude.{◌≡◌, ◌<◌};
ghost use Rattle.commands.specs.Curves.{pairs, segment_at, segments as segments_in, term_at, terms as terms_in, curve as curve_in};

use codes::Value;
use console_words::{piece_at, piece_count};
use templates::{Curve, Segment, Term};

// The number of pairs in a list separated by commas;
// `-` has none, and an odd number of items is refused.
fn pairs_in(list: &[u8]) -> Option<u64>
    ensures { result ≡ pairs list.now }
{
    if console_words::is_minus(list) {
        return Some(0);
    }
    let items = piece_count(list, b',');
    if items % 2 == 1 {
        return None;
    }
    Some(items / 2)
}

// The start and term count at this pair of a list.
fn segment_at(list: &[u8], pair: u64) -> Option<Segment>
    requires { pair < 100 }
    ensures { result ≡ segment_at list.now pair }
{
    let start = console_words::figure_of(piece_at(list, 2 * pair, b','))?;
    let terms = console_words::number_of(piece_at(list, 2 * pair + 1, b','))?;
    Some(Segment { start, terms })
}

// The exponent and coefficient at this pair of a list.
fn term_at(list: &[u8], pair: u64) -> Option<Term>
    requires { pair < 100 }
    ensures { result ≡ term_at list.now pair }
{
    let exponent = console_words::figure_of(piece_at(list, 2 * pair, b','))?;
    let value = console_words::single_word(piece_at(list, 2 * pair + 1, b','))?;
    match value {
        Value::Single(coefficient) => Some(Term {
            exponent,
            coefficient,
        }),
        Value::Whole(_) => None,
        Value::Missing => None,
    }
}

// The segments of a list, at most 20; zeros after the last.
fn segments_of(list: &[u8]) -> Option<[Segment; 20]>
    ensures { result ≡ segments_in list.now }
{
    let count = pairs_in(list)?;
    if count > 20 {
        return None;
    }
    let mut segments = [Segment { start: 0, terms: 0 }; 20];
    for at in 0..count as usize {
        segments[at] = segment_at(list, at as u64)?;
    }
    Some(segments)
}

// The terms of a list, at most 30; zeros after the last.
fn terms_of(list: &[u8]) -> Option<[Term; 30]>
    ensures { result ≡ terms_in list.now }
{
    let count = pairs_in(list)?;
    if count > 30 {
        return None;
    }
    let mut terms = [Term {
        exponent: 0,
        coefficient: 0.0,
    }; 30];
    for at in 0..count as usize {
        terms[at] = term_at(list, at as u64)?;
    }
    Some(terms)
}

// The curve of a segment count, a list of segments and a list of terms.
pub fn curve_of(count: u64, segments: &[u8], terms: &[u8]) -> Option<Curve>
    ensures { result ≡ curve_in count segments.now terms.now }
{
    let segments = segments_of(segments)?;
    let terms = terms_of(terms)?;
    Some(Curve {
        count,
        segments,
        terms,
    })
}

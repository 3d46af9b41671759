// Document 02, Note 11: block 41, a curve. Checks its segments and their terms.
ghost use Rattle.std.specs.Prelude.{◌≡◌, true, cond, ◌^◌, ◌≤◌, ◌<◌};
ghost use Rattle.std.specs.Prelude.{None};
ghost use Rattle.refusal.specs.Outcome.{Err};
ghost use Rattle.refusal.specs.declared.Refusal.TheVariants.{WrongCurve};
ghost use Rattle.memory.specs.Answers.{WholeImage};
ghost use Rattle.templates.specs.Curves.{most_terms};
ghost use Rattle.templates.specs.CurveRules.{curve_row, curve_rule};
ghost use Rattle.layout.specs.Format.{parse};
ghost use Rattle.layout.specs.Contents.{ruled_of, term_of, behind_term, terms_of, segment_of, behind_segment, nothing_passed, segments_of, curve_of};
ghost use Rattle.layout.specs.Image.{stream_in};
ghost use Rattle.sheet.specs.Walk.{keeping, coded, counts_of, TermCodes, terms_behind, count_behind, passed_by, passed, behind, code_said, step_said, segment_step_said};

use crate::block::Counts;
use crate::walk;
use memory::Sizes;
use refusal::Refusal;
use stream::Cursor;
use templates::CurveField;

// A code that passed a rule, or 24 at its field's bit.
fn ruled(takes: bool, at: u64, code: u64, next: Cursor) -> Result<(u64, Cursor), Refusal>
    ensures { code_said at result ≡ cond takes (behind (record { at = at; code = code }) next) (Err (WrongCurve at)) }
{
    if takes {
        return Ok((code, next));
    }
    Err(Refusal::WrongCurve(at))
}

// A field of a curve that has to obey a rule: 3 and 5, then 24.
fn take_ruled(
    sizes: Sizes,
    image: &[u8],
    cursor: Cursor,
    field: CurveField,
    before: Option<u64>,
) -> Result<(u64, Cursor), Refusal>
    requires { WholeImage sizes image.now }
    ensures { code_said cursor.at result ≡ keeping coded (parse (stream_in sizes image.now) (ruled_of (curve_row field) (curve_rule field before)) cursor.at) }
{
    let (code, next) = walk::take_code(sizes, image, cursor, templates::curve_row(field))?;
    ruled(
        templates::obeys(field, before, code),
        cursor.at as u64,
        code,
        next,
    )
}

// A term after the one before it in its segment, field by
// field: its exponent, then 3, 5 and 6 of its coefficient.
fn take_term_apart(
    sizes: Sizes,
    image: &[u8],
    cursor: Cursor,
    before: Option<u64>,
) -> Result<(Option<u64>, Cursor), Refusal>
    requires { WholeImage sizes image.now }
    ensures { step_said result ≡ keeping (behind_term (before)) (parse (stream_in sizes image.now) (term_of (before)) cursor.at) }
{
    let (code, middle) = take_ruled(sizes, image, cursor, CurveField::Exponent, before)?;
    let (_, next) = walk::take_code(sizes, image, middle, templates::term_coefficient())?;
    Ok((Some(code), next))
}

// Whether both codes of a term at bit `at` are valid: the exponent's 7 bits are the lowest.
fn is_term(before: Option<u64>, at: u64, both: u64) -> bool
    requires { at < 2 ^ 40 }
    ensures { result ≡ true → TermCodes (before) at both }
{
    let code = both & 0x7f;
    if let Err(_) = codes::judge(templates::term_exponent(), at, code) {
        return false;
    }
    if let Err(_) = codes::judge(
        templates::term_coefficient(),
        at + templates::EXPONENT_BITS,
        both >> templates::EXPONENT_BITS,
    ) {
        return false;
    }
    templates::exponent_follows(before, code)
}

// A term after the one before it in its segment. Fast path: reads both codes
// as one field; if one is not valid, `take_term_apart` finds the refusal.
fn take_term(
    sizes: Sizes,
    image: &[u8],
    cursor: Cursor,
    before: Option<u64>,
) -> Result<(Option<u64>, Cursor), Refusal>
    requires { WholeImage sizes image.now }
    ensures { step_said result ≡ keeping (behind_term (before)) (parse (stream_in sizes image.now) (term_of (before)) cursor.at) }
{
    match cursor.take(sizes, image, layout::TERM_BITS) {
        Err(_) => take_term_apart(sizes, image, cursor, before),
        Ok((both, next)) => {
            if is_term(before, cursor.at as u64, both) {
                return Ok((Some(both & 0x7f), next));
            }
            take_term_apart(sizes, image, cursor, before)
        }
    }
}

// Reads `count` terms of a segment, in order.
fn take_terms(
    sizes: Sizes,
    image: &[u8],
    start: Cursor,
    count: u64,
) -> Result<(Option<u64>, Cursor), Refusal>
    requires { WholeImage sizes image.now }
    ensures { step_said result ≡ keeping (passed_by behind_term None) (parse (stream_in sizes image.now) (terms_of count) start.at) }
{
    let mut cursor = start;
    let mut before = None;
    let mut left = count;
    while 0 < left {
        let (last, next) = take_term(sizes, image, cursor, before)?;
        before = last;
        cursor = next;
        left -= 1;
    }
    Ok((before, cursor))
}

// The terms of a segment, or 25 if they take the total
// past 30; then the segment's start and the total.
fn take_own_terms(
    sizes: Sizes,
    image: &[u8],
    cursor: Cursor,
    start: u64,
    total: u64,
    count: u64,
) -> Result<(Option<u64>, u64, Cursor), Refusal>
    requires { WholeImage sizes image.now }
    ensures { segment_step_said result ≡ terms_behind (stream_in sizes image.now) start total count cursor.at }
{
    if templates::too_many(total) {
        return Err(Refusal::TooManyTerms(total));
    }
    let (_, next) = take_terms(sizes, image, cursor, count)?;
    Ok((Some(start), total, next))
}

// The number of a segment's terms, after its start, and the terms.
fn take_counted(
    sizes: Sizes,
    image: &[u8],
    cursor: Cursor,
    start: u64,
    terms: u64,
) -> Result<(Option<u64>, u64, Cursor), Refusal>
    requires { WholeImage sizes image.now × (terms ≤ most_terms) }
    ensures { segment_step_said result ≡ count_behind (stream_in sizes image.now) start terms cursor.at }
{
    let (count, next) = take_ruled(sizes, image, cursor, CurveField::TermCount, None)?;
    take_own_terms(sizes, image, next, start, terms + count, count)
}

// A segment after this many terms: its start, the number of its terms, and the terms.
fn take_segment(
    sizes: Sizes,
    image: &[u8],
    cursor: Cursor,
    before: Option<u64>,
    terms: u64,
) -> Result<(Option<u64>, u64, Cursor), Refusal>
    requires { WholeImage sizes image.now × (terms ≤ most_terms) }
    ensures { let stand = passed before terms in
        segment_step_said result ≡ keeping (behind_segment stand) (parse (stream_in sizes image.now) (segment_of stand) cursor.at) }
{
    let (start, next) = take_ruled(sizes, image, cursor, CurveField::Start, before)?;
    take_counted(sizes, image, next, start, terms)
}

// Reads `count` segments, in order.
fn take_segments(
    sizes: Sizes,
    image: &[u8],
    start: Cursor,
    count: u64,
) -> Result<(Option<u64>, u64, Cursor), Refusal>
    requires { WholeImage sizes image.now }
    ensures { segment_step_said result ≡ keeping (passed_by behind_segment nothing_passed) (parse (stream_in sizes image.now) (segments_of count) start.at) }
{
    let mut cursor = start;
    let mut before = None;
    let mut terms: u64 = 0;
    let mut left = count;
    while 0 < left {
        let (last, total, next) = take_segment(sizes, image, cursor, before, terms)?;
        before = last;
        terms = total;
        cursor = next;
        left -= 1;
    }
    Ok((before, terms, cursor))
}

// The curve after its template number: domain, number of segments and segments.
pub fn take_curve(sizes: Sizes, image: &[u8], cursor: Cursor) -> Result<(Counts, Cursor), Refusal>
    requires { WholeImage sizes image.now }
    ensures { step_said result ≡ keeping counts_of (parse (stream_in sizes image.now) curve_of cursor.at) }
{
    let (_, second) = walk::take_code(sizes, image, cursor, templates::curve_domain())?;
    let (count, third) = take_ruled(sizes, image, second, CurveField::SegmentCount, None)?;
    let (_, terms, end) = take_segments(sizes, image, third, count)?;
    let counts = Counts {
        domain: None,
        points: 0,
        segments: count,
        terms,
    };
    Ok((counts, end))
}

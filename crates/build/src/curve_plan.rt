// What a build tests of a curve before it writes, and the codes of its block, which go onto the list.
ghost use Rattle.std.specs.Prelude.{◌≡◌, true, ◌≤◌, length};
ghost use Rattle.templates.specs.Curves.{is_segment_count, tenths_before};
ghost use Rattle.build.specs.Build.{count_tested, start_code, curve_pieces};
ghost use Rattle.build.specs.Listed.{Fit, unpacked, BlockPlanned};
ghost use Rattle.build.specs.Tested.{segment_fields, term_fields, PairCoded, whole_curve};

use crate::list::{CodedField, Listed, put_head, put_pair};
use refusal::Refusal;
use templates::{Curve, Segment, Term};

// 24 for a segment's term count, then 25 with the terms before it.
fn check_count(i: u64, total: u64, terms: u64) -> Result<(), Refusal>
    requires { total ≤ 30 }
    ensures { result ≡ count_tested i total terms }
{
    if templates::is_term_count(terms) {
        let sum = total + terms;
        if templates::too_many(sum) {
            return Err(Refusal::TooManyTerms(sum));
        }
        return Ok(());
    }
    Err(Refusal::WrongCurve(i))
}

// The code of a segment's start: 10, then 24 if it may not follow
// the one before it; then the refusal of its term count (24, 25).
fn code_start(before: Option<u64>, i: u64, total: u64, segment: Segment) -> Result<u64, Refusal>
    requires { total ≤ 30 }
    ensures { result ≡ start_code before i total segment }
{
    let start = templates::encode_start(i, segment.start)?;
    if !templates::start_follows(before, start) {
        return Err(Refusal::WrongCurve(i));
    }
    check_count(i, total, segment.terms)?;
    Ok(start)
}

// The two pieces of a segment: its start and its term count.
fn code_segment(
    before: Option<u64>,
    i: u64,
    total: u64,
    segment: Segment,
) -> Result<(CodedField, CodedField), Refusal>
    requires { total ≤ 30 }
    ensures { PairCoded (segment_fields before i total segment) result }
{
    let code = code_start(before, i, total, segment)?;
    let start = CodedField {
        width: templates::segment_start().width,
        code,
    };
    let terms = CodedField {
        width: templates::term_count().width,
        code: segment.terms,
    };
    Ok((start, terms))
}

// The two pieces of a term: 24 if the exponent may not follow the
// one before it in its segment, 10 if the coefficient is not finite.
fn code_term(before: Option<u64>, i: u64, term: Term) -> Result<(CodedField, CodedField), Refusal>
    ensures { PairCoded (term_fields (tenths_before before) i term) result }
{
    let power = templates::encode_exponent(before, i, term.exponent)?;
    let factor = templates::encode_coefficient(i, term.coefficient)?;
    let exponent = CodedField {
        width: templates::term_exponent().width,
        code: power,
    };
    let coefficient = CodedField {
        width: templates::term_coefficient().width,
        code: factor,
    };
    Ok((exponent, coefficient))
}

// The codes of a whole curve: four at the start, then two a segment and two a term.
fn curve_listed(segments: usize, terms: usize) -> Listed
    requires { (segments ≤ 20) × (terms ≤ 30) }
    ensures { result ≡ whole_curve segments terms }
{
    Listed {
        count: 4 + 2 * (segments + terms),
        bits: 19 + 20 * segments as u64 + 39 * terms as u64,
    }
}

// The first four codes; then for each segment its own two and those of its terms.
fn plan_segments(curve: Curve, codes: &mut [u64]) -> Result<Listed, Refusal>
    requires { (is_segment_count curve.count ≡ true) × (104 ≤ length codes.old) × Fit (length codes.old) (unpacked codes.old) }
    ensures { BlockPlanned (curve_pieces curve) (length codes.old) (unpacked codes.new) result }
{
    let count = curve.count as usize;
    let segments = curve.segments;
    let terms = curve.terms;
    put_head(codes, 41, 0, 8, curve.count);
    let mut before = None;
    let mut total: usize = 0;
    for i in 0..count {
        let segment = segments[i];
        let at = 4 + 2 * (i + total);
        let (start, own) = code_segment(before, i as u64, total as u64, segment)?;
        put_pair(codes, at, start, own);
        before = Some(start.code);
        let end = total + segment.terms as usize;
        let mut last = None;
        for j in total..end {
            let (exponent, coefficient) = code_term(last, j as u64, terms[j])?;
            put_pair(codes, 4 + 2 * (i + 1 + j), exponent, coefficient);
            last = Some(exponent.code);
        }
        total = end;
    }
    Ok(curve_listed(count, total))
}

// Block 41: 24 for the segment count, then 10, 24 and 25 segment by segment; its codes go onto the list.
pub fn plan_curve(curve: Curve, codes: &mut [u64]) -> Result<Listed, Refusal>
    requires { (104 ≤ length codes.old) × Fit (length codes.old) (unpacked codes.old) }
    ensures { BlockPlanned (curve_pieces curve) (length codes.old) (unpacked codes.new) result }
{
    if !templates::is_segment_count(curve.count) {
        return Err(Refusal::WrongCurve(curve.count));
    }
    plan_segments(curve, codes)
}

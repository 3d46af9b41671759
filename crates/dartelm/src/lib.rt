// Dartelm for firmware: the calls of `include/dartelm.h`. No call has a `requires`. A call returns
// one struct by value; the only slices are lent: an image, a text, points, recordings, an index.
#![tactic(auto)]

ghost use Rattle.std.specs.Prelude.{◌≡◌, List, [], ℕ, pos};
ghost use Rattle.refusal.specs.Written.{written_said, afterwards};
ghost use Rattle.codes.specs.declared.Value.TheVariants.{Whole};
ghost use Rattle.dartelm.specs.Answers.{struct_of, field_answer, write_answer};
ghost use Rattle.dartelm.specs.Calls.{version, kind_of, check_call, field_call, fetch_call, pair_call, segment_call, term_call, character_call, build_call, build_curve_call, change_call, index_call, propose_call, commit_call};
ghost use Rattle.dartelm.specs.Calls.{reading_call, compare_call, distance_call, conformity_call, row_call, text_call, code_call, page_call};
ghost use Rattle.dartelm.specs.Sheets.{sheet_call};

mod answers; // answers.rt: the structs that calls return
mod copying; // copying.rt: bytes at the start of an array
mod sheets; // sheets.rt: all fields of an opened sheet
mod values; // values.rt: a field's value by flags, and the values of a sheet

use answers::{
    DartelmCharacterAnswer, DartelmCheckAnswer, DartelmCodeAnswer, DartelmComparedAnswer,
    DartelmConformityAnswer, DartelmDistanceAnswer, DartelmFieldAnswer, DartelmPageAnswer,
    DartelmPairAnswer, DartelmProposalAnswer, DartelmReadingAnswer, DartelmRowAnswer,
    DartelmSegmentAnswer, DartelmSheetAnswer, DartelmTermAnswer, DartelmTextAnswer,
    DartelmWriteAnswer,
};
use codes::Value;
use copying::copy;
use recordings::Compared;
use refusal::Refusal;
use templates::{Curve, Domain};
use values::{DartelmFields, DartelmValue};

// The version of this archive, equal to its header's.
#[unsafe(no_mangle)]
pub extern "C" fn dartelm_version() -> u32
    ensures { result ≡ version }
{
    8
}

// The kind of the images with this many bytes: 0, 1 or 2; 255 if there is none.
#[unsafe(no_mangle)]
pub extern "C" fn dartelm_kind_of(bytes: usize) -> u8
    ensures { result ≡ kind_of bytes }
{
    match bytes {
        40 => 0,
        128 => 1,
        512 => 2,
        _ => 255,
    }
}

// Checks an image.
#[unsafe(no_mangle)]
pub extern "C" fn dartelm_check(kind: u8, image: &[u8]) -> DartelmCheckAnswer
    ensures { result ≡ check_call kind image.now }
{
    match sheet::check(kind, image) {
        Err(r) => DartelmCheckAnswer {
            number: r.number(),
            place: r.place(),
            bits: 0,
            points: 0,
            characters: 0,
            end_bit: 0,
            template: 0,
            domain: 0,
            segments: 0,
            terms: 0,
        },
        Ok(summary) => {
            let template = summary.template;
            let domain = summary.domain;
            DartelmCheckAnswer {
                number: 0,
                place: 0,
                bits: summary.bits,
                points: summary.points,
                characters: summary.characters,
                end_bit: summary.end_bit as u8,
                template: templates::template_number(template) as u8,
                domain: answers::domain_number(domain),
                segments: summary.segments,
                terms: summary.terms,
            }
        }
    }
}

// The answer for a field that was read or fetched.
fn held(answer: Result<Value, Refusal>) -> DartelmFieldAnswer
    ensures { result ≡ struct_of field_answer (Whole (pos 0)) (answer) }
{
    match answer {
        Err(r) => DartelmFieldAnswer {
            number: r.number(),
            place: r.place(),
            value: values::no_value(),
        },
        Ok(value) => DartelmFieldAnswer {
            number: 0,
            place: 0,
            value: values::by_flags(value),
        },
    }
}

// Reads a field by its number.
#[unsafe(no_mangle)]
pub extern "C" fn dartelm_field(kind: u8, image: &[u8], field: u64) -> DartelmFieldAnswer
    ensures { result ≡ field_call kind image.now field }
{
    held(sheet::read_field(kind, image, field))
}

// Fetches a field through an index, without a check of the whole sheet.
#[unsafe(no_mangle)]
pub extern "C" fn dartelm_fetch(
    kind: u8,
    image: &[u8],
    index: &[u8],
    field: u64,
) -> DartelmFieldAnswer
    ensures { result ≡ fetch_call kind image.now index.now field }
{
    held(index::fetch(kind, image, index, field))
}

// Reads all fields, with one check.
#[unsafe(no_mangle)]
pub extern "C" fn dartelm_sheet(kind: u8, image: &[u8]) -> DartelmSheetAnswer
    ensures { result ≡ sheet_call kind image.now }
{
    match sheet::open(kind, image) {
        Err(r) => sheets::no_sheet(r),
        Ok(opened) => sheets::sheet_in(opened, image),
    }
}

// Reads a calibration point with its deviation, by index from 0.
#[unsafe(no_mangle)]
pub extern "C" fn dartelm_pair(kind: u8, image: &[u8], index: u64) -> DartelmPairAnswer
    ensures { result ≡ pair_call kind image.now index }
{
    match sheet::read_pair(kind, image, index) {
        Err(r) => DartelmPairAnswer {
            number: r.number(),
            place: r.place(),
            point: 0,
            deviation: 0,
        },
        Ok(pair) => DartelmPairAnswer {
            number: 0,
            place: 0,
            point: pair.point,
            deviation: pair.deviation,
        },
    }
}

// Reads a segment of the curve, by index from 0.
#[unsafe(no_mangle)]
pub extern "C" fn dartelm_segment(kind: u8, image: &[u8], index: u64) -> DartelmSegmentAnswer
    ensures { result ≡ segment_call kind image.now index }
{
    match sheet::read_segment(kind, image, index) {
        Err(r) => DartelmSegmentAnswer {
            number: r.number(),
            place: r.place(),
            start: 0,
            terms: 0,
        },
        Ok(segment) => DartelmSegmentAnswer {
            number: 0,
            place: 0,
            start: segment.start,
            terms: segment.terms,
        },
    }
}

// Reads a term of the curve, by index from 0 over all its segments.
#[unsafe(no_mangle)]
pub extern "C" fn dartelm_term(kind: u8, image: &[u8], index: u64) -> DartelmTermAnswer
    ensures { result ≡ term_call kind image.now index }
{
    match sheet::read_term(kind, image, index) {
        Err(r) => DartelmTermAnswer {
            number: r.number(),
            place: r.place(),
            exponent: 0,
            coefficient: 0.0,
        },
        Ok(term) => DartelmTermAnswer {
            number: 0,
            place: 0,
            exponent: term.exponent,
            coefficient: term.coefficient,
        },
    }
}

// Reads a character of the closing text, by index from 0.
#[unsafe(no_mangle)]
pub extern "C" fn dartelm_character(kind: u8, image: &[u8], index: u64) -> DartelmCharacterAnswer
    ensures { result ≡ character_call kind image.now index }
{
    match sheet::read_character(kind, image, index) {
        Err(r) => DartelmCharacterAnswer {
            number: r.number(),
            place: r.place(),
            character: 0,
        },
        Ok(character) => DartelmCharacterAnswer {
            number: 0,
            place: 0,
            character,
        },
    }
}

// The answer of a build, a change, a commit or an index.
fn wrote(written: Result<(), Refusal>) -> DartelmWriteAnswer
    ensures { (image : List ℕ) → result ≡ struct_of write_answer [] (written_said written image) }
{
    match written {
        Err(r) => DartelmWriteAnswer {
            number: r.number(),
            place: r.place(),
        },
        Ok(()) => DartelmWriteAnswer {
            number: 0,
            place: 0,
        },
    }
}

// Builds an image from a sheet, the closing text, and calibration points
// and deviations by turns in a domain: 0 electrical, any other physical.
#[unsafe(no_mangle)]
pub extern "C" fn dartelm_build(
    kind: u8,
    image: &mut [u8],
    fields: DartelmFields,
    text: &[u8],
    domain: u8,
    points: &[i64],
) -> DartelmWriteAnswer
    ensures { let outcome = build_call kind image.old fields text.now domain points.now in
        (result ≡ struct_of write_answer [] outcome) × (image.new ≡ afterwards image.old outcome) }
{
    let found = templates::domain_of(domain as u64);
    let options = values::options_of(fields.is_resistance, fields.end_bit, found);
    let mut tags = [0u8; 21];
    let mut wholes = [0i64; 21];
    let mut singles = [0.0f32; 21];
    values::split_values(fields, &mut tags, &mut wholes, &mut singles);
    wrote(build::build_lent(kind, image, options, &tags, &wholes, &singles, text, points))
}

// Builds an image from a sheet, the closing text, and a curve.
#[unsafe(no_mangle)]
pub extern "C" fn dartelm_build_curve(
    kind: u8,
    image: &mut [u8],
    fields: DartelmFields,
    text: &[u8],
    curve: Curve,
) -> DartelmWriteAnswer
    ensures { let outcome = build_curve_call kind image.old fields text.now curve in
        (result ≡ struct_of write_answer [] outcome) × (image.new ≡ afterwards image.old outcome) }
{
    let options = values::options_of(fields.is_resistance, fields.end_bit, Domain::Electrical);
    let mut tags = [0u8; 21];
    let mut wholes = [0i64; 21];
    let mut singles = [0.0f32; 21];
    values::split_values(fields, &mut tags, &mut wholes, &mut singles);
    wrote(build::build_curve_lent(kind, image, options, &tags, &wholes, &singles, text, curve))
}

// Changes one field, as a writer of a level.
#[unsafe(no_mangle)]
pub extern "C" fn dartelm_change(
    kind: u8,
    image: &mut [u8],
    level: u8,
    field: u64,
    value: DartelmValue,
) -> DartelmWriteAnswer
    ensures { let outcome = change_call kind image.old level field value in
        (result ≡ struct_of write_answer [] outcome) × (image.new ≡ afterwards image.old outcome) }
{
    let writer = values::level_of(level);
    wrote(change::change(kind, image, writer, field, values::value_of(value)))
}

// Makes the index of an image in a buffer.
#[unsafe(no_mangle)]
pub extern "C" fn dartelm_index(kind: u8, image: &[u8], buffer: &mut [u8]) -> DartelmWriteAnswer
    ensures { let outcome = index_call kind image.now buffer.old in
        (result ≡ struct_of write_answer [] outcome) × (buffer.new ≡ afterwards buffer.old outcome) }
{
    wrote(index::make_index(kind, image, buffer))
}

// Computes what a field would become if it were changed to a value, and writes nothing.
#[unsafe(no_mangle)]
pub extern "C" fn dartelm_propose(
    kind: u8,
    image: &[u8],
    level: u8,
    field: u64,
    value: DartelmValue,
) -> DartelmProposalAnswer
    ensures { result ≡ propose_call kind image.now level field value }
{
    match change::propose(
        kind,
        image,
        values::level_of(level),
        field,
        values::value_of(value),
    ) {
        Err(r) => DartelmProposalAnswer {
            number: r.number(),
            place: r.place(),
            present_code: 0,
            new_code: 0,
            value: values::no_value(),
        },
        Ok(proposal) => {
            let back = proposal.value;
            DartelmProposalAnswer {
                number: 0,
                place: 0,
                present_code: proposal.present,
                new_code: proposal.new,
                value: values::by_flags(back),
            }
        }
    }
}

// Puts a code into a field, if the present one is still there and the field can hold the new one.
#[unsafe(no_mangle)]
pub extern "C" fn dartelm_commit(
    kind: u8,
    image: &mut [u8],
    level: u8,
    field: u64,
    present_code: u64,
    new_code: u64,
) -> DartelmWriteAnswer
    ensures { let outcome = commit_call kind image.old level field present_code new_code in
        (result ≡ struct_of write_answer [] outcome) × (image.new ≡ afterwards image.old outcome) }
{
    let writer = values::level_of(level);
    wrote(change::commit(kind, image, writer, field, present_code, new_code))
}

// Takes a reading at an input in nV/V, on a dash: 0 is the large one, any other the small one.
#[unsafe(no_mangle)]
pub extern "C" fn dartelm_reading(
    kind: u8,
    image: &[u8],
    input: i64,
    dash: u8,
) -> DartelmReadingAnswer
    ensures { result ≡ reading_call kind image.now input dash }
{
    let taker = values::dash_of(dash);
    match reading::take_reading(kind, image, input, taker) {
        Err(r) => DartelmReadingAnswer {
            number: r.number(),
            place: r.place(),
            fraction: 0,
            figure: 0.0,
        },
        Ok(shown) => DartelmReadingAnswer {
            number: 0,
            place: 0,
            fraction: shown.fraction,
            figure: shown.figure,
        },
    }
}

// Compares a recording at ten a second with one at sixty, and both with the image.
#[unsafe(no_mangle)]
pub extern "C" fn dartelm_compare(
    kind: u8,
    image: &[u8],
    slow: &[i64],
    fast: &[i64],
) -> DartelmComparedAnswer
    ensures { result ≡ compare_call kind image.now slow.now fast.now }
{
    match recordings::compare(kind, image, slow, fast) {
        Err(r) => DartelmComparedAnswer {
            number: r.number(),
            place: r.place(),
            agrees: 0,
            tick: 0,
        },
        Ok(Compared::Tick(tick)) => DartelmComparedAnswer {
            number: 0,
            place: 0,
            agrees: 0,
            tick,
        },
        Ok(Compared::Agree) => DartelmComparedAnswer {
            number: 0,
            place: 0,
            agrees: 1,
            tick: 0,
        },
    }
}

// Computes how far a reading can be from the line through these points, before anything is built.
#[unsafe(no_mangle)]
pub extern "C" fn dartelm_distance(points: &[i64]) -> DartelmDistanceAnswer
    ensures { result ≡ distance_call points.now }
{
    match distance::distance(points) {
        Err(r) => DartelmDistanceAnswer {
            number: r.number(),
            place: r.place(),
            slope: 0,
            bound: 0,
        },
        Ok(found) => DartelmDistanceAnswer {
            number: 0,
            place: 0,
            slope: found.slope,
            bound: found.bound,
        },
    }
}

// Computes how far any reading of an image can be from
// the line through these points, whoever wrote the image.
#[unsafe(no_mangle)]
pub extern "C" fn dartelm_conformity(
    kind: u8,
    image: &[u8],
    points: &[i64],
) -> DartelmConformityAnswer
    ensures { result ≡ conformity_call kind image.now points.now }
{
    match conformity::conformity(kind, image, points) {
        Err(r) => DartelmConformityAnswer {
            number: r.number(),
            place: r.place(),
            slope: 0,
            bound: 0,
            is_straight: 0,
        },
        Ok(Some(compared)) => DartelmConformityAnswer {
            number: 0,
            place: 0,
            slope: compared.slope,
            bound: compared.bound,
            is_straight: 1,
        },
        Ok(None) => DartelmConformityAnswer {
            number: 0,
            place: 0,
            slope: 0,
            bound: 0,
            is_straight: 0,
        },
    }
}

// The next row to write to a chip that holds `present`, so that it will hold `wanted`.
#[unsafe(no_mangle)]
pub extern "C" fn dartelm_next_row(kind: u8, present: &[u8], wanted: &[u8]) -> DartelmRowAnswer
    ensures { result ≡ row_call kind present.now wanted.now }
{
    match writing::next_row(kind, present, wanted) {
        Err(r) => DartelmRowAnswer {
            number: r.number(),
            place: r.place(),
            is_done: 0,
            offset: 0,
            bytes: [0u8; 8],
        },
        Ok(None) => DartelmRowAnswer {
            number: 0,
            place: 0,
            is_done: 1,
            offset: 0,
            bytes: [0u8; 8],
        },
        Ok(Some(row)) => {
            let bytes = row.bytes;
            DartelmRowAnswer {
                number: 0,
                place: 0,
                is_done: 0,
                offset: row.offset as u64,
                bytes,
            }
        }
    }
}

// The text of a code of field 3, 18 or 19.
#[unsafe(no_mangle)]
pub extern "C" fn dartelm_text(field: u64, code: u64) -> DartelmTextAnswer
    ensures { result ≡ text_call field code }
{
    match texts::text_of(field, code) {
        Err(r) => DartelmTextAnswer {
            number: r.number(),
            place: r.place(),
            length: 0,
            characters: [0; 11],
        },
        Ok(text) => {
            let mut characters = [0; 11];
            copy(&text.characters, &mut characters);
            DartelmTextAnswer {
                number: 0,
                place: 0,
                length: text.length,
                characters,
            }
        }
    }
}

// The code of a text of field 3, 18 or 19.
#[unsafe(no_mangle)]
pub extern "C" fn dartelm_code(field: u64, text: &[u8]) -> DartelmCodeAnswer
    ensures { result ≡ code_call field text.now }
{
    match texts::code_of(field, text) {
        Err(r) => DartelmCodeAnswer {
            number: r.number(),
            place: r.place(),
            code: 0,
        },
        Ok(code) => DartelmCodeAnswer {
            number: 0,
            place: 0,
            code,
        },
    }
}

// The 31 stream bytes of a page; none for a wrong kind, image length or page.
#[unsafe(no_mangle)]
pub extern "C" fn dartelm_page(kind: u8, image: &[u8], page: u64) -> DartelmPageAnswer
    ensures { result ≡ page_call kind image.now page }
{
    let part = memory::page_bytes(kind, image, page);
    let mut bytes = [0; 31];
    let count = copy(part, &mut bytes) as u64;
    DartelmPageAnswer { count, bytes }
}

// What a build tests before it writes, and the codes that go onto its list: the fields, the ending, and the points.
ghost use Rattle.std.specs.Prelude.{◌≡◌, ◌||◌, ◌*◌, ◌+◌, ◌-◌, ◌^◌, ◌/◌, ◌%◌, ◌<◌, ◌≤◌, eqb, ltb, length};
ghost use Rattle.refusal.specs.Outcome.{refuse◌if◌};
ghost use Rattle.refusal.specs.declared.Refusal.TheVariants.{OutOfRange};
ghost use Rattle.templates.specs.Lines.{chose, basic, line_of, lines_of, row_of, last_field, ending, bits_before};
ghost use Rattle.codes.specs.Stored.{Sound};
ghost use Rattle.codes.specs.DirectCode.{DirectCode};
ghost use Rattle.build.specs.Build.{unfit, ending_tested, pairs_lent, codes_for, pair_codes, table_pieces};
ghost use Rattle.build.specs.Listed.{Fit, unpacked, BlockPlanned};
ghost use Rattle.build.specs.Tested.{tested, pair_at, Encodes, value_lent, LentLengths, fields_lent, Quick, FieldsCoded, CodedTo, FieldsPlanned};

use crate::list::{CodedField, Listed, packed, put_head};
use codes::{Row, Value};
use layout::PAIR_BITS;
use refusal::Refusal;
use templates::{Codes, Domain, Layout, POINT_BITS, Template};

// The values of a sheet, lent as sorts, whole numbers and Singles.
#[derive(Clone, Copy)]
pub struct Lent<'a> {
    pub tags: &'a [u8],
    pub wholes: &'a [i64],
    pub singles: &'a [f32],
}

// The value at an index: sort 0 is a whole number, 1 a Single, any other missing.
fn value_at(values: Lent<'_>, i: usize) -> Value
    requires { LentLengths values.tags.now values.wholes.now values.singles.now × (i < 21) }
    ensures { result ≡ value_lent values.entry.tags.now values.entry.wholes.now values.entry.singles.now i }
{
    match values.tags[i] {
        0 => Value::Whole(values.wholes[i]),
        1 => Value::Single(values.singles[i]),
        _ => Value::Missing,
    }
}

// The bits of field i + 1 by its row, and its code if that needs
// no table search, else `codes::NO_CODE`. Kept small so that it is
// inlined into the loops below and the row stays in registers.
#[inline(always)]
fn quick_code(row: Row, values: Lent<'_>, i: usize) -> CodedField
    requires { Sound row × LentLengths values.tags.now values.wholes.now values.singles.now × (i < 21) }
    ensures { Quick row values.entry.tags.now values.entry.wholes.now values.entry.singles.now i result }
{
    CodedField {
        width: row.width,
        code: codes::direct_code(row, value_at(values, i)),
    }
}

// The code of a field's value. It fits the row's bits, since a lent Single has 32.
fn code_of(layout: Layout, field: u64, value: Value) -> Result<u64, Refusal>
    requires { (1 ≤ field) × (field ≤ last_field layout.template) }
    ensures { Encodes (row_of layout field) field value result }
{
    templates::encode(layout, field, value)
}

// `quick` if it is a code, else `encode` of field i + 1. Takes no
// row, so that the caller's constant row is never stored in memory.
fn code_at(layout: Layout, quick: u64, values: Lent<'_>, i: usize) -> Result<u64, Refusal>
    requires lent_lengths { LentLengths values.tags.now values.wholes.now values.singles.now × (i < last_field layout.template) }
    requires direct_code { DirectCode (row_of layout (i + 1)) (value_lent values.tags.now values.wholes.now values.singles.now i) quick }
    ensures { Encodes (row_of layout (i + 1)) (i + 1) (value_lent values.entry.tags.now values.entry.wholes.now values.entry.singles.now i) result }
{
    if quick < codes::NO_CODE {
        return Ok(quick);
    }
    code_of(layout, i as u64 + 1, value_at(values, i))
}

// The precision after a field: its code, if it is the field that sets it.
fn precision_behind(layout: Layout, field: u64, code: u64) -> u64
    requires { (1 ≤ field) × (field ≤ last_field layout.template) }
    ensures { result ≡ chose (line_of layout.template field).sets code layout.precision }
{
    let template = layout.template;
    if templates::is_choice(template, field) {
        return code;
    }
    layout.precision
}

// Codes field i + 1, after the i that are coded: its bits and its code go into `codes`.
fn code_field(
    layout: Layout,
    quick: CodedField,
    values: Lent<'_>,
    codes: &mut [u64],
    i: usize,
) -> Result<u64, Refusal>
    requires fields_coded { FieldsCoded layout.template values.tags.now values.wholes.now values.singles.now codes.old layout.precision i × (i < last_field layout.template) }
    requires quick { Quick (row_of layout (i + 1)) values.tags.now values.wholes.now values.singles.now i quick }
    ensures { CodedTo (i + 1) layout.template values.entry.tags.now values.entry.wholes.now values.entry.singles.now codes.new result }
{
    let code = code_at(layout, quick.code, values, i)?;
    codes[i] = packed(quick.width, code);
    Ok(precision_behind(layout, i as u64 + 1, code))
}

// Fields 6 to 8 and the last four have the same rows in both templates. So each part is a loop of its own, short enough for the
// compiler to unroll, with rows that are constants.
const FRONT_END: usize = 8;

const BACK_FIELDS: usize = 4;

// The row of a field from 6 to 8: measurand, least and greatest physical.
fn front_row(field: u64) -> Row
    requires { (length basic < field) × (field ≤ 8) }
    ensures { (layout : Layout) → result ≡ row_of layout field }
{
    templates::bridge_row(0, field)
}

// The row of one of the last four, counted from 0: date, initials, period, location.
fn back_row(j: usize) -> Row
    requires { j < 4 }
    ensures { (layout : Layout) → result ≡ row_of layout (last_field layout.template - 4 + j + 1) }
{
    templates::bridge_row(0, j as u64 + 18)
}

// Codes fields 6 to 8, after Basic.
fn code_front(
    template: Template,
    before: u64,
    values: Lent<'_>,
    codes: &mut [u64],
) -> Result<u64, Refusal>
    requires { FieldsCoded template values.tags.now values.wholes.now values.singles.now codes.old before (length basic) }
    ensures { CodedTo 8 template values.entry.tags.now values.entry.wholes.now values.entry.singles.now codes.new result }
{
    let first = templates::basic_fields() as usize;
    let mut precision = before;
    for i in first..FRONT_END {
        let layout = Layout {
            template,
            precision,
        };
        let quick = quick_code(front_row(i as u64 + 1), values, i);
        precision = code_field(layout, quick, values, codes, i)?;
    }
    Ok(precision)
}

// Codes the fields of Basic, then fields 6 to 8.
fn code_basic(template: Template, values: Lent<'_>, codes: &mut [u64]) -> Result<u64, Refusal>
    requires { FieldsCoded template values.tags.now values.wholes.now values.singles.now codes.old 0 0 }
    ensures { CodedTo 8 template values.entry.tags.now values.entry.wholes.now values.entry.singles.now codes.new result }
{
    let end = templates::basic_fields() as usize;
    let mut precision: u64 = 0;
    for i in 0..end {
        let layout = Layout {
            template,
            precision,
        };
        let quick = quick_code(templates::basic_row(i as u64 + 1), values, i);
        precision = code_field(layout, quick, values, codes, i)?;
    }
    code_front(template, precision, values, codes)
}

// Codes the last four fields.
fn code_back(
    template: Template,
    before: u64,
    values: Lent<'_>,
    codes: &mut [u64],
) -> Result<u64, Refusal>
    requires { FieldsCoded template values.tags.now values.wholes.now values.singles.now codes.old before (last_field template - 4) }
    ensures { CodedTo (last_field template) template values.entry.tags.now values.entry.wholes.now values.entry.singles.now codes.new result }
{
    let first = templates::last_field(template) as usize - BACK_FIELDS;
    let mut precision = before;
    for j in 0..BACK_FIELDS {
        let i = first + j;
        let layout = Layout {
            template,
            precision,
        };
        let quick = quick_code(back_row(j), values, i);
        precision = code_field(layout, quick, values, codes, i)?;
    }
    Ok(precision)
}

// Codes the fields after field 8, which differ by template up to the last four.
fn code_own(
    template: Template,
    before: u64,
    values: Lent<'_>,
    codes: &mut [u64],
) -> Result<u64, Refusal>
    requires { FieldsCoded template values.tags.now values.wholes.now values.singles.now codes.old before 8 }
    ensures { CodedTo (last_field template) template values.entry.tags.now values.entry.wholes.now values.entry.singles.now codes.new result }
{
    let end = templates::last_field(template) as usize - BACK_FIELDS;
    let mut precision = before;
    for i in FRONT_END..end {
        let layout = Layout {
            template,
            precision,
        };
        let quick = quick_code(templates::row_of(layout, i as u64 + 1), values, i);
        precision = code_field(layout, quick, values, codes, i)?;
    }
    code_back(template, precision, values, codes)
}

// The bits of the fields of a layout, with their block.
fn field_bits(layout: Layout) -> u64
    ensures { (result ≡ bits_before (lines_of layout.template) layout.precision (last_field layout.template) + 10) × (result < 2 ^ 16) }
{
    let template = layout.template;
    templates::bits_before(layout, templates::last_field(template) + 1) + 10
}

// The codes of the fields, which are all of a template, and their bits with their block.
fn fields_listed(layout: Layout) -> Listed
    ensures { (result.count ≡ last_field layout.template) × (result.bits ≡ bits_before (lines_of layout.template) layout.precision (last_field layout.template) + 10) × (result.bits < 2 ^ 16) }
{
    let template = layout.template;
    Listed {
        count: templates::last_field(template) as usize,
        bits: field_bits(layout),
    }
}

// 9 or 10, field by field, each by the precision before it; the codes go onto the list.
pub fn plan_fields(
    template: Template,
    values: Lent<'_>,
    codes: &mut [u64],
) -> Result<Listed, Refusal>
    requires { LentLengths values.tags.now values.wholes.now values.singles.now × Fit 21 (unpacked codes.old) }
    ensures { FieldsPlanned (fields_lent template values.entry.tags.now values.entry.wholes.now values.entry.singles.now) (unpacked codes.new) result }
{
    let behind = code_basic(template, values, codes)?;
    let precision = code_own(template, behind, values, codes)?;
    Ok(fields_listed(Layout {
        template,
        precision,
    }))
}

// 10 for a character 0 or above 127.
fn check_characters(field: u64, text: &[u8]) -> Result<(), Refusal>
    ensures { result ≡ (refuse (OutOfRange field) if unfit text.now) }
{
    for &c in text {
        let is_zero = c == 0;
        if is_zero || 127 < c {
            return Err(Refusal::OutOfRange(field));
        }
    }
    Ok(())
}

// The ending: 9 for text with end bit 0, then 10 for a character.
pub fn check_ending(template: Template, end_bit: bool, text: &[u8]) -> Result<(), Refusal>
    ensures { result ≡ ending_tested (ending template) end_bit text.now }
{
    let field = templates::last_field(template) + 1;
    if end_bit {
        return check_characters(field, text);
    }
    if 0 < text.len() {
        return Err(Refusal::WrongSort(field));
    }
    Ok(())
}

// The codes of pair i: 10 for the point, 10 for its deviation.
fn code_pair(points: &[i64], i: usize) -> Result<Codes, Refusal>
    requires { 2 * i + 1 < length points.now }
    ensures { result ≡ codes_for i (pair_at points.now i) }
{
    let at = 2 * i;
    let place = i as u64;
    let point = templates::encode_point(place, points[at])?;
    let deviation = templates::encode_deviation(place, points[at + 1])?;
    Ok(Codes {
        point: point as u16,
        deviation: deviation as u32,
    })
}

// The codes of pair i: 10 for the point, 10 for its deviation, then 7
// if its point does not rise, and 22 in domain 1 if its sum does not.
fn check_pair(
    domain: Domain,
    before: Option<Codes>,
    points: &[i64],
    i: usize,
) -> Result<Codes, Refusal>
    requires { 2 * i + 1 < length points.now }
    ensures { result ≡ pair_codes domain before i (pair_at points.now i) }
{
    let codes = code_pair(points, i)?;
    templates::follows(domain, before, i as u64, codes)?;
    Ok(codes)
}

// 10, 7 and 22, pair by pair.
pub fn check_points(domain: Domain, points: &[i64]) -> Result<(), Refusal>
    ensures { result ≡ tested (table_pieces domain (pairs_lent points.now)) }
{
    let n = points.len() / 2;
    let mut before = None;
    for i in 0..n {
        before = Some(check_pair(domain, before, points, i)?);
    }
    Ok(())
}

// The codes of a pair as one, the point in its lowest bits.
fn pair_code(codes: Codes) -> u64
    requires { (codes.point < 2 ^ 16) × (codes.deviation < 2 ^ 21) }
    ensures { (result ≡ codes.point + codes.deviation * 2 ^ 16) × (result < 2 ^ 37) }
{
    let deviation = codes.deviation as u64;
    codes.point as u64 | (deviation << POINT_BITS)
}

// Block 40: 10, 7 and 22, pair by pair; its first four codes and one for each
// pair go onto the list. Without points nothing does, and no domain is looked at.
pub fn plan_points(domain: Domain, points: &[i64], codes: &mut [u64]) -> Result<Listed, Refusal>
    requires points_len_bound { (length points.now ≤ 254) × (0 < length points.now / 2 → 4 + length points.now / 2 ≤ length codes.old) }
    requires fit { Fit (length codes.old) (unpacked codes.old) }
    ensures { BlockPlanned (table_pieces domain (pairs_lent points.now)) (length codes.old) (unpacked codes.new) result }
{
    let n = points.len() / 2;
    if n == 0 {
        return Ok(Listed { count: 0, bits: 0 });
    }
    put_head(codes, 40, templates::domain_code(domain), 7, n as u64);
    let mut before = None;
    for i in 0..n {
        let pair = check_pair(domain, before, points, i)?;
        codes[4 + i] = packed(PAIR_BITS as u64, pair_code(pair));
        before = Some(pair);
    }
    Ok(Listed {
        count: 4 + n,
        bits: layout::table_bits(n as u64) as u64,
    })
}

// Whether a points list is odd or over 254 long.
pub fn is_wrong_list(n: usize) -> bool
    ensures { result ≡ (eqb (n % 2) 1 || ltb 254 n) }
{
    n % 2 == 1 || 254 < n
}

// Builds an image in the caller's buffer.
ghost use Rattle.std.specs.Prelude.{◌≡◌, ◌+◌, ◌*◌, ◌/◌, ◌^◌, ◌≤◌, ◌<◌, ltb, length};
ghost use Rattle.refusal.specs.Outcome.{Ok};
ghost use Rattle.refusal.specs.Written.{written_said, afterwards};
ghost use Rattle.memory.specs.Image.{image_bytes, stream_bits};
ghost use Rattle.memory.specs.Answers.{WholeImage};
ghost use Rattle.templates.specs.declared.Level.{Level};
ghost use Rattle.build.specs.Build.{listed, by_curve, list_tested, as_far_as_64_bits, built_in, build as build_of, build_curve};
ghost use Rattle.build.specs.Listed.{Fit, unpacked, Ready, finished, both_listed};
ghost use Rattle.build.specs.Tested.{LentLengths, SplitValues, sheet_lent, FrontPlanned, SheetPlanned};

use crate::curve_plan::plan_curve;
use crate::list::{Listed, NO_CODE};
use crate::plan::{Lent, check_ending, is_wrong_list, plan_fields, plan_points};
use crate::write::write_image;
use crate::{Options, Sheet, Slot};
use codes::Value;
use memory::Sizes;
use refusal::Refusal;
use templates::{Curve, Domain};

// The codes that a list has room for: the fields of any template; then the first four
// of a block, and a code for each of 127 points or two for each of 20 segments and 30 terms.
const FIELDS: usize = 21;

const WITH_POINTS: usize = FIELDS + 4 + 127;

const WITH_CURVE: usize = FIELDS + 4 + 2 * 50;

// The bits that codes, the ending and its characters need, as far as 64 bits hold their number.
fn bits_needed(codes: u64, characters: u64) -> u64
    requires { codes < 2 ^ 17 }
    ensures { result ≡ as_far_as_64_bits (codes + 3 + 7 * characters) }
{
    (codes + 3).saturating_add(characters.saturating_mul(7))
}

// Whether the stream has fewer bits.
fn is_too_long(sizes: Sizes, bits: u64) -> bool
    requires { image_bytes sizes ≤ 512 }
    ensures { result ≡ ltb (stream_bits sizes) bits }
{
    (memory::stream_bits(sizes) as u64) < bits
}

// After all other tests: their refusal; or 11 if the stream has fewer bits than needed, else writes the image.
fn finish(
    sizes: Sizes,
    image: &mut [u8],
    options: Options,
    codes: &[u64],
    planned: Result<Listed, Refusal>,
    text: &[u8],
) -> Result<(), Refusal>
    requires whole_image { WholeImage sizes image.old × (image_bytes sizes ≤ 512) }
    requires ready { (l : Listed) → planned ≡ Ok l → Ready options.template codes.now l text.now }
    ensures { let outcome = finished sizes options.template options.end_bit text.now (unpacked codes.now) planned in
        (written_said result image.new ≡ outcome) × (image.new ≡ afterwards image.old outcome) }
{
    let listed = planned?;
    let bits = bits_needed(listed.bits, text.len() as u64);
    if is_too_long(sizes, bits) {
        return Err(Refusal::TooLong(bits));
    }
    let template = options.template;
    write_image(sizes, image, template, codes, listed, options.end_bit, text);
    Ok(())
}

// The fields and the ending: 9 or 10, field by field, then 9 or 10 of the ending. The fields' codes go onto the list.
fn plan_front(
    options: Options,
    values: Lent<'_>,
    text: &[u8],
    codes: &mut [u64],
) -> Result<Listed, Refusal>
    requires { LentLengths values.tags.now values.wholes.now values.singles.now × (21 ≤ length codes.old) × Fit (length codes.old) (unpacked codes.old) }
    ensures { (level : Level) → FrontPlanned (sheet_lent options.template options.end_bit level values.entry.tags.now values.entry.wholes.now values.entry.singles.now) text.now (length codes.old) (unpacked codes.new) result }
{
    let template = options.template;
    let fields = plan_fields(template, values, &mut codes[..FIELDS])?;
    check_ending(template, options.end_bit, text)?;
    Ok(fields)
}

// Codes of a list, and those after them.
fn both_listed(first: Listed, second: Listed) -> Listed
    requires { (first.count ≤ 256) × (second.count ≤ 256) × (first.bits < 2 ^ 16) × (second.bits < 2 ^ 16) }
    ensures { result ≡ both_listed first second }
{
    Listed {
        count: first.count + second.count,
        bits: first.bits + second.bits,
    }
}

// All tests but 16 and 11, in document 01's order; what passes them goes onto the list.
fn plan_sheet(
    options: Options,
    values: Lent<'_>,
    text: &[u8],
    points: &[i64],
    codes: &mut [u64],
) -> Result<Listed, Refusal>
    requires lent_lengths { LentLengths values.tags.now values.wholes.now values.singles.now × Fit (length codes.old) (unpacked codes.old) × (length codes.old ≤ 256) }
    requires in_bounds { (21 ≤ length codes.old) × (list_tested (listed options.domain points.now) ≡ Ok tt) × (0 < length points.now / 2 → 25 + length points.now / 2 ≤ length codes.old) }
    ensures { SheetPlanned options values.entry.tags.now values.entry.wholes.now values.entry.singles.now text.now (listed options.domain points.now) codes.new result }
{
    let front = plan_front(options, values, text, codes)?;
    let at = front.count;
    let block = plan_points(options.domain, points, &mut codes[at..])?;
    Ok(both_listed(front, block))
}

// All tests but 11 of a sheet with a curve, which has no points list.
fn plan_curve_sheet(
    options: Options,
    values: Lent<'_>,
    text: &[u8],
    curve: Curve,
    codes: &mut [u64],
) -> Result<Listed, Refusal>
    requires lent_lengths { LentLengths values.tags.now values.wholes.now values.singles.now × Fit (length codes.old) (unpacked codes.old) × (length codes.old ≤ 256) }
    requires in_bounds { 125 ≤ length codes.old }
    ensures { SheetPlanned options values.entry.tags.now values.entry.wholes.now values.entry.singles.now text.now (by_curve curve) codes.new result }
{
    let front = plan_front(options, values, text, codes)?;
    let at = front.count;
    let block = plan_curve(curve, &mut codes[at..])?;
    Ok(both_listed(front, block))
}

// All tests, in document 01's order; then the image with a table. The level makes no
// difference. Without points the list has room for fields alone, which is faster to clear,
// and `plan_sheet` has one caller, into which the compiler inlines it.
fn build_in(
    sizes: Sizes,
    image: &mut [u8],
    options: Options,
    values: Lent<'_>,
    text: &[u8],
    points: &[i64],
) -> Result<(), Refusal>
    requires { WholeImage sizes image.old × (image_bytes sizes ≤ 512) × LentLengths values.tags.now values.wholes.now values.singles.now }
    ensures { (level : Level) → (let outcome = built_in sizes (sheet_lent options.template options.end_bit level values.entry.tags.now values.entry.wholes.now values.entry.singles.now) text.now (listed options.domain points.now) in
        (written_said result image.new ≡ outcome) × (image.new ≡ afterwards image.old outcome)) }
{
    let n = points.len();
    if is_wrong_list(n) {
        return Err(Refusal::WrongList(n as u64));
    }
    if n == 0 {
        let mut codes = [NO_CODE; FIELDS];
        let planned = plan_front(options, values, text, &mut codes);
        return finish(sizes, image, options, &codes, planned, text);
    }
    let mut codes = [NO_CODE; WITH_POINTS];
    let planned = plan_sheet(options, values, text, points, &mut codes);
    finish(sizes, image, options, &codes, planned, text)
}

// All tests, in document 01's order; then the image with a curve, which has no points list.
fn build_curve_in(
    sizes: Sizes,
    image: &mut [u8],
    options: Options,
    values: Lent<'_>,
    text: &[u8],
    curve: Curve,
) -> Result<(), Refusal>
    requires { WholeImage sizes image.old × (image_bytes sizes ≤ 512) × LentLengths values.tags.now values.wholes.now values.singles.now }
    ensures { (level : Level) → (let outcome = built_in sizes (sheet_lent options.template options.end_bit level values.entry.tags.now values.entry.wholes.now values.entry.singles.now) text.now (by_curve curve) in
        (written_said result image.new ≡ outcome) × (image.new ≡ afterwards image.old outcome)) }
{
    let mut codes = [NO_CODE; WITH_CURVE];
    let planned = plan_curve_sheet(options, values, text, curve, &mut codes);
    finish(sizes, image, options, &codes, planned, text)
}

// Splits the values of slots into sorts, whole numbers and Singles.
fn split_values(slots: [Slot; 21], tags: &mut [u8], wholes: &mut [i64], singles: &mut [f32])
    requires { LentLengths tags.old wholes.old singles.old }
    ensures { SplitValues slots tags.new wholes.new singles.new }
{
    for (i, slot) in slots.iter().enumerate() {
        match slot.value {
            Value::Whole(figure) => {
                tags[i] = 0;
                wholes[i] = figure;
            }
            Value::Single(x) => {
                tags[i] = 1;
                singles[i] = x;
            }
            Value::Missing => {
                tags[i] = 2;
            }
        }
    }
}

// `build` of a sheet whose values are lent as sorts, whole numbers
// and Singles, so that none is copied. The level makes no difference.
pub fn build_lent(
    kind: u8,
    image: &mut [u8],
    options: Options,
    tags: &[u8],
    wholes: &[i64],
    singles: &[f32],
    text: &[u8],
    points: &[i64],
) -> Result<(), Refusal>
    requires { LentLengths tags.now wholes.now singles.now }
    ensures { (level : Level) → (let outcome = build_of kind image.old (sheet_lent options.template options.end_bit level tags.now wholes.now singles.now) text.now options.domain points.now in
        (written_said result image.new ≡ outcome) × (image.new ≡ afterwards image.old outcome)) }
{
    let sizes = memory::image_sizes(kind, image.len())?;
    let values = Lent {
        tags,
        wholes,
        singles,
    };
    build_in(sizes, image, options, values, text, points)
}

// `build_curve` of a sheet whose values are lent as sorts, whole numbers and Singles.
pub fn build_curve_lent(
    kind: u8,
    image: &mut [u8],
    options: Options,
    tags: &[u8],
    wholes: &[i64],
    singles: &[f32],
    text: &[u8],
    curve: Curve,
) -> Result<(), Refusal>
    requires { LentLengths tags.now wholes.now singles.now }
    ensures { (level : Level) → (let outcome = build_curve kind image.old (sheet_lent options.template options.end_bit level tags.now wholes.now singles.now) text.now curve in
        (written_said result image.new ≡ outcome) × (image.new ≡ afterwards image.old outcome)) }
{
    let sizes = memory::image_sizes(kind, image.len())?;
    let values = Lent {
        tags,
        wholes,
        singles,
    };
    build_curve_in(sizes, image, options, values, text, curve)
}

// Writes the image of a sheet into the buffer, whatever the buffer held. The fields and the end
// bit come by value; the closing text, and the points and deviations by turns in a domain, are
// lent. An empty list has no domain, and the one passed is ignored. A refusal writes no byte:
// - 1 for the kind or the buffer's length;
// - 16 for the points list;
// - 9 or 10 for a field, the ending or a point;
// - 7 for points that do not rise as codes;
// - 22 in domain 1 for points plus deviations that do not rise as stored;
// - 11 if the stream has fewer bits than needed.
pub fn build(
    kind: u8,
    image: &mut [u8],
    sheet: Sheet,
    text: &[u8],
    domain: Domain,
    points: &[i64],
) -> Result<(), Refusal>
    ensures { let outcome = build_of kind image.old sheet text.now domain points.now in
        (written_said result image.new ≡ outcome) × (image.new ≡ afterwards image.old outcome) }
{
    let mut tags = [0u8; 21];
    let mut wholes = [0i64; 21];
    let mut singles = [0.0f32; 21];
    let slots = sheet.fields;
    split_values(slots, &mut tags, &mut wholes, &mut singles);
    let template = sheet.template;
    let options = Options {
        template,
        end_bit: sheet.end_bit,
        domain,
    };
    build_lent(kind, image, options, &tags, &wholes, &singles, text, points)
}

// Writes the image of a sheet with a curve in place of points. The curve comes
// by value, its starts in billionths of the span. A refusal writes no byte:
// - 1 for the kind or the buffer's length;
// - 9 or 10 for a field or the ending;
// - 24 for the number of segments, a start that does not rise as stored or is not 0 at first, a
//   term count not 1 to 6, or an exponent that is not a whole number 0 to 5 rising in its segment;
// - 10 for a start or a coefficient that its field can't hold;
// - 25 for more than 30 terms;
// - 11 if the stream has fewer bits than needed.
pub fn build_curve(
    kind: u8,
    image: &mut [u8],
    sheet: Sheet,
    text: &[u8],
    curve: Curve,
) -> Result<(), Refusal>
    ensures { let outcome = build_curve kind image.old sheet text.now curve in
        (written_said result image.new ≡ outcome) × (image.new ≡ afterwards image.old outcome) }
{
    let mut tags = [0u8; 21];
    let mut wholes = [0i64; 21];
    let mut singles = [0.0f32; 21];
    let slots = sheet.fields;
    split_values(slots, &mut tags, &mut wholes, &mut singles);
    let template = sheet.template;
    let options = Options {
        template,
        end_bit: sheet.end_bit,
        domain: Domain::Electrical,
    };
    build_curve_lent(kind, image, options, &tags, &wholes, &singles, text, curve)
}

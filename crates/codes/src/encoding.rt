// Document 01, "Layout": the code that a value is stored at.
ghost use Rattle.std.specs.Prelude.{◌≡◌, ◌*◌, ◌^◌, ◌<◌, ◌≤◌, pos, nat_abs};
ghost use Rattle.refusal.specs.Outcome.{Ok, Err};
ghost use Rattle.refusal.specs.declared.Refusal.TheVariants.{WrongSort, OutOfRange};
ghost use Rattle.codes.specs.Rules.{top_code, progression, geometric_value, scale_width, outside, whole_code, single_code, encode as encode_of};
ghost use Rattle.codes.specs.Stored.{Sound};
ghost use Rattle.codes.specs.DirectCode.{DirectCode};

use crate::limits::{all_ones, top_code};
use crate::steps::{step_code, step_value};
use crate::tables::{greatest_value, least_value, scale_value, stored_code};
use crate::{Row, Rule, Scale, Value};
use integers::plus;
use refusal::Refusal;

// Whether the figure is below the lowest or above the highest.
fn is_outside(lowest: i64, highest: i64, figure: i64) -> bool
    ensures { result ≡ outside lowest highest figure }
{
    if figure < lowest {
        return true;
    }
    highest < figure
}

// The figure itself, or 10 outside the table.
fn plain(least: u64, greatest: u64, place: u64, figure: i64) -> Result<u64, Refusal>
    requires { (least ≤ greatest) × (greatest < 2 ^ 32) }
    ensures { result ≡ whole_code (Rule.Plain least greatest) 0 place figure }
{
    if is_outside(least as i64, greatest as i64, figure) {
        return Err(Refusal::OutOfRange(place));
    }
    Ok(plus(figure))
}

// The nearest step, halves upward, or 10 outside the lowest to the highest value.
pub fn nearest_step(
    start: i64,
    step: u64,
    width: u64,
    place: u64,
    figure: i64,
) -> Result<u64, Refusal>
    requires le_width { (1 ≤ width) × (width ≤ 32) }
    requires step_nonzero { (0 < step) × ((nat_abs start < 2 ^ 62) × (step * 2 ^ width < 2 ^ 62)) }
    ensures { result ≡ whole_code (Rule.Stepped start step) width place figure }
{
    let highest = step_value(start, step, top_code(width));
    if is_outside(start, highest, figure) {
        return Err(Refusal::OutOfRange(place));
    }
    Ok(step_code(start, step, figure))
}

// The greatest value. Reads the table although a constant would do:
// with two readers LLVM does not inline the table into `decode`, which
// would otherwise build it on every caller's stack (PERFORMANCE.md).
fn highest(scale: Scale, width: u64, figure: i64) -> i64
    requires le_width { (1 ≤ width) × (width ≤ 32) }
    requires width_value { width ≡ scale_width scale }
    ensures { result ≡ pos (geometric_value (progression scale) (top_code width)) }
{
    let greatest = greatest_value(scale);
    if figure <= greatest {
        return greatest;
    }
    scale_value(scale, top_code(width))
}

// The code that the storing rule gives, or 10 outside the lowest to the highest value.
fn geometric(scale: Scale, width: u64, place: u64, figure: i64) -> Result<u64, Refusal>
    requires le_width { (1 ≤ width) × (width ≤ 32) }
    requires width_value { width ≡ scale_width scale }
    ensures { result ≡ whole_code (Rule.Geometric scale) width place figure }
{
    if is_outside(least_value(scale), highest(scale, width, figure), figure) {
        return Err(Refusal::OutOfRange(place));
    }
    Ok(stored_code(scale, plus(figure)))
}

// The bits of a Single, or 10 if it is not finite. NaN is refused first, since
// its bits are not determined; then an exponent of all ones is an infinity.
pub fn single_bits(place: u64, x: f32) -> Result<u64, Refusal>
    ensures { result ≡ single_code Rule.Single place x }
{
    if x != x {
        return Err(Refusal::OutOfRange(place));
    }
    let code = f32::to_bits(x);
    if code % 0x8000_0000 < 0x7f80_0000 {
        return Ok(code as u64);
    }
    Err(Refusal::OutOfRange(place))
}

// All ones, or 9 if the row has no missing.
fn missing_code(row: Row, place: u64) -> Result<u64, Refusal>
    requires { Sound row }
    ensures { result ≡ encode_of row place Value.Missing }
{
    if row.missing {
        return Ok(all_ones(row.width));
    }
    Err(Refusal::WrongSort(place))
}

// No code: a code has at most 32 bits.
pub const NO_CODE: u64 = 0x1_0000_0000;

// The code of an answer, or `NO_CODE`.
fn code_or_none(answer: Result<u64, Refusal>) -> u64
    ensures { result < 2 ^ 32 → answer ≡ Ok result }
{
    match answer {
        Ok(code) => code,
        Err(_) => NO_CODE,
    }
}

// Fast path of `encode_by`: the code, or `NO_CODE` if the value is refused or needs
// a table search. Kept small so that it is inlined into loops over constant rows.
fn direct_whole(row: Row, figure: i64) -> u64
    requires { Sound row }
    ensures { DirectCode row (Value.Whole figure) result }
{
    let rule = row.rule;
    match rule {
        Rule::Plain(least, greatest) => code_or_none(plain(least, greatest, 0, figure)),
        Rule::Stepped(start, step) => code_or_none(nearest_step(start, step, row.width, 0, figure)),
        Rule::Geometric(_) => NO_CODE,
        Rule::Single => NO_CODE,
    }
}

fn direct_single(row: Row, x: f32) -> u64
    requires { Sound row }
    ensures { DirectCode row (Value.Single x) result }
{
    let rule = row.rule;
    match rule {
        Rule::Plain(_, _) => NO_CODE,
        Rule::Stepped(_, _) => NO_CODE,
        Rule::Geometric(_) => NO_CODE,
        Rule::Single => code_or_none(single_bits(0, x)),
    }
}

fn direct_missing(row: Row) -> u64
    requires { Sound row }
    ensures { DirectCode row Value.Missing result }
{
    code_or_none(missing_code(row, 0))
}

// The code of a value found without a table, or `NO_CODE`: then `encode_by` has the code or refusal.
pub fn direct_code(row: Row, value: Value) -> u64
    requires { Sound row }
    ensures { DirectCode row value result }
{
    match value {
        Value::Whole(figure) => direct_whole(row, figure),
        Value::Single(x) => direct_single(row, x),
        Value::Missing => direct_missing(row),
    }
}

// The code of a value by each rule: 9 if the rule takes no value of its sort.
fn encode_plain(
    row: Row,
    least: u64,
    greatest: u64,
    place: u64,
    value: Value,
) -> Result<u64, Refusal>
    requires { Sound row × (row.rule ≡ Rule.Plain least greatest) }
    ensures { result ≡ encode_of row place value }
{
    match value {
        Value::Whole(figure) => plain(least, greatest, place, figure),
        Value::Single(_) => Err(Refusal::WrongSort(place)),
        Value::Missing => missing_code(row, place),
    }
}

fn encode_stepped(row: Row, start: i64, step: u64, place: u64, value: Value) -> Result<u64, Refusal>
    requires { Sound row × (row.rule ≡ Rule.Stepped start step) }
    ensures { result ≡ encode_of row place value }
{
    match value {
        Value::Whole(figure) => nearest_step(start, step, row.width, place, figure),
        Value::Single(_) => Err(Refusal::WrongSort(place)),
        Value::Missing => missing_code(row, place),
    }
}

fn encode_geometric(row: Row, scale: Scale, place: u64, value: Value) -> Result<u64, Refusal>
    requires { Sound row × (row.rule ≡ Rule.Geometric scale) }
    ensures { result ≡ encode_of row place value }
{
    match value {
        Value::Whole(figure) => geometric(scale, row.width, place, figure),
        Value::Single(_) => Err(Refusal::WrongSort(place)),
        Value::Missing => missing_code(row, place),
    }
}

fn encode_single(row: Row, place: u64, value: Value) -> Result<u64, Refusal>
    requires { Sound row × (row.rule ≡ Rule.Single) }
    ensures { result ≡ encode_of row place value }
{
    match value {
        Value::Whole(_) => Err(Refusal::WrongSort(place)),
        Value::Single(x) => single_bits(place, x),
        Value::Missing => missing_code(row, place),
    }
}

// The code of a value, for any i64 or f32. Else 9 if the row takes no value of its
// sort, 10 if it has no code for it, at the place that the call passes. Matches the
// rule before the value: if the row is a constant, the compiler drops the other rules.
pub fn encode_by(row: Row, place: u64, value: Value) -> Result<u64, Refusal>
    requires { Sound row }
    ensures { result ≡ encode_of row place value }
{
    let rule = row.rule;
    match rule {
        Rule::Plain(least, greatest) => encode_plain(row, least, greatest, place, value),
        Rule::Stepped(start, step) => encode_stepped(row, start, step, place, value),
        Rule::Geometric(scale) => encode_geometric(row, scale, place, value),
        Rule::Single => encode_single(row, place, value),
    }
}

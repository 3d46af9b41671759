// Document 01, "Layout": what a field's code means.
ghost use Rattle.std.specs.Prelude.{◌≡◌, ◌*◌, ◌^◌, ◌<◌, ◌≤◌, nat_abs};
ghost use Rattle.codes.specs.Rules.{scale_width, meaning, decode as decode_of};
ghost use Rattle.codes.specs.Stored.{Sound};
ghost use Rattle.codes.specs.Unscaled.{Unscaled};

use crate::judging::{finite_bits, in_table, is_missing, up_to_top};
use crate::steps::step_value;
use crate::tables::scale_value;
use crate::{Row, Rule, Scale, Value};
use refusal::Refusal;

// The code itself, or 5 outside the table.
fn plain(least: u64, greatest: u64, at: u64, code: u64) -> Result<Value, Refusal>
    requires { code < 2 ^ 32 }
    ensures { result ≡ meaning (Rule.Plain least greatest) 0 at code }
{
    if let Err(r) = in_table(least, greatest, at, code) {
        return Err(r);
    }
    Ok(Value::Whole(code as i64))
}

// start + step × code, or 5 for all ones.
fn stepped(start: i64, step: u64, width: u64, at: u64, code: u64) -> Result<Value, Refusal>
    requires le_width { (1 ≤ width) × (width ≤ 32) }
    requires start_bound { (nat_abs start < 2 ^ 62) × (step * code < 2 ^ 62) }
    ensures { result ≡ meaning (Rule.Stepped start step) width at code }
{
    if let Err(r) = up_to_top(width, at, code) {
        return Err(r);
    }
    Ok(Value::Whole(step_value(start, step, code)))
}

// The scale's value, or 5 for all ones.
fn geometric(scale: Scale, width: u64, at: u64, code: u64) -> Result<Value, Refusal>
    requires le_width { (1 ≤ width) × (width ≤ 32) }
    requires width_value { width ≡ scale_width scale }
    ensures { result ≡ meaning (Rule.Geometric scale) width at code }
{
    if let Err(r) = up_to_top(width, at, code) {
        return Err(r);
    }
    Ok(Value::Whole(scale_value(scale, code)))
}

// The float whose bits the code is, or 6.
fn single(at: u64, code: u64) -> Result<Value, Refusal>
    requires { code < 2 ^ 32 }
    ensures { result ≡ meaning Rule.Single 32 at code }
{
    if let Err(r) = finite_bits(at, code) {
        return Err(r);
    }
    Ok(Value::Single(f32::from_bits(code as u32)))
}

// The value of a code in a field whose first bit is `at`, under a rule that is not
// geometric. Missing if the row says so, else the rule's value, or 5 or 6 at that bit.
// Kept apart from `decode`, since the scales' tables take more stack than all else.
pub fn decode_unscaled(row: Row, at: u64, code: u64) -> Result<Value, Refusal>
    requires { Sound row × Unscaled row.rule × (code < 2 ^ row.width) }
    ensures { result ≡ decode_of row at code }
{
    if is_missing(row, code) {
        return Ok(Value::Missing);
    }
    let width = row.width;
    let rule = row.rule;
    match rule {
        Rule::Plain(least, greatest) => plain(least, greatest, at, code),
        Rule::Stepped(start, step) => stepped(start, step, width, at, code),
        Rule::Geometric(_) => Ok(Value::Missing),
        Rule::Single => single(at, code),
    }
}

// The value of a code in a field whose first bit is `at`, under any rule.
// Missing if the row says so, else the rule's value, or 5 or 6 at that bit.
pub fn decode(row: Row, at: u64, code: u64) -> Result<Value, Refusal>
    requires { Sound row × (code < 2 ^ row.width) }
    ensures { result ≡ decode_of row at code }
{
    let rule = row.rule;
    match rule {
        Rule::Plain(_, _) => decode_unscaled(row, at, code),
        Rule::Stepped(_, _) => decode_unscaled(row, at, code),
        Rule::Geometric(scale) => {
            if is_missing(row, code) {
                return Ok(Value::Missing);
            }
            geometric(scale, row.width, at, code)
        }
        Rule::Single => decode_unscaled(row, at, code),
    }
}

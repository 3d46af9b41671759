// Document 01, "Layout": whether a field can hold a code.
ghost use Rattle.std.specs.Prelude.{◌≡◌, ◌&&◌, ◌||◌, ◌≤◌, eqb, ltb};
ghost use Rattle.refusal.specs.Outcome.{Err, refuse◌if◌};
ghost use Rattle.refusal.specs.declared.Refusal.TheVariants.{OutsideTable, NotFinite};
ghost use Rattle.codes.specs.Rules.{all_ones, top_code};
ghost use Rattle.codes.specs.Validity.{judge as judge_of, ruled, single_ruled};
ghost use Rattle.codes.specs.Stored.{Sound};

use crate::limits::{all_ones, top_code};
use crate::{Row, Rule};
use refusal::Refusal;

// Whether the code means missing in this row.
pub fn is_missing(row: Row, code: u64) -> bool
    requires { row.width ≤ 32 }
    ensures { result ≡ (row.missing && eqb code (all_ones row.width)) }
{
    if row.missing {
        return code == all_ones(row.width);
    }
    false
}

// 5 if the code is outside the table.
pub fn in_table(least: u64, greatest: u64, at: u64, code: u64) -> Result<(), Refusal>
    ensures { result ≡ (refuse OutsideTable at if ltb code least || ltb greatest code) }
{
    if code < least {
        return Err(Refusal::OutsideTable(at));
    }
    if greatest < code {
        return Err(Refusal::OutsideTable(at));
    }
    Ok(())
}

// Refuses all ones, with 5.
pub fn up_to_top(width: u64, at: u64, code: u64) -> Result<(), Refusal>
    requires { (1 ≤ width) × (width ≤ 32) }
    ensures { result ≡ (refuse OutsideTable at if ltb (top_code width) code) }
{
    if top_code(width) < code {
        return Err(Refusal::OutsideTable(at));
    }
    Ok(())
}

// 5 for all ones, and 6 for an infinity or another NaN: both have an exponent of all ones.
pub fn finite_bits(at: u64, code: u64) -> Result<(), Refusal>
    ensures { result ≡ single_ruled at code }
{
    if code & 0x7fff_ffff < 0x7f80_0000 {
        return Ok(());
    }
    if code == 0xffff_ffff {
        return Err(Refusal::OutsideTable(at));
    }
    Err(Refusal::NotFinite(at))
}

// The rule's own test of a code: 5 or 6, or accepted.
fn by_rule(row: Row, at: u64, code: u64) -> Result<(), Refusal>
    requires { Sound row }
    ensures { result ≡ ruled row at code }
{
    let width = row.width;
    let rule = row.rule;
    match rule {
        Rule::Plain(least, greatest) => in_table(least, greatest, at, code),
        Rule::Stepped(_, _) => up_to_top(width, at, code),
        Rule::Geometric(_) => up_to_top(width, at, code),
        Rule::Single => finite_bits(at, code),
    }
}

// Whether `decode` gives the code a value, else its refusal, without
// computing the value. Tests the rule first, since most codes pass it.
pub fn judge(row: Row, at: u64, code: u64) -> Result<(), Refusal>
    requires { Sound row }
    ensures { result ≡ judge_of row at code }
{
    match by_rule(row, at, code) {
        Ok(()) => Ok(()),
        Err(r) => {
            if is_missing(row, code) {
                return Ok(());
            }
            Err(r)
        }
    }
}

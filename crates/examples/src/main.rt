// Examples that documents 000 and 002 print, the cases of document 01's "Edges" and "Slips", the
// edges of its rows, and sheets as a person sees them (docs/EXAMPLES.md). The first six lines are
// document 000's examples of ConRes, 7.4.5.3.3, of fields that no sheet here has: they go through
// the rule that every stepped field has. The last lines are the refusals in words that `show` never
// prints, since a check does not return them. The others are answers to lines of the console.
#![tactic(auto)]

ghost use Rattle.std.specs.Prelude.{◌<◌, ◌^◌};
ghost use Rattle.codes.specs.Stored.{Sound};

use codes::{Row, Rule, Value};
use listing::{put, put_figure};
use refusal::Refusal;
use std::io::Write;

fn print_value(out: &mut impl Write, v: Value) {
    match v {
        Value::Whole(z) => {
            put_figure(out, z);
            put(out, b"\n");
        }
        Value::Single(_) => {}
        Value::Missing => put(out, b"missing\n"),
    }
}

fn print_meaning(out: &mut impl Write, decoded: Result<Value, Refusal>) {
    match decoded {
        Ok(value) => print_value(out, value),
        Err(_) => {}
    }
}

// Prints the value of a code in a stepped row.
fn print_code(out: &mut impl Write, row: Row, code: u64)
    requires { Sound row × (code < 2 ^ row.width) }
{
    print_meaning(out, codes::decode(row, 0, code));
}

// %TempCoef: 9 bits, start -0.5, step 0.002; in thousandths.
const TEMPERATURE_COEFFICIENT: Row = Row {
    width: 9,
    rule: Rule::Stepped(-500, 2),
    missing: true,
};

// A signed integer: 8 bits, start -128, step 1.
const SIGNED_INTEGER: Row = Row {
    width: 8,
    rule: Rule::Stepped(-128, 1),
    missing: true,
};

// 25 bits, start -100, step 0.00001; in steps.
const GRANULAR: Row = Row {
    width: 25,
    rule: Rule::Stepped(-10_000_000, 1),
    missing: true,
};

// Prints the rows that calls other than a check return.
fn print_rows(out: &mut impl Write) {
    listing::refused(out, Refusal::NoSuch(22));
    listing::refused(out, Refusal::WrongSort(13));
    listing::refused(out, Refusal::OutOfRange(15));
    listing::refused(out, Refusal::TooLong(320));
    listing::refused(out, Refusal::ChangedAlone(9));
    listing::refused(out, Refusal::NoSpan(11));
    listing::refused(out, Refusal::OutsideSpan);
    listing::refused(out, Refusal::WrongList(3));
    listing::refused(out, Refusal::ShortIndex(84));
    listing::refused(out, Refusal::OtherCode(20));
    listing::refused(out, Refusal::LevelTooLow(13));
    listing::refused(out, Refusal::EndOutside(10));
    listing::refused(out, Refusal::TooManyPoints(33));
    listing::refused(out, Refusal::WrongTicks(29));
}

fn main(rt: HostRuntime) {
    let mut out = rt.stdout();
    print_code(&mut out, TEMPERATURE_COEFFICIENT, 8);
    print_code(&mut out, TEMPERATURE_COEFFICIENT, 510);
    print_code(&mut out, SIGNED_INTEGER, 0);
    print_code(&mut out, SIGNED_INTEGER, 254);
    print_code(&mut out, SIGNED_INTEGER, 255);
    print_code(&mut out, GRANULAR, 20_000_000);
    commands::serve(&mut rt.stdin(), &mut out);
    print_rows(&mut out);
}

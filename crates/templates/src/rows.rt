// Document 01, "Layout", and document 02, Note 7: rows of the table of fields.
ghost use Rattle.std.specs.Prelude.{◌≡◌, ◌≤◌};
ghost use Rattle.codes.specs.Rules.{scale_width};
ghost use Rattle.templates.specs.Rows as spec;

use codes::{Row, Rule, Scale, all_ones};

// A row in which no code means missing.
pub fn always(width: u64, rule: Rule) -> Row
    ensures { result ≡ spec.always width rule }
{
    Row {
        width,
        rule,
        missing: false,
    }
}

// A row in which all ones means missing.
pub fn optional(width: u64, rule: Rule) -> Row
    ensures { result ≡ spec.optional width rule }
{
    Row {
        width,
        rule,
        missing: true,
    }
}

// A row in which every code is a value, all ones too.
pub fn any(width: u64) -> Row
    requires { width ≤ 32 }
    ensures { result ≡ spec.any width }
{
    always(width, Rule::Plain(0, all_ones(width)))
}

// The bits of a scale's codes.
fn scale_width(scale: Scale) -> u64
    ensures { result ≡ scale_width scale }
{
    match scale {
        Scale::ResponseTime => 6,
        Scale::Current => 8,
    }
}

// The row of a geometric field.
pub fn scaled(scale: Scale) -> Row
    ensures { result ≡ spec.optional (scale_width scale) (Rule.Geometric scale) }
{
    optional(scale_width(scale), Rule::Geometric(scale))
}

// The row of least and greatest electrical of template 33, at a precision.
pub fn bridge_end(precision: u64) -> Row
    ensures { result ≡ spec.bridge_end precision }
{
    match precision {
        0 => optional(11, Rule::Stepped(-1_000_000_000, 1_000_000)),
        1 => optional(19, Rule::Stepped(-6_550_000, 25)),
        _ => optional(32, Rule::Single),
    }
}

// The row of least and greatest electrical of template 32, at a precision.
pub fn resistance_end(precision: u64) -> Row
    ensures { result ≡ spec.resistance_end precision }
{
    match precision {
        0 => optional(7, Rule::Stepped(0, 10)),
        1 => optional(10, Rule::Stepped(0, 1_000)),
        2 => optional(16, Rule::Stepped(0, 1)),
        _ => optional(32, Rule::Single),
    }
}

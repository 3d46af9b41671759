// Document 01, "Layout", and document 02, Note 7: the order of the table of fields.
// Basic comes first, then the lines of the template that the first block names.
ghost use Rattle.std.specs.Prelude.{◌≡◌, ℕ, min, ◌+◌, ◌-◌, ◌*◌, ◌≤◌, ◌<◌, length};
ghost use Rattle.templates.specs.Rows.{bridge_end, resistance_end};
ghost use Rattle.templates.specs.Lines.{basic, lines_of, line_of, last_field, ending, number_of, template_of, row_of, bits_before};
ghost use Rattle.templates.specs.Open.{OpenBehind};

use crate::rows::{always, any, bridge_end, optional, resistance_end, scaled};
use crate::{Layout, Mark, Template};
use codes::{Row, Rule, Scale};

// The number of fields of Basic.
pub fn basic_fields() -> u64
    ensures { result ≡ length basic }
{
    5
}

// The number that the first block has for a template.
pub fn template_number(template: Template) -> u64
    ensures { result ≡ number_of template }
{
    match template {
        Template::Bridge => 33,
        Template::Resistance => 32,
    }
}

// The template of a number, if there is one.
pub fn template_of(number: u64) -> Option<Template>
    ensures { result ≡ template_of number }
{
    if number == template_number(Template::Bridge) {
        return Some(Template::Bridge);
    }
    if number == template_number(Template::Resistance) {
        return Some(Template::Resistance);
    }
    None
}

// The number of the template's last field.
pub fn last_field(template: Template) -> u64
    ensures { result ≡ last_field template }
{
    match template {
        Template::Bridge => 21,
        Template::Resistance => 19,
    }
}

// Whether the field's code sets the widths of later ones.
pub fn is_choice(template: Template, field: u64) -> bool
    requires { (1 ≤ field) × (field ≤ last_field template) }
    ensures { result ≡ (line_of template field).sets }
{
    match template {
        Template::Bridge => field == 9,
        Template::Resistance => field == 9,
    }
}

// The marks of template 33.
fn bridge_mark(field: u64) -> Mark
    requires { (1 ≤ field) × (field ≤ 21) }
    ensures { result ≡ (line_of Template.Bridge field).mark }
{
    if field < 7 {
        return Mark::Id;
    }
    if field < 12 {
        return Mark::Cal; // least physical to greatest electrical
    }
    if field < 18 {
        return Mark::Id;
    }
    if field < 21 {
        return Mark::Cal; // date, initials, period
    }
    Mark::Usr // location
}

// The marks of template 32.
fn resistance_mark(field: u64) -> Mark
    requires { (1 ≤ field) × (field ≤ 19) }
    ensures { result ≡ (line_of Template.Resistance field).mark }
{
    if field < 7 {
        return Mark::Id;
    }
    if field < 12 {
        return Mark::Cal; // least physical to greatest electrical
    }
    if field < 14 {
        return Mark::Id;
    }
    if field < 15 {
        return Mark::Cal; // current nominal
    }
    if field < 16 {
        return Mark::Id;
    }
    if field < 19 {
        return Mark::Cal; // date, initials, period
    }
    Mark::Usr // location
}

// The mark of a field, counted from 1.
pub fn mark_of(template: Template, field: u64) -> Mark
    requires { (1 ≤ field) × (field ≤ last_field template) }
    ensures { result ≡ (line_of template field).mark }
{
    match template {
        Template::Bridge => bridge_mark(field),
        Template::Resistance => resistance_mark(field),
    }
}

// The rows of Basic, equal in every layout.
pub fn basic_row(field: u64) -> Row
    requires { (1 ≤ field) × (field ≤ length basic) }
    ensures { (layout : Layout) → result ≡ row_of layout field }
{
    match field {
        1 => always(14, Rule::Plain(17, 16_381)), // maker
        2 => any(15), // model
        3 => always(5, Rule::Plain(1, 26)), // letter
        4 => any(6), // version
        _ => any(24), // serial
    }
}

// The rows of template 33.
pub fn bridge_row(precision: u64, field: u64) -> Row
    requires { (length basic < field) × (field ≤ last_field Template.Bridge) }
    ensures { result ≡ (line_of Template.Bridge field).row_at precision }
{
    match field {
        6 => always(6, Rule::Plain(0, 45)), // measurand
        7 => optional(32, Rule::Single), // least physical
        8 => optional(32, Rule::Single), // greatest physical
        9 => always(2, Rule::Plain(0, 2)), // precision
        10 => bridge_end(precision), // least electrical
        11 => bridge_end(precision), // greatest electrical
        12 => always(2, Rule::Plain(0, 2)), // bridge
        13 => optional(18, Rule::Stepped(10, 1)), // impedance
        14 => scaled(Scale::ResponseTime), // response
        15 => optional(9, Rule::Stepped(1, 1)), // excitation nominal
        16 => optional(9, Rule::Stepped(1, 1)), // excitation least
        17 => optional(9, Rule::Stepped(1, 1)), // excitation greatest
        18 => optional(16, Rule::Plain(0, 65_534)), // date
        19 => any(15), // initials
        20 => any(12), // period
        _ => any(11), // location
    }
}

// The rows of template 32.
pub fn resistance_row(precision: u64, field: u64) -> Row
    requires { (length basic < field) × (field ≤ last_field Template.Resistance) }
    ensures { result ≡ (line_of Template.Resistance field).row_at precision }
{
    match field {
        6 => always(6, Rule::Plain(0, 45)), // measurand
        7 => optional(32, Rule::Single), // least physical
        8 => optional(32, Rule::Single), // greatest physical
        9 => any(2), // precision
        10 => resistance_end(precision), // least electrical
        11 => resistance_end(precision), // greatest electrical
        12 => any(2), // mapping
        13 => scaled(Scale::ResponseTime), // response
        14 => scaled(Scale::Current), // current nominal
        15 => scaled(Scale::Current), // current greatest
        16 => optional(16, Rule::Plain(0, 65_534)), // date
        17 => any(15), // initials
        18 => any(12), // period
        _ => any(11), // location
    }
}

// The row of a field, counted from 1.
#[inline(always)]
pub fn row_of(layout: Layout, field: u64) -> Row
    requires { (1 ≤ field) × (field ≤ last_field layout.template) }
    ensures { result ≡ row_of layout field }
{
    if field <= basic_fields() {
        return basic_row(field);
    }
    let template = layout.template;
    match template {
        Template::Bridge => bridge_row(layout.precision, field),
        Template::Resistance => resistance_row(layout.precision, field),
    }
}

// The last field of Basic that can refuse a code: later ones take every code.
pub fn basic_closed() -> u64
    ensures { (result ≤ length basic) × ((template : Template) → OpenBehind template result (length basic)) }
{
    3
}

// The last field of a template that can refuse a code. It is never the template's last field.
pub fn last_closed(template: Template) -> u64
    ensures { (result < last_field template) × OpenBehind template result (last_field template) }
{
    match template {
        Template::Bridge => 12,
        Template::Resistance => 11,
    }
}

// The bits before a field of template 33, or before the ending, without the electrical
// values. Constants, so that a field is found without adding up those before it.
fn bridge_bits(field: u64) -> u64
    requires { (1 ≤ field) × (field ≤ 22) }
    ensures { ((precision : ℕ) → bits_before (lines_of Template.Bridge) precision (field - 1) ≡ result + min (field - 10) 2 * (bridge_end precision).width) × (result ≤ 243) }
{
    match field {
        1 => 0,
        2 => 14,
        3 => 29,
        4 => 34,
        5 => 40,
        6 => 64,
        7 => 70,
        8 => 102,
        9 => 134,
        10 => 136,
        11 => 136,
        12 => 136,
        13 => 138,
        14 => 156,
        15 => 162,
        16 => 171,
        17 => 180,
        18 => 189,
        19 => 205,
        20 => 220,
        21 => 232,
        _ => 243,
    }
}

// The bits before a field of template 32, or before the ending, without the electrical values.
fn resistance_bits(field: u64) -> u64
    requires { (1 ≤ field) × (field ≤ 20) }
    ensures { ((precision : ℕ) → bits_before (lines_of Template.Resistance) precision (field - 1) ≡ result + min (field - 10) 2 * (resistance_end precision).width) × (result ≤ 214) }
{
    match field {
        1 => 0,
        2 => 14,
        3 => 29,
        4 => 34,
        5 => 40,
        6 => 64,
        7 => 70,
        8 => 102,
        9 => 134,
        10 => 136,
        11 => 136,
        12 => 136,
        13 => 138,
        14 => 144,
        15 => 152,
        16 => 160,
        17 => 176,
        18 => 191,
        19 => 203,
        _ => 214,
    }
}

// The bits before a field that belong to the electrical values, fields 10 and 11 of each template.
fn ends_before(width: u64, field: u64) -> u64
    requires { width ≤ 32 }
    ensures { (result ≡ min (field - 10) 2 * width) × (result ≤ 64) }
{
    if field < 11 {
        return 0;
    }
    if field < 12 {
        return width;
    }
    2 * width
}

// The bits of the fields before a field, counted from 1, or before the ending.
pub fn bits_before(layout: Layout, field: u64) -> u64
    requires { (1 ≤ field) × (field ≤ ending layout.template) }
    ensures { result ≡ bits_before (lines_of layout.template) layout.precision (field - 1) }
{
    let template = layout.template;
    match template {
        Template::Bridge => bridge_bits(field)
            + ends_before(bridge_end(layout.precision).width, field),
        Template::Resistance => resistance_bits(field)
            + ends_before(resistance_end(layout.precision).width, field),
    }
}

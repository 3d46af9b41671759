// A sheet line by line: its template, its fields, its calibration
// table or curve, its ending, its bits, the small dash.
ghost use Rattle.std.specs.Prelude.{◌≡◌};
ghost use Rattle.listing.specs.Listing.{taken};

use crate::naming::print_name;
use crate::output::{put, put_character, put_figure, put_number};
use crate::parts;
use crate::parts::{Item, Part};
use crate::reasons::refused;
use crate::singles::print_single;
use crate::values::print_value;
use codes::Value;
use reading::{Dash, Reading};
use refusal::Refusal;
use sheet::Summary;
use std::io::Write;
use templates::{Domain, Pair, Segment, Template, Term};

// Prints a field's line, or its refusal's; the numbers are in two columns.
fn print_field(
    out: &mut impl Write,
    template: Template,
    field: u64,
    answer: Result<Value, Refusal>,
) {
    match answer {
        Err(r) => refused(out, r),
        Ok(value) => {
            if field < 10 {
                put(out, b" ");
            }
            put_number(out, field);
            put(out, b" ");
            print_name(out, template, field);
            put(out, b": ");
            print_value(out, template, field, value);
            put(out, b"\n");
        }
    }
}

// Prints a calibration point's line, in billionths of the span, or its refusal's.
fn print_point(out: &mut impl Write, index: u64, answer: Result<Pair, Refusal>) {
    match answer {
        Err(r) => refused(out, r),
        Ok(pair) => {
            put(out, b"point ");
            put_number(out, index);
            put(out, b": ");
            put_figure(out, pair.point);
            put(out, b", deviation ");
            put_figure(out, pair.deviation);
            put(out, b" (billionths of the span)\n");
        }
    }
}

// Prints a segment's line, or its refusal's.
fn print_segment(out: &mut impl Write, index: u64, answer: Result<Segment, Refusal>) {
    match answer {
        Err(r) => refused(out, r),
        Ok(segment) => {
            put(out, b"segment ");
            put_number(out, index);
            put(out, b": from ");
            put_figure(out, segment.start);
            put(out, b" (billionths of the span), terms ");
            put_number(out, segment.terms);
            put(out, b"\n");
        }
    }
}

// Prints a term's line, or its refusal's.
fn print_term(out: &mut impl Write, index: u64, answer: Result<Term, Refusal>) {
    match answer {
        Err(r) => refused(out, r),
        Ok(term) => {
            put(out, b"term ");
            put_number(out, index);
            put(out, b": power ");
            put_figure(out, term.exponent);
            put(out, b", coefficient ");
            print_single(out, term.coefficient);
            put(out, b"\n");
        }
    }
}

// Prints a character of the closing text, or its refusal's line.
fn print_character(out: &mut impl Write, answer: Result<u8, Refusal>) {
    match answer {
        Err(r) => refused(out, r),
        Ok(character) => put_character(out, character),
    }
}

fn print_item(out: &mut impl Write, template: Template, number: u64, item: Item) {
    match item {
        Item::Field(answer) => print_field(out, template, number, answer),
        Item::Point(answer) => print_point(out, number, answer),
        Item::Segment(answer) => print_segment(out, number, answer),
        Item::Term(answer) => print_term(out, number, answer),
        Item::Character(answer) => print_character(out, answer),
    }
}

// Prints the items of a part.
fn print_part(out: &mut impl Write, kind: u8, image: &[u8], summary: Summary, part: Part) {
    let template = summary.template;
    let numbers = parts::numbers_of(part, summary);
    for number in numbers.first..numbers.end {
        let item = parts::item_of(kind, image, part, number);
        print_item(out, template, number, item);
    }
}

// Prints the domain and the calibration points; nothing without a table.
fn print_points(out: &mut impl Write, kind: u8, image: &[u8], summary: Summary) {
    let table = summary.domain;
    let Some(domain) = table else {
        return;
    };
    match domain {
        Domain::Electrical => put(out, b"domain: 0 (electrical)\n"),
        Domain::Physical => put(out, b"domain: 1 (physical)\n"),
    }
    print_part(out, kind, image, summary, Part::Points);
}

// Prints the end bit, and the closing text if there is one.
fn print_ending(out: &mut impl Write, kind: u8, image: &[u8], summary: Summary) {
    if summary.end_bit {
        put(out, b"end bit: 1\ntext: \"");
        print_part(out, kind, image, summary, Part::Characters);
        put(out, b"\"\n");
        return;
    }
    put(out, b"end bit: 0\nno text\n");
}

// Whether a dash with this answer takes the sheet's points.
fn takes(answer: Result<Reading, Refusal>) -> bool
    ensures { result ≡ taken (answer) }
{
    let Err(r) = answer else {
        return true;
    };
    !matches!(r, Refusal::TooManyPoints(_))
}

// Prints whether the small dash takes the sheet, at
// any input. No dash takes a reading from template 32.
fn print_small_dash(out: &mut impl Write, kind: u8, image: &[u8], template: Template) {
    match template {
        Template::Resistance => {}
        Template::Bridge => {
            if takes(reading::take_reading(kind, image, 0, Dash::Small)) {
                return put(out, b"small dash: takes it\n");
            }
            put(out, b"small dash: does not take it (more than 32 points)\n");
        }
    }
}

// Prints the whole sheet of an image, or the check's refusal. A line each: the
// template, the fields, the domain and the points of a table or the segments and
// terms of a curve. Then the ending, the bits up to the end, and the small dash.
pub fn show(out: &mut impl Write, kind: u8, image: &[u8]) {
    match sheet::check(kind, image) {
        Err(r) => refused(out, r),
        Ok(summary) => {
            let template = summary.template;
            put(out, b"template: ");
            put_number(out, templates::template_number(template));
            put(out, b"\n");
            print_part(out, kind, image, summary, Part::Fields);
            print_points(out, kind, image, summary);
            print_part(out, kind, image, summary, Part::Segments);
            print_part(out, kind, image, summary, Part::Terms);
            print_ending(out, kind, image, summary);
            put(out, b"bits: ");
            put_number(out, summary.bits);
            put(out, b"\n");
            print_small_dash(out, kind, image, template);
        }
    }
}

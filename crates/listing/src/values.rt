// A field's value in its unit, or as text.
ghost use Rattle.std.specs.Prelude.{◌≡◌};
ghost use Rattle.listing.specs.Texts.{date_field, form_of, text_field};

use crate::naming::{print_case, print_single_unit, print_unit};
use crate::output::{put, put_figure};
use crate::singles::print_single;
use codes::Value;
use integers::plus;
use std::io::Write;
use templates::Template;

// The field of the calibration date; the initials are the next.
fn date_field(template: Template) -> u64
    ensures { result ≡ date_field template }
{
    match template {
        Template::Bridge => 18,
        Template::Resistance => 16,
    }
}

// The number that a field's text is requested by: 3, 18
// for a date, 19 for initials; 0 if a field has none.
fn text_field(template: Template, field: u64) -> u64
    ensures { result ≡ text_field template field }
{
    let date = date_field(template);
    if field == 3 {
        return 3;
    }
    if field == date {
        return 18;
    }
    if field == date + 1 {
        return 19;
    }
    0
}

// Prints the text of a code of field 3, 18 or 19, or the code itself if it has none.
fn print_text(out: &mut impl Write, field: u64, figure: i64) {
    match texts::text_of(field, plus(figure)) {
        Ok(text) => put(
            out,
            console_words::front(&text.characters, text.length as usize),
        ),
        Err(_) => put_figure(out, figure),
    }
}

// How a field's value is shown: as text, as a figure with a name or a unit, as a Single with a unit, or as missing.
#[derive(Clone, Copy)]
pub enum Form {
    Text(u64, i64),
    Named(i64),
    Figure(i64),
    Single(f32),
    Missing,
}

// Field 12, the bridge type or the mapping method, has names.
fn form_of(template: Template, field: u64, value: Value) -> Form
    ensures { result ≡ form_of template field value }
{
    match value {
        Value::Missing => Form::Missing,
        Value::Single(x) => Form::Single(x),
        Value::Whole(figure) => {
            let requested = text_field(template, field);
            if requested != 0 {
                return Form::Text(requested, figure);
            }
            if field == 12 {
                return Form::Named(figure);
            }
            Form::Figure(figure)
        }
    }
}

// Prints the value of a field.
pub fn print_value(out: &mut impl Write, template: Template, field: u64, value: Value) {
    match form_of(template, field, value) {
        Form::Text(requested, figure) => print_text(out, requested, figure),
        Form::Named(figure) => {
            put_figure(out, figure);
            print_case(out, template, plus(figure));
        }
        Form::Figure(figure) => {
            put_figure(out, figure);
            print_unit(out, template, field);
        }
        Form::Single(x) => {
            print_single(out, x);
            print_single_unit(out, template, field);
        }
        Form::Missing => put(out, b"missing"),
    }
}

// All fields of an opened sheet.
ghost use Rattle.std.specs.Prelude.{◌≡◌, ℕ};
ghost use Rattle.refusal.specs.Outcome.{Ok, Err};
ghost use Rattle.layout.specs.Contents.{Contents};
ghost use Rattle.sheet.specs.Opened.{Opens, Held};
ghost use Rattle.dartelm.specs.Answers.{struct_by};
ghost use Rattle.dartelm.specs.Sheets.{sheet_answer, field_numbers, no_fields};
ghost use Rattle.dartelm.specs.Found.{found_fields};

use crate::answers::{DartelmSheetAnswer, domain_number};
use crate::values::{DartelmFields, by_flags, no_value, template_flag};
use refusal::Refusal;
use sheet::{Opened, value_in};

// The check's summary, and the values of all fields in order.
pub fn sheet_in(sheet: Opened, image: &[u8]) -> DartelmSheetAnswer
    requires { Held sheet image.now }
    ensures { (kind : ℕ) (c : Contents) → Opens kind image.now sheet c → result ≡ struct_by sheet_answer field_numbers no_fields (Ok (found_fields c)) }
{
    let layout = sheet.layout;
    let template = layout.template;
    let count = templates::last_field(template);
    let mut values = [no_value(); 21];
    let mut at: usize = 0;
    while at < count as usize {
        values[at] = by_flags(value_in(sheet, image, at as u64 + 1));
        at += 1;
    }
    let summary = sheet.summary;
    let domain = summary.domain;
    let fields = DartelmFields {
        values,
        end_bit: summary.end_bit as u8,
        level: 0,
        unused: 0,
        is_resistance: template_flag(template),
    };
    DartelmSheetAnswer {
        number: 0,
        place: 0,
        bits: summary.bits,
        points: summary.points,
        characters: summary.characters,
        field_count: count,
        fields,
        domain: domain_number(domain),
        segments: summary.segments,
        terms: summary.terms,
    }
}

// The answer for a refusal: zeros for values.
pub fn no_sheet(r: Refusal) -> DartelmSheetAnswer
    ensures { result ≡ struct_by sheet_answer field_numbers no_fields (Err r) }
{
    let fields = DartelmFields {
        values: [no_value(); 21],
        end_bit: 0,
        level: 0,
        unused: 0,
        is_resistance: 0,
    };
    DartelmSheetAnswer {
        number: r.number(),
        place: r.place(),
        bits: 0,
        points: 0,
        characters: 0,
        field_count: 0,
        fields,
        domain: 0,
        segments: 0,
        terms: 0,
    }
}

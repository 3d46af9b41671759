// The fields' names, from document 000 (Basic TEDS, template 33 with
// its table A.10, template 32 with its table A.9), and their units.
use crate::output::put_entry;
use std::io::Write;
use templates::Template;

// Row f describes field f of every template: `name; unit of a whole
// number; unit of a Single`, the units by documents 01 and 02. Row 0
// is no field. The units of fields 7 and 8 depend on the measurand.
const COMMON: [u8; 184] = *b"no field\n\
    manufacturer ID\n\
    model number\n\
    version letter\n\
    version number\n\
    serial number\n\
    physical measurand\n\
    minimum physical value\n\
    maximum physical value\n\
    full-scale electrical value precision";

// The first field that differs between templates.
const OWN: u64 = 10;

// Rows of template 33, from field 10 on.
const BRIDGE: [u8; 334] = *b"minimum electrical value; nV/V; V/V\n\
    maximum electrical value; nV/V; V/V\n\
    bridge type\n\
    bridge element impedance; x 0.1 ohm\n\
    response time; x 10 ns\n\
    excitation level, nominal; x 0.1 V\n\
    excitation level, minimum; x 0.1 V\n\
    excitation level, maximum; x 0.1 V\n\
    calibration date\n\
    calibration initials\n\
    calibration period; days\n\
    measurement location ID";

// Rows of template 32, from field 10 on.
const RESISTANCE: [u8; 270] = *b"minimum electrical value; ohm; ohm\n\
    maximum electrical value; ohm; ohm\n\
    mapping method\n\
    response time; x 10 ns\n\
    excitation current, nominal; x 0.1 nA\n\
    excitation current, maximum; x 0.1 nA\n\
    calibration date\n\
    calibration initials\n\
    calibration period; days\n\
    measurement location ID";

// Prints a column of a field's row.
fn print_column(out: &mut impl Write, template: Template, field: u64, column: u64) {
    if field < OWN {
        return put_entry(out, &COMMON, field, column);
    }
    match template {
        Template::Bridge => put_entry(out, &BRIDGE, field - OWN, column),
        Template::Resistance => put_entry(out, &RESISTANCE, field - OWN, column),
    }
}

// Prints the name of a field, counted from 1.
pub fn print_name(out: &mut impl Write, template: Template, field: u64) {
    print_column(out, template, field, 0);
}

// Prints the unit of a field's whole number.
pub fn print_unit(out: &mut impl Write, template: Template, field: u64) {
    print_column(out, template, field, 1);
}

// Prints the unit of a field's Single.
pub fn print_single_unit(out: &mut impl Write, template: Template, field: u64) {
    print_column(out, template, field, 2);
}

// Prints the name of a code of field 12: a bridge type, or a mapping method.
pub fn print_case(out: &mut impl Write, template: Template, code: u64) {
    match template {
        Template::Bridge => put_entry(out, b" (quarter)\n (half)\n (full)", code, 0),
        Template::Resistance => put_entry(
            out,
            b" (linear)\n (inverse m/(x+b))\n (inverse b+m/x)\n (inverse 1/(b+m/x))",
            code,
            0,
        ),
    }
}

// A field's value by two flags, and the values of a sheet, as
// C passes and receives them. A flag is yes if it is not 0.
ghost use Rattle.std.specs.Prelude.{◌≡◌, map};
ghost use Rattle.build.specs.Tested.{LentLengths, SplitValues};
ghost use Rattle.dartelm.specs.Values.{yes, level_of, template_by, template_flag, options_of, dash_by, value_of, by_flags, no_value, slot_of};

use build::Options;
use codes::Value;
use reading::Dash;
use templates::{Domain, Level, Template};

// Missing if `is_missing` is yes, else a Single if `is_single` is,
// else a whole number. A returned value has 0 in every other member.
#[repr(C)]
#[derive(Clone, Copy)]
pub struct DartelmValue {
    pub whole: i64,
    pub single: f32,
    pub is_single: u8,
    pub is_missing: u8,
}

// The sheet record of C:
// - the values of a template's fields from 1 on; those after the template's last field are ignored;
// - the end bit, a flag;
// - the writer's level, which a build neither tests nor stores;
// - a byte that is ignored and returned as 0;
// - whether the template is 32, a flag.
#[repr(C)]
#[derive(Clone, Copy)]
pub struct DartelmFields {
    pub values: [DartelmValue; 21],
    pub end_bit: u8,
    pub level: u8,
    pub unused: u8,
    pub is_resistance: u8,
}

// Whether a flag from C is yes.
fn is_yes(given: u8) -> bool
    ensures { result ≡ yes given }
{
    given != 0
}

// A level from C: 0 owner, 1 calibration room, 2 maker; any other is the owner, the lowest.
pub fn level_of(given: u8) -> Level
    ensures { result ≡ level_of given }
{
    match given {
        1 => Level::CalibrationRoom,
        2 => Level::Maker,
        _ => Level::Owner,
    }
}

// A template from C, by a flag: two cases, "so that no third can be handed in".
pub fn template_of(is_resistance: u8) -> Template
    ensures { result ≡ template_by is_resistance }
{
    if is_resistance == 0 {
        return Template::Bridge;
    }
    Template::Resistance
}

// What a build takes beside the values, from the flags of C.
pub fn options_of(is_resistance: u8, end_bit: u8, domain: Domain) -> Options
    ensures { result ≡ options_of is_resistance end_bit domain }
{
    Options {
        template: template_of(is_resistance),
        end_bit: is_yes(end_bit),
        domain,
    }
}

// The flag of a template, for C.
pub fn template_flag(template: Template) -> u8
    ensures { result ≡ template_flag template }
{
    match template {
        Template::Bridge => 0,
        Template::Resistance => 1,
    }
}

// A dash from C: 0 is the large one, any other the small one.
pub fn dash_of(given: u8) -> Dash
    ensures { result ≡ dash_by given }
{
    if given == 0 {
        return Dash::Large;
    }
    Dash::Small
}

// A value from C.
pub fn value_of(given: DartelmValue) -> Value
    ensures { result ≡ value_of given }
{
    if given.is_missing != 0 {
        return Value::Missing;
    }
    if given.is_single != 0 {
        return Value::Single(given.single);
    }
    Value::Whole(given.whole)
}

// A value for C.
pub fn by_flags(value: Value) -> DartelmValue
    ensures { result ≡ by_flags value }
{
    match value {
        Value::Whole(whole) => DartelmValue {
            whole,
            single: 0.0,
            is_single: 0,
            is_missing: 0,
        },
        Value::Single(single) => DartelmValue {
            whole: 0,
            single,
            is_single: 1,
            is_missing: 0,
        },
        Value::Missing => DartelmValue {
            whole: 0,
            single: 0.0,
            is_single: 0,
            is_missing: 1,
        },
    }
}

// Zeros, in place of a value.
pub fn no_value() -> DartelmValue
    ensures { result ≡ no_value }
{
    DartelmValue {
        whole: 0,
        single: 0.0,
        is_single: 0,
        is_missing: 0,
    }
}

// The values from C, as sorts, whole numbers and Singles.
pub fn split_values(given: DartelmFields, tags: &mut [u8], wholes: &mut [i64], singles: &mut [f32])
    requires { LentLengths tags.old wholes.old singles.old }
    ensures { SplitValues (map slot_of given.values) tags.new wholes.new singles.new }
{
    let mut i: usize = 0;
    while i < 21 {
        let value = given.values[i];
        if value.is_missing != 0 {
            tags[i] = 2;
        } else if value.is_single != 0 {
            tags[i] = 1;
            singles[i] = value.single;
        } else {
            let whole = value.whole;
            tags[i] = 0;
            wholes[i] = whole;
        }
        i += 1;
    }
}

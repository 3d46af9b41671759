// Documents 01 and 02: build an image from a sheet, a text, and calibration points or a
// curve. `build` and `build_curve` have no `requires`, and a refusal writes to no buffer.
// `build_lent` and `build_curve_lent`, for firmware, require 21 values in each of their
// three lists. Lent is document 01's term: passed as a slice for the time of the call.
#![tactic(auto)]

mod building; // building.rt: an image from a sheet
mod curve_plan; // curve_plan.rt: what a build tests of a curve
mod list; // list.rt: the list of codes that a build fills
mod plan; // plan.rt: what a build tests before it writes
mod write; // write.rt: what a build writes

pub use building::{build, build_curve, build_curve_lent, build_lent};
use codes::Value;
pub use plan::{check_points, is_wrong_list};
use templates::{Domain, Level, Template};

// A field's value in the sheet record: a struct can't hold an
// array of enums, but it can hold one of structs with an enum.
#[derive(Clone, Copy)]
pub struct Slot {
    pub value: Value,
}

// The sheet record: the template of the first block, the values of its fields, the end bit, and
// the writer's level, which a build neither tests nor stores. It has room for as many fields as
// any template has; later slots are ignored. The text of the ending is lent beside it.
#[derive(Clone, Copy)]
pub struct Sheet {
    pub template: Template,
    pub fields: [Slot; 21],
    pub end_bit: bool,
    pub level: Level,
}

// What a build takes beside the lent values: the template of the first block, the end bit, and the
// domain of the points. An empty list and a curve have no domain, and the one passed is ignored.
#[derive(Clone, Copy)]
pub struct Options {
    pub template: Template,
    pub end_bit: bool,
    pub domain: Domain,
}

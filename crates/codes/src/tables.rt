// Document 01, "Geometric", and document 02, Note 7: the values of the codes of a progression,
// and the code that a figure is stored at. Reading a constant array at a variable index builds
// it on the stack, so each call builds its table once and passes it on as a slice.
ghost use Rattle.std.specs.Prelude.{◌≡◌, true, false, cond, ◌-◌, ◌^◌, ◌≤◌, ◌<◌, pos, length};
ghost use Rattle.codes.specs.Rules.{top_code, progression, scale_width, geometric_value, goes_up, stored_at};
ghost use Rattle.codes.specs.Tables.{listed, RisingList, TableOf};

use crate::Scale;

// Response times, in 10 ns: 100 × 1.292^code to the nearest, for codes 0 to 62.
const RESPONSE_TIMES: [u32; 63] = [
    100, 129, 167, 216, 279, 360, 465, 601, 776, 1003, 1296, 1675, 2163, 2795, 3611, 4666, 6028,
    7789, 10063, 13001, 16798, 21703, 28040, 36227, 46806, 60473, 78131, 100946, 130422, 168505,
    217709, 281279, 363413, 469530, 606632, 783769, 1012629, 1308317, 1690346, 2183927, 2821633,
    3645550, 4710051, 6085385, 7862318, 10158115, 13124284, 16956575, 21907895, 28305001, 36570061,
    47248519, 61045086, 78870251, 101900365, 131655271, 170098610, 219767404, 283939486, 366849816,
    473969963, 612369192, 791180996,
];

// Excitation currents, in tenths of a nanoampere: 10,000 ×
// 1.0471285480509^code to the nearest, for codes 0 to 254.
const CURRENTS: [u32; 255] = [
    10000, 10471, 10965, 11482, 12023, 12589, 13183, 13804, 14454, 15136, 15849, 16596, 17378,
    18197, 19055, 19953, 20893, 21878, 22909, 23988, 25119, 26303, 27542, 28840, 30200, 31623,
    33113, 34674, 36308, 38019, 39811, 41687, 43652, 45709, 47863, 50119, 52481, 54954, 57544,
    60256, 63096, 66069, 69183, 72444, 75858, 79433, 83176, 87096, 91201, 95499, 100000, 104713,
    109648, 114815, 120226, 125893, 131826, 138038, 144544, 151356, 158489, 165959, 173780, 181970,
    190546, 199526, 208930, 218776, 229087, 239883, 251189, 263027, 275423, 288403, 301995, 316228,
    331131, 346737, 363078, 380189, 398107, 416869, 436516, 457088, 478630, 501187, 524807, 549541,
    575440, 602560, 630957, 660693, 691831, 724436, 758578, 794328, 831764, 870964, 912011, 954993,
    1000000, 1047129, 1096478, 1148154, 1202264, 1258925, 1318257, 1380384, 1445440, 1513561,
    1584893, 1659587, 1737801, 1819701, 1905461, 1995262, 2089296, 2187762, 2290868, 2398833,
    2511886, 2630268, 2754229, 2884032, 3019952, 3162278, 3311311, 3467369, 3630781, 3801894,
    3981072, 4168694, 4365158, 4570882, 4786301, 5011872, 5248075, 5495409, 5754399, 6025596,
    6309573, 6606934, 6918310, 7244360, 7585776, 7943282, 8317638, 8709636, 9120108, 9549926,
    10000000, 10471285, 10964782, 11481536, 12022644, 12589254, 13182567, 13803843, 14454398,
    15135612, 15848932, 16595869, 17378008, 18197009, 19054607, 19952623, 20892961, 21877616,
    22908677, 23988329, 25118864, 26302680, 27542287, 28840315, 30199517, 31622777, 33113112,
    34673685, 36307805, 38018940, 39810717, 41686938, 43651583, 45708819, 47863009, 50118723,
    52480746, 54954087, 57543994, 60255959, 63095734, 66069345, 69183097, 72443596, 75857758,
    79432823, 83176377, 87096359, 91201084, 95499259, 100000000, 104712855, 109647820, 114815362,
    120226443, 125892541, 131825674, 138038426, 144543977, 151356125, 158489319, 165958691,
    173780083, 181970086, 190546072, 199526231, 208929613, 218776162, 229086765, 239883292,
    251188643, 263026799, 275422870, 288403150, 301995172, 316227766, 331131121, 346736850,
    363078055, 380189396, 398107171, 416869383, 436515832, 457088190, 478630092, 501187234,
    524807460, 549540874, 575439937, 602559586, 630957344, 660693448, 691830971, 724435960,
    758577575, 794328235, 831763771, 870963590, 912010839, 954992586, 1000000000, 1047128548,
    1096478196, 1148153621, 1202264435,
];

// Each function returns the table of its scale, proved by one computed test over all entries.
fn response_times() -> [u32; 63]
    ensures { TableOf Scale.ResponseTime result }
{
    RESPONSE_TIMES
}

fn currents() -> [u32; 255]
    ensures { TableOf Scale.Current result }
{
    CURRENTS
}

// ---- over any table

// An entry or a figure in 64 bits.
fn wide(x: u32) -> u64
    ensures { result ≡ x }
{
    x as u64
}

// The value of a code.
fn value_in(values: &[u32], code: u64) -> u64
    requires { code < length values.now }
    ensures { (result ≡ listed values.now code) × (result < 2 ^ 32) }
{
    values[code as usize] as u64
}

// The storing rule: whether a figure between two neighbours
// goes up to b. The product of two numbers of 32 bits fits 64.
fn goes_up(a: u32, b: u32, figure: u32) -> bool
    ensures { result ≡ goes_up a b figure }
{
    wide(a) * wide(b) <= wide(figure) * wide(figure)
}

// The code that a figure is stored at, for a figure not above the last value. A binary
// search: a figure that does not go up to a code does not go up to a later one.
fn stored_in(values: &[u32], figure: u64) -> u64
    requires { RisingList values.now × (figure ≤ listed values.now (length values.now - 1)) }
    ensures { let table = values.now in result ≡ stored_at (listed table) (length table - 1) figure }
{
    let w = figure as u32;
    let mut low = 0;
    let mut high = values.len() - 1;
    while low < high {
        let middle = (low + high) / 2;
        if goes_up(values[middle], values[middle + 1], w) {
            low = middle + 1;
        } else {
            high = middle;
        }
    }
    low as u64
}

// The value of a code, or the code that a figure is stored at.
fn found_in(values: &[u32], stores: bool, n: u64) -> u64
    requires { (stores ≡ false → n < length values.now) × RisingList values.now × (stores ≡ true → n ≤ listed values.now (length values.now - 1)) }
    ensures { let table = values.now in (result ≡ cond stores (stored_at (listed table) (length table - 1) n) (listed table n)) × (stores ≡ false → result < 2 ^ 32) }
{
    if stores {
        return stored_in(values, n);
    }
    value_in(values, n)
}

// ---- by scale

// The one function that builds a table, so that a caller of two has one of them on its stack.
fn found(scale: Scale, stores: bool, n: u64) -> u64
    requires { (stores ≡ false → n ≤ top_code (scale_width scale)) × (stores ≡ true → n ≤ geometric_value (progression scale) (top_code (scale_width scale))) }
    ensures { let value = geometric_value (progression scale) in (result ≡ cond stores (stored_at value (top_code (scale_width scale)) n) (value n)) × (stores ≡ false → result < 2 ^ 32) }
{
    match scale {
        Scale::ResponseTime => found_in(&response_times(), stores, n),
        Scale::Current => found_in(&currents(), stores, n),
    }
}

// The value of a code.
pub fn scale_value(scale: Scale, code: u64) -> i64
    requires { code ≤ top_code (scale_width scale) }
    ensures { result ≡ pos (geometric_value (progression scale) code) }
{
    found(scale, false, code) as i64
}

// The least value of a scale, read without its table.
pub fn least_value(scale: Scale) -> i64
    ensures { result ≡ pos (geometric_value (progression scale) 0) }
{
    match scale {
        Scale::ResponseTime => RESPONSE_TIMES[0] as i64,
        Scale::Current => CURRENTS[0] as i64,
    }
}

// The greatest value of a scale, read without its table.
pub fn greatest_value(scale: Scale) -> i64
    ensures { result ≡ pos (geometric_value (progression scale) (top_code (scale_width scale))) }
{
    match scale {
        Scale::ResponseTime => RESPONSE_TIMES[62] as i64,
        Scale::Current => CURRENTS[254] as i64,
    }
}

// The code that a figure is stored at, for a figure not above the greatest value.
pub fn stored_code(scale: Scale, figure: u64) -> u64
    requires { figure ≤ geometric_value (progression scale) (top_code (scale_width scale)) }
    ensures { result ≡ stored_at (geometric_value (progression scale)) (top_code (scale_width scale)) figure }
{
    found(scale, true, figure)
}

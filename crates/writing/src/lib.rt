// Writes an image to a chip one row of 8 bytes at a time, so that a chip pulled out
// halfway is refused. `next_row` computes the next row from what the chip holds and
// what it shall hold. Nothing is kept between calls, and `next_row` has no `requires`.
#![tactic(auto)]

ghost use Rattle.std.specs.Prelude.{◌≡◌, ◌+◌, ◌^◌, ◌<◌, ◌≤◌, not, ◌&&◌, length, ◌==◌, nat_lt};
ghost use Rattle.memory.specs.Image.{page_sum};
ghost use Rattle.writing.specs.Steps.{covered_rows, adds_up, raise_by, one_page, several_pages, step, next_row};
ghost use Rattle.writing.specs.Answers.{answered, to_write, Fits};

mod rows; // rows.rt: rows, the rows that differ, and sums

use memory::Sizes;
use refusal::Refusal;
pub use rows::Row;

// The next row to write to a chip that holds `present`, so that it will hold `wanted`; `None`
// if it does. Else the check's refusal of `wanted`, or 1 for the length of `present`.
pub fn next_row(kind: u8, present: &[u8], wanted: &[u8]) -> Result<Option<Row>, Refusal>
    ensures { result ≡ answered (next_row kind present.now wanted.now) }
{
    sheet::check(kind, wanted)?;
    let sizes = memory::image_sizes(kind, present.len())?;
    Ok(next(sizes, present, wanted))
}

fn next(sizes: Sizes, present: &[u8], wanted: &[u8]) -> Option<Row>
    requires { Fits sizes present.now wanted.now }
    ensures { result ≡ to_write (step sizes present.now wanted.now) }
{
    if sizes.pages < 2 {
        return one_page(sizes, present, wanted);
    }
    several_pages(sizes, present, wanted)
}

fn one_page(sizes: Sizes, present: &[u8], wanted: &[u8]) -> Option<Row>
    requires { Fits sizes present.now wanted.now × (sizes.pages < 2) }
    ensures { result ≡ to_write (one_page sizes present.now wanted.now) }
{
    let tally = rows::tally_rows(sizes, present, wanted);
    if tally.rows == 0 {
        return None;
    }
    if tally.rows == 1 {
        return Some(rows::row_of(wanted, tally.last));
    }
    let sum = rows::first_sum(sizes, present);
    let ahead = rows::sum_with(sum, present, wanted, tally.other);
    let check = sizes.register;
    if adds_up(sum, ahead, 0) {
        return Some(rows::raised_row(present, check, raise_by(sum, ahead), check / 8));
    }
    Some(rows::row_of(wanted, tally.other))
}

fn adds_up(s: u8, t: u8, d: u8) -> bool
    ensures { result ≡ adds_up s t d }
{
    s.wrapping_add(d) == 0 || t.wrapping_add(d) == 0
}

fn raise_by(s: u8, t: u8) -> u8
    ensures { result ≡ raise_by s t }
{
    if adds_up(s, t, 1) {
        if adds_up(s, t, 2) {
            return 3;
        }
        return 2;
    }
    1
}

fn several_pages(sizes: Sizes, present: &[u8], wanted: &[u8]) -> Option<Row>
    requires { Fits sizes present.now wanted.now × (2 ≤ sizes.pages) }
    ensures { result ≡ to_write (several_pages sizes present.now wanted.now) }
{
    if present == wanted {
        return None;
    }
    let second = sizes.register + 32;
    let Some(last) = rows::last_raised(present, wanted, second) else {
        return Some(rows::row_of(wanted, second / 8));
    };
    if invalidate_first(sizes, present, last) {
        let check = sizes.register;
        return Some(rows::raised_row(present, check, 1, check / 8));
    }
    Some(rows::raised_row(wanted, second, 1, last))
}

// Whether page 0 adds up, and the row is after it.
fn invalidate_first(sizes: Sizes, present: &[u8], row: usize) -> bool
    requires { (sizes.register ≤ 8) × (sizes.register + 32 ≤ length present.now) }
    ensures { result ≡ (not (nat_lt row (covered_rows sizes)) && page_sum sizes present.now 0 == 0) }
{
    (sizes.register + 32) / 8 <= row && rows::first_sum(sizes, present) == 0
}

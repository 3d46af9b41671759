// Rows, the rows that differ, and page 0's sum.
ghost use Rattle.std.specs.Prelude.{◌≡◌, ◌+◌, ◌*◌, ◌/◌, ◌%◌, ◌^◌, ◌<◌, ◌≤◌, length, ◌==◌};
ghost use Rattle.memory.specs.Image.{total, page_sum};
ghost use Rattle.writing.specs.Steps.{row, rows, check_row, written, same, differs, raised};
ghost use Rattle.writing.specs.Answers.{Fits, row_at, tally_to, tallied, last_for};

use memory::Sizes;

// A row to be written: its offset in the image and its bytes.
#[derive(Clone, Copy)]
pub struct Row {
    pub offset: usize,
    pub bytes: [u8; 8],
}

// The rows that differ: their number, the last one, and the last one other than the check byte's.
#[derive(Clone, Copy)]
pub struct Tally {
    pub rows: usize,
    pub last: usize,
    pub other: usize,
}

// Row r of the image.
pub fn row_of(image: &[u8], r: usize) -> Row
    requires { 8 * r + 8 ≤ length image.now }
    ensures { result ≡ row_at r (row r image.now) }
{
    let offset = 8 * r;
    let mut bytes = [0u8; 8];
    bytes.copy_from_slice(&image[offset..offset + 8]);
    Row { offset, bytes }
}

// Row r of the image with the byte at offset `at` raised by d.
pub fn raised_row(image: &[u8], at: usize, d: u8, r: usize) -> Row
    requires { 8 * r + 8 ≤ length image.now }
    ensures { result ≡ row_at r (row r (raised image.now at d)) }
{
    let mut raised = row_of(image, r);
    if at / 8 == r {
        let k = at % 8;
        raised.bytes[k] = raised.bytes[k].wrapping_add(d);
    }
    raised
}

// Whether a row is equal in both images.
fn same_row(present: &[u8], wanted: &[u8], r: usize) -> bool
    requires { (8 * r + 8 ≤ length present.now) × (8 * r + 8 ≤ length wanted.now) }
    ensures { result ≡ same present.now wanted.now 8 (8 * r) }
{
    row_of(present, r).bytes == row_of(wanted, r).bytes
}

// Whether a row of `present` equals that of `wanted` with the byte at offset `at` raised by 1.
fn same_raised(present: &[u8], wanted: &[u8], at: usize, r: usize) -> bool
    requires { (8 * r + 8 ≤ length present.now) × (8 * r + 8 ≤ length wanted.now) }
    ensures { result ≡ same present.now (raised wanted.now at 1) 8 (8 * r) }
{
    row_of(present, r).bytes == raised_row(wanted, at, 1, r).bytes
}

// The last row of `present` that differs from `wanted` with the byte at offset `at` raised by 1.
pub fn last_raised(present: &[u8], wanted: &[u8], at: usize) -> Option<usize>
    requires { length present.now ≡ length wanted.now }
    ensures { result ≡ last_for (differs present.now (raised wanted.now at 1)) (length present.now / 8) }
{
    for r in (0..present.len() / 8).rev() {
        if !same_raised(present, wanted, at, r) {
            return Some(r);
        }
    }
    None
}

impl Tally {
    // The tally with one more row that differs, row r.
    fn with(self, r: usize, check: usize) -> Tally
        requires { self.rows < 2 ^ 63 }
        ensures { result ≡ tallied self r check }
    {
        Tally {
            rows: 1 + self.rows,
            last: r,
            other: if r == check { self.other } else { r },
        }
    }
}

// The rows of the two images that differ.
pub fn tally_rows(sizes: Sizes, present: &[u8], wanted: &[u8]) -> Tally
    requires { Fits sizes present.now wanted.now }
    ensures { result ≡ tally_to present.now wanted.now (check_row sizes) (rows sizes) }
{
    let check = sizes.register / 8;
    let mut tally = Tally {
        rows: 0,
        last: 0,
        other: 0,
    };
    for r in 0..present.len() / 8 {
        if !same_row(present, wanted, r) {
            tally = tally.with(r, check);
        }
    }
    tally
}

// The sum of the bytes that page 0's check byte covers.
pub fn first_sum(sizes: Sizes, image: &[u8]) -> u8
    requires { (sizes.register ≤ 8) × (sizes.register + 32 ≤ length image.now) }
    ensures { result ≡ page_sum sizes image.now 0 }
{
    let end = sizes.register + 32;
    memory::sum(&image[..end])
}

// The sum of `present` with one row as in `wanted`, from its own sum.
pub fn sum_with(own: u8, present: &[u8], wanted: &[u8], r: usize) -> u8
    requires { (own ≡ total present.now % 256) × (length wanted.now ≡ length present.now) × (8 * r + 8 ≤ length present.now) }
    ensures { result ≡ total (written r (row r wanted.now) present.now) % 256 }
{
    let at = 8 * r;
    let end = at + 8;
    let less = own.wrapping_sub(memory::sum(&present[at..end]));
    less.wrapping_add(memory::sum(&wanted[at..end]))
}

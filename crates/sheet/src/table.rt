// Block 40, the calibration table.
ghost use Rattle.std.specs.Prelude.{◌≡◌, true, ◌+◌, ◌*◌, ◌≤◌, length};
ghost use Rattle.std.specs.Prelude.{None};
ghost use Rattle.memory.specs.Image.{stream_bits};
ghost use Rattle.memory.specs.Answers.{WholeImage};
ghost use Rattle.layout.specs.Format.{parse};
ghost use Rattle.layout.specs.Contents.{codes_in, pair_of, pairs_of, table_of};
ghost use Rattle.layout.specs.Image.{stream_in};
ghost use Rattle.layout.specs.Places.{pair_bits};
ghost use Rattle.sheet.specs.Walk.{keeping, counts_of, table_from, behind, step_said};

use crate::block::Counts;
use crate::walk;
use memory::Sizes;
use refusal::Refusal;
use stream::Cursor;
use templates::{Codes, Domain};

// A pair after the one before it: 3 and 5 of the point,
// 3 and 5 of its deviation, then 7, and 22 in domain 1.
fn take_codes(
    sizes: Sizes,
    image: &[u8],
    cursor: Cursor,
    domain: Domain,
    before: Option<Codes>,
) -> Result<(Codes, Cursor), Refusal>
    requires { WholeImage sizes image.now }
    ensures { step_said result ≡ keeping codes_in (parse (stream_in sizes image.now) (pair_of domain (before)) cursor.at) }
{
    let (point, middle) = walk::take_code(sizes, image, cursor, templates::cal_point())?;
    let (deviation, next) = walk::take_code(sizes, image, middle, templates::cal_deviation())?;
    let codes = Codes {
        point: point as u16,
        deviation: deviation as u32,
    };
    templates::follows(domain, before, cursor.at as u64, codes)?;
    Ok((codes, next))
}

// Whether this many pairs inside the stream are all valid and rise. A pair
// is read as one field, the point's 16 bits lowest; all ones is not a
// value. `least` and `floor` are the least point and sum that may follow.
fn all_rise(sizes: Sizes, image: &[u8], start: Cursor, domain: Domain, count: u64) -> bool
    requires { WholeImage sizes image.now × (start.at + pair_bits * count ≤ stream_bits sizes) }
    ensures { result ≡ true → behind count (record { at = start.at + pair_bits * count }) ≡ keeping length (parse (stream_in sizes image.now) (pairs_of domain count None) start.at) }
{
    let mut cursor = start;
    let mut least: u64 = 0;
    let mut floor: u64 = 0;
    let mut left = count;
    while 0 < left {
        let read = cursor.read(sizes, image, layout::PAIR_BITS);
        let both = read.code;
        let point = both & 0xffff;
        let deviation = both >> templates::POINT_BITS;
        if point < least {
            return false;
        }
        if point == 0xffff {
            return false;
        }
        if deviation == 0x1f_ffff {
            return false;
        }
        if let Domain::Physical = domain {
            let sum = templates::sum_above(Codes {
                point: point as u16,
                deviation: deviation as u32,
            });
            if sum < floor {
                return false;
            }
            floor = sum + 1;
        }
        least = point + 1;
        cursor = read.next;
        left -= 1;
    }
    true
}

// Reads `count` pairs, one by one.
fn take_each(
    sizes: Sizes,
    image: &[u8],
    start: Cursor,
    domain: Domain,
    count: u64,
) -> Result<(u64, Cursor), Refusal>
    requires { WholeImage sizes image.now }
    ensures { step_said result ≡ keeping length (parse (stream_in sizes image.now) (pairs_of domain count None) start.at) }
{
    let mut cursor = start;
    let mut before = None;
    let mut left = count;
    while 0 < left {
        let (codes, next) = take_codes(sizes, image, cursor, domain, before)?;
        before = Some(codes);
        cursor = next;
        left -= 1;
    }
    Ok((count, cursor))
}

// Reads `count` pairs. Fast path: most tables rise, and `all_rise`
// is three times as fast; `take_each` finds the refusal of the rest.
fn take_pairs(
    sizes: Sizes,
    image: &[u8],
    start: Cursor,
    domain: Domain,
    count: u64,
) -> Result<(u64, Cursor), Refusal>
    requires { WholeImage sizes image.now }
    ensures { step_said result ≡ keeping length (parse (stream_in sizes image.now) (pairs_of domain count None) start.at) }
{
    let at = start.at;
    let bits = memory::stream_bits(sizes);
    if at <= bits {
        if count <= ((bits - at) / layout::PAIR_BITS) as u64 {
            if all_rise(sizes, image, start, domain, count) {
                let pairs = start.over(layout::PAIR_BITS * (count as usize));
                let end = pairs.next;
                return Ok((count, end));
            }
        }
    }
    take_each(sizes, image, start, domain, count)
}

// The counts of a table of this many pairs, in its domain.
fn take_listed(
    sizes: Sizes,
    image: &[u8],
    start: Cursor,
    domain: Domain,
    count: u64,
) -> Result<(Counts, Cursor), Refusal>
    requires { WholeImage sizes image.now }
    ensures { step_said result ≡ keeping counts_of (parse (stream_in sizes image.now) (table_from domain count) start.at) }
{
    let (n, end) = take_pairs(sizes, image, start, domain, count)?;
    let counts = Counts {
        domain: Some(domain),
        points: n,
        segments: 0,
        terms: 0,
    };
    Ok((counts, end))
}

// Block 40 after its template number: domain, count and pairs.
pub fn take_table(sizes: Sizes, image: &[u8], cursor: Cursor) -> Result<(Counts, Cursor), Refusal>
    requires { WholeImage sizes image.now }
    ensures { step_said result ≡ keeping counts_of (parse (stream_in sizes image.now) table_of cursor.at) }
{
    let (code, count) = walk::take_code(sizes, image, cursor, templates::cal_domain())?;
    let (n, pairs) = walk::take_code(sizes, image, count, templates::point_count())?;
    take_listed(sizes, image, pairs, templates::domain_of(code), n)
}

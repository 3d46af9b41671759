// Writes an image after all tests have passed: the codes of a list and the text
// into a cleared image, then every check byte. A function that writes some takes
// the cursor to write at, and returns the cursor after them. Adjacent codes
// are written as one field, the first in its lowest bits, which is faster.
ghost use Rattle.std.specs.Prelude.{◌≡◌, map, ℕ, min, ◌+◌, ◌*◌, ◌^◌, ◌≤◌, ◌<◌, length, get_or};
ghost use Rattle.std.proofs.Math.Seq.{slice};
ghost use Rattle.memory.specs.Image.{stream_bits, stream_number, image_of};
ghost use Rattle.memory.specs.Answers.{WholeImage};
ghost use Rattle.memory.specs.Pieces.{piece, pack, needed};
ghost use Rattle.templates.specs.Lines.{basic};
ghost use Rattle.layout.specs.Pieces.{block_pieces};
ghost use Rattle.build.specs.Build.{ending_pieces};
ghost use Rattle.build.specs.Listed.{field_piece, unpacked, Fit, coded_list, coded_sheet, Ready};
ghost use Rattle.build.specs.Filled.{Room, Filled, Begun};

use crate::list::{CODE_BITS, CODES, Listed};
use memory::Sizes;
use stream::Cursor;
use templates::Template;

// Writes the codes of a list from index `first` up to `end`, as many at a time as fit 49 bits.
fn lay_codes(
    sizes: Sizes,
    image: &mut [u8],
    start: Cursor,
    codes: &[u64],
    first: usize,
    end: usize,
) -> Cursor
    requires room { Room sizes image.old start (slice first end (map field_piece (unpacked codes.now))) }
    requires first_lt_end { (first < end) × (end ≤ length codes.now) × Fit (length codes.now) (unpacked codes.now) }
    ensures { Filled sizes image.old start (slice first end (map field_piece (unpacked codes.now))) image.new result }
{
    let mut cursor = start;
    let mut code: u64 = 0;
    let mut width: usize = 0;
    for i in first..end {
        let next = codes[i];
        let more = (next >> CODE_BITS) as usize;
        if width + more <= 49 {
            code |= (next & CODES) << width;
            width += more;
            continue;
        }
        cursor = cursor.append(sizes, image, width, code);
        code = next & CODES;
        width = more;
    }
    cursor.append(sizes, image, width, code)
}

// Writes a block's selector 0 and its template number.
fn lay_block(sizes: Sizes, image: &mut [u8], cursor: Cursor, number: u64) -> Cursor
    requires room { Room sizes image.old cursor (block_pieces number) }
    requires number_bound { number < 2 ^ 8 }
    ensures { Filled sizes image.old cursor (block_pieces number) image.new result }
{
    cursor.append(sizes, image, 10, number << 2)
}

// The characters from index i up to `end`, at most seven, as one code.
fn pack_characters(text: &[u8], i: usize, end: usize) -> u64
    requires { (i ≤ end) × (end ≤ i + 7) × (end ≤ length text.now) × ((j : ℕ) → get_or text.now j 0 < 128) }
    ensures { result ≡ pack (slice i end (map (piece 7) text.now)) }
{
    let mut code: u64 = 0;
    let mut j = end;
    while i < j {
        j -= 1;
        code = (code << 7) | text[j] as u64;
    }
    code
}

// Writes the text in 7-bit characters, seven at a time. The zero that ends it is already there.
fn lay_text(sizes: Sizes, image: &mut [u8], start: Cursor, text: &[u8]) -> Cursor
    requires room { Room sizes image.old start (map (piece 7) text.now) }
    requires by_index { (i : ℕ) → get_or text.now i 0 < 128 }
    ensures { Filled sizes image.old start (map (piece 7) text.now) image.new result }
{
    let mut cursor = start;
    let mut i: usize = 0;
    let n = text.len();
    while i < n {
        let end = (i + 7).min(n);
        cursor = cursor.append(sizes, image, 7 * (end - i), pack_characters(text, i, end));
        i = end;
    }
    cursor
}

// Writes selector 3, the end bit and the text.
fn lay_ending(sizes: Sizes, image: &mut [u8], cursor: Cursor, end_bit: bool, text: &[u8]) -> Cursor
    requires room { Room sizes image.old cursor (ending_pieces end_bit text.now) }
    requires by_index { (i : ℕ) → get_or text.now i 0 < 128 }
    ensures { Filled sizes image.old cursor (ending_pieces end_bit text.now) image.new result }
{
    let characters = cursor.append(sizes, image, 3, 3 | ((end_bit as u64) << 2));
    lay_text(sizes, image, characters, text)
}

// Clears the image, then writes the codes of a list, with the first block after those of Basic.
fn write_codes(
    sizes: Sizes,
    image: &mut [u8],
    template: Template,
    codes: &[u64],
    count: usize,
) -> Cursor
    requires whole_image { WholeImage sizes image.old × Fit (length codes.now) (unpacked codes.now) × (length basic < count) × (count ≤ length codes.now) }
    requires count_bound { needed (coded_list template (unpacked codes.now) count) ≤ stream_bits sizes }
    ensures { Begun sizes (coded_list template (unpacked codes.now) count) image.new result }
{
    stream::clear(image);
    let first = templates::basic_fields() as usize;
    let block = lay_codes(sizes, image, Cursor::start(), codes, 0, first);
    let own = lay_block(sizes, image, block, templates::template_number(template));
    lay_codes(sizes, image, own, codes, first, count)
}

// Writes the ending, then every check byte.
fn write_ending_and_seal(sizes: Sizes, image: &mut [u8], cursor: Cursor, end_bit: bool, text: &[u8])
    requires room { Room sizes image.old cursor (ending_pieces end_bit text.now) }
    requires by_index { (i : ℕ) → get_or text.now i 0 < 128 }
    ensures { image.new ≡ image_of sizes (pack (ending_pieces end_bit text.now) * 2 ^ cursor.at + stream_number sizes image.old) }
{
    lay_ending(sizes, image, cursor, end_bit, text);
    stream::seal_pages(sizes, image);
}

// Writes the whole image of a sheet: the codes of a list, the ending, zeros after them, and check bytes.
pub fn write_image(
    sizes: Sizes,
    image: &mut [u8],
    template: Template,
    codes: &[u64],
    listed: Listed,
    end_bit: bool,
    text: &[u8],
)
    requires whole_image { WholeImage sizes image.old × Ready template codes.now listed text.now }
    requires text_bound { needed (coded_sheet template (unpacked codes.now) listed.count end_bit text.now) ≤ stream_bits sizes }
    ensures { image.new ≡ image_of sizes (pack (coded_sheet template (unpacked codes.now) listed.count end_bit text.now)) }
{
    let ending = write_codes(sizes, image, template, codes, listed.count);
    write_ending_and_seal(sizes, image, ending, end_bit, text);
}

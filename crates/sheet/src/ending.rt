// The end bit, and the text after it.
ghost use Rattle.std.specs.Prelude.{◌≡◌, cond, ◌-◌, ◌/◌, ◌^◌, ◌<◌, eqb, length};
ghost use Rattle.memory.specs.Answers.{WholeImage};
ghost use Rattle.memory.specs.Image.{image_bytes, stream_bits};
ghost use Rattle.layout.specs.Format.{parse};
ghost use Rattle.layout.specs.Contents.{characters_of, ending_of};
ghost use Rattle.layout.specs.Image.{stream_in};
ghost use Rattle.sheet.specs.Walk.{keeping, end_count, step_said, end_said};

use memory::Sizes;
use refusal::Refusal;
use stream::Cursor;

// The number of characters up to a zero character, at most `most`.
fn take_text(sizes: Sizes, image: &[u8], start: Cursor, most: u64) -> Result<(u64, Cursor), Refusal>
    requires { WholeImage sizes image.now }
    ensures { step_said result ≡ keeping length (parse (stream_in sizes image.now) (characters_of most) start.at) }
{
    let mut cursor = start;
    let mut left = most;
    while 0 < left {
        let (character, next) = cursor.take(sizes, image, layout::CHARACTER_BITS)?;
        if character == 0 {
            return Ok((most - left, next));
        }
        cursor = next;
        left -= 1;
    }
    Ok((most, cursor))
}

// The characters that fit after an end bit; none if it is 0.
fn most_characters(sizes: Sizes, cursor: Cursor, bit: u64) -> u64
    requires { image_bytes sizes < 2 ^ 32 }
    ensures { result ≡ cond (eqb bit 1) ((stream_bits sizes - cursor.at) / 7) 0 }
{
    let bits = memory::stream_bits(sizes);
    let at = cursor.at;
    if bit != 1 {
        return 0;
    }
    if bits < at {
        return 0;
    }
    ((bits - at) / layout::CHARACTER_BITS) as u64
}

// The end bit, or 3 if it would pass the end; and the text.
pub fn take_ending(
    sizes: Sizes,
    image: &[u8],
    cursor: Cursor,
) -> Result<(bool, u64, Cursor), Refusal>
    requires { WholeImage sizes image.now }
    ensures { end_said result ≡ keeping end_count (parse (stream_in sizes image.now) ending_of cursor.at) }
{
    let (bit, next) = cursor.take(sizes, image, layout::END_BITS)?;
    let most = most_characters(sizes, next, bit);
    let (n, end) = take_text(sizes, image, next, most)?;
    Ok((bit == 1, n, end))
}

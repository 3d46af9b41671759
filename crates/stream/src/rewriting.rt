// Writes an image: clears it, rewrites one field with the
// check bytes of its pages, or writes every check byte.
ghost use Rattle.std.specs.Prelude.{◌≡◌, ◌^◌, ◌<◌, ◌≤◌, length, replicate};
ghost use Rattle.memory.specs.Bits.{put_at};
ghost use Rattle.memory.specs.Image.{SumsRight, stream_number, image_of, page_of};
ghost use Rattle.memory.specs.Answers.{WholeImage};
ghost use Rattle.stream.specs.Answers.{InStream};

use crate::bitfields;
use memory::Sizes;

// Sets every byte to 0.
pub fn clear(image: &mut [u8])
    ensures { image.new ≡ replicate (length image.old) 0 }
{
    for byte in image {
        *byte = 0;
    }
}

// The page whose check byte covers a bit of the stream: the register's bits belong to page 0.
fn page_of(sizes: Sizes, bit: usize) -> usize
    ensures { result ≡ page_of sizes bit }
{
    let byte = bit / 8;
    let register = sizes.register;
    if byte < register {
        return 0;
    }
    (byte - register) / 31
}

// Rewrites the field of `width` bits at bit `at` of an image whose
// sums are right, and the check bytes of its pages: "no other bit".
pub fn rewrite(sizes: Sizes, image: &mut [u8], at: usize, width: usize, code: u64)
    requires in_stream { InStream sizes image.old at width × (code < 2 ^ width) }
    requires le_pages { (1 ≤ sizes.pages) × SumsRight sizes image.old }
    ensures { image.new ≡ image_of sizes (put_at (stream_number sizes image.old) at width code) }
{
    let first = page_of(sizes, at);
    let last = page_of(sizes, at + width - 1);
    bitfields::put(sizes, image, at, width, code);
    memory::seal(sizes, image, first);
    if first != last {
        memory::seal(sizes, image, last);
    }
}

// Writes every check byte. The stream is unchanged.
pub fn seal_pages(sizes: Sizes, image: &mut [u8])
    requires { WholeImage sizes image.old }
    ensures { image.new ≡ image_of sizes (stream_number sizes image.old) }
{
    for page in 0..sizes.pages {
        memory::seal(sizes, image, page);
    }
}

// Document 01: "A place in the stream is carried by value and handed back moved on."
ghost use Rattle.std.specs.Prelude.{◌≡◌, ◌+◌, ◌^◌, ◌≤◌, ◌<◌};
ghost use Rattle.memory.specs.Bits.{field_at};
ghost use Rattle.memory.specs.Image.{stream_number};
ghost use Rattle.memory.specs.Laid.{put_in};
ghost use Rattle.memory.specs.Answers.{WholeImage};
ghost use Rattle.stream.specs.Answers.{InStream, passed_over, taken_said, taken_at};

use crate::bitfields;
use memory::Sizes;
use refusal::Refusal;

// A position in the stream: the number of its bit.
#[derive(Clone, Copy)]
pub struct Cursor {
    pub at: usize,
}

// A field of the stream, by its first bit.
#[derive(Clone, Copy)]
pub struct Field {
    pub at: usize,
}

// A field, and the cursor after it.
#[derive(Clone, Copy)]
pub struct Passed {
    pub field: Field,
    pub next: Cursor,
}

// The code of a field, and the cursor after it.
#[derive(Clone, Copy)]
pub struct Read {
    pub code: u64,
    pub next: Cursor,
}

impl Field {
    // The code of the field, which has `width` bits and is inside the stream.
    pub fn code(self, sizes: Sizes, image: &[u8], width: usize) -> u64
        requires { InStream sizes image.now self.at width }
        ensures { result ≡ field_at (stream_number sizes image.now) self.at width }
    {
        bitfields::take(sizes, image, self.at, width)
    }
}

impl Cursor {
    // A cursor at the stream's first bit.
    pub fn start() -> Self
        ensures { result.at ≡ 0 }
    {
        Cursor { at: 0 }
    }

    // The field of `width` bits at the cursor, and the cursor after it.
    pub fn over(self, width: usize) -> Passed
        requires { self.at + width < 2 ^ 64 }
        ensures { result ≡ passed_over self width }
    {
        Passed {
            field: Field { at: self.at },
            next: Cursor {
                at: self.at + width,
            },
        }
    }

    // The code of the field of `width` bits at the cursor,
    // which is inside the stream, and the cursor after it.
    pub fn read(self, sizes: Sizes, image: &[u8], width: usize) -> Read
        requires { InStream sizes image.now self.at width }
        ensures { (result.code ≡ field_at (stream_number sizes image.now) self.at width) × (result.next.at ≡ self.at + width) }
    {
        Read {
            code: bitfields::take(sizes, image, self.at, width),
            next: Cursor {
                at: self.at + width,
            },
        }
    }

    // The code of the field of `width` bits at the cursor, and the
    // cursor after it; or 3 if the field would pass the stream's end.
    pub fn take(self, sizes: Sizes, image: &[u8], width: usize) -> Result<(u64, Cursor), Refusal>
        requires { WholeImage sizes image.now × (1 ≤ width) × (width ≤ 49) }
        ensures { taken_said result ≡ taken_at sizes image.now self.at width }
    {
        let at = self.at;
        // `stream_bits`, from the image's length: three instructions fewer per field.
        let bits = 8 * (image.len() - sizes.pages);
        if bits < at {
            return Err(Refusal::PastEnd(at as u64));
        }
        if bits - at < width {
            return Err(Refusal::PastEnd(at as u64));
        }
        let read = self.read(sizes, image, width);
        let next = read.next;
        Ok((read.code, next))
    }

    // Writes a code into the field of `width` bits at the cursor, and returns the
    // cursor after it. Requires that every stream bit from the cursor on is 0.
    // Inlined into the loops of a build, which call it for each seven bytes.
    #[inline(always)]
    pub fn append(self, sizes: Sizes, image: &mut [u8], width: usize, code: u64) -> Self
        requires in_stream { InStream sizes image.old self.at width × (code < 2 ^ width) }
        requires image_bound { stream_number sizes image.old < 2 ^ self.at }
        ensures { (image.new ≡ put_in sizes image.old self.at width code) × (result.at ≡ self.at + width) }
    {
        bitfields::append(sizes, image, self.at, width, code);
        Cursor {
            at: self.at + width,
        }
    }
}

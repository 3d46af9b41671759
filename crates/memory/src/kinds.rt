// The kinds of chip, and their sizes.
ghost use Rattle.std.specs.Prelude.{◌≡◌, ◌^◌, ◌<◌};
ghost use Rattle.memory.specs.Image.{image_bytes, stream_bits, image_sizes};

use crate::Sizes;
use refusal::Refusal;

// The sizes of an image of this kind and length; or 1 if
// the kind is not 0 to 2 or the length is not the kind's. The compiler tests the last kind first.
pub fn image_sizes(kind: u8, bytes: usize) -> Result<Sizes, Refusal>
    ensures { result ≡ image_sizes kind bytes }
{
    match (kind, bytes) {
        (2, 512) => Ok(Sizes {
            register: 0,
            pages: 16,
        }),
        (1, 128) => Ok(Sizes {
            register: 0,
            pages: 4,
        }),
        (0, 40) => Ok(Sizes {
            register: 8,
            pages: 1,
        }),
        _ => Err(Refusal::WrongImage),
    }
}

// The bits of the stream: 8 for each byte of the
// register and of the pages, without the check bytes.
pub fn stream_bits(sizes: Sizes) -> usize
    requires { image_bytes sizes < 2 ^ 32 }
    ensures { result ≡ stream_bits sizes }
{
    8 * (sizes.register + 31 * sizes.pages)
}

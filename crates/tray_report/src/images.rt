// A tray, image by image.
ghost use Rattle.std.specs.Prelude.{◌≡◌, true, ◌&&◌, ◌+◌, ◌^◌, ◌<◌, ltb};
ghost use Rattle.memory.specs.Image.{sizes_of, image_sizes};
ghost use Rattle.tray_report.specs.Tray.{most_images, bits_of};
ghost use Rattle.tray_report.specs.Images.{bytes_of, is_whole, begun, Sound, JudgedAs};

use crate::{ImageReport, SoFar, lines};
use refusal::Refusal;
use sheet::Summary;

// The most images of a tray.
const MOST: u64 = 1_000;

// The bytes that an image of a kind has; none for a kind above 2.
pub fn image_bytes(kind: u8) -> usize
    ensures { result ≡ bytes_of (sizes_of kind) }
{
    match kind {
        0 => 40,
        1 => 128,
        2 => 512,
        _ => 0,
    }
}

// A tray of which nothing is judged.
pub fn begin() -> SoFar
    ensures { result ≡ begun }
{
    SoFar {
        images: 0,
        bits: 0,
        more: true,
    }
}

// Whether the kind exists, and has this many bytes.
fn is_whole(kind: u8, bytes: usize) -> bool
    ensures { result ≡ is_whole (image_sizes kind bytes) }
{
    memory::image_sizes(kind, bytes).is_ok()
}

// Whether a further image is to be judged: not after a kind
// above 2 or an image cut short, and not after the last.
fn has_more(whole: bool, images: u64) -> bool
    ensures { result ≡ (whole && ltb images most_images) }
{
    whole && images < MOST
}

// An image's bits; 0 if it is refused.
fn bits_of(checked: Result<Summary, Refusal>) -> u64
    ensures { result ≡ bits_of checked }
{
    match checked {
        Ok(summary) => summary.bits,
        Err(_) => 0,
    }
}

// The bits of the images so far, plus those of a further one.
fn added(bits: u64, checked: Result<Summary, Refusal>) -> u64
    requires { bits + bits_of checked < 2 ^ 64 }
    ensures { result ≡ bits + bits_of checked }
{
    bits + bits_of(checked)
}

// Judges an image from the bytes that were read of it: its line, and the tray's state after it.
// A kind above 2 and an image cut short are refused with 1 and end the tray, and so does the
// last image that a tray may have. Requires that the tray has not ended, and began with `begin`.
pub fn report_image(tray: SoFar, kind: u8, image: &[u8]) -> ImageReport
    requires { Sound tray × (tray.more ≡ true) }
    ensures { JudgedAs tray kind image.now result }
{
    let checked = sheet::check(kind, image);
    let images = tray.images + 1;
    let line = lines::line(images, checked);
    let tray = SoFar {
        images,
        bits: added(tray.bits, checked),
        more: has_more(is_whole(kind, image.len()), images),
    };
    ImageReport { line, tray }
}

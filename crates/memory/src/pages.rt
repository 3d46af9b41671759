// Pages, their sums and their check bytes.
ghost use Rattle.std.specs.Prelude.{◌≡◌, ◌%◌, ◌<◌};
ghost use Rattle.memory.specs.Image.{total, page_sum, all_ff, blank_page, page_test, blank_from, sums_from, sums, page_bytes};
ghost use Rattle.memory.specs.Laid.{sealed};
ghost use Rattle.memory.specs.Answers.{WholeImage};

use crate::{Sizes, kinds};
use refusal::Refusal;

// The page test of document 02, Note 1: good, wrong, or blank.
#[derive(Clone, Copy)]
enum PageTest {
    Good,
    Wrong,
    Blank,
}

// The bytes of a slice, added up modulo 256.
pub fn sum(bytes: &[u8]) -> u8
    ensures { result ≡ total bytes.now % 256 }
{
    let mut sum: u8 = 0;
    for &b in bytes {
        sum = sum.wrapping_add(b);
    }
    sum
}

// The sum of the bytes that a page's check byte covers: the page, and for page 0 the register too.
fn page_sum(sizes: Sizes, image: &[u8], page: usize) -> u8
    requires { WholeImage sizes image.now × (page < sizes.pages) }
    ensures { result ≡ page_sum sizes image.now page }
{
    let at = sizes.register + 32 * page;
    let end = at + 32;
    if page == 0 {
        return sum(&image[..end]);
    }
    sum(&image[at..end])
}

// Whether every byte of a slice is hexadecimal FF.
fn all_ff(bytes: &[u8]) -> bool
    ensures { result ≡ all_ff bytes.now }
{
    bytes.iter().all(|&b| b == 0xff)
}

// Whether the 32 bytes of a page are blank. The register does not count.
fn is_blank(sizes: Sizes, image: &[u8], page: usize) -> bool
    requires { WholeImage sizes image.now × (page < sizes.pages) }
    ensures { result ≡ blank_page sizes image.now page }
{
    let at = sizes.register + 32 * page;
    let end = at + 32;
    all_ff(&image[at..end])
}

// The page test: a page of FF is blank, whatever its sum.
fn test_page(sizes: Sizes, image: &[u8], page: usize) -> PageTest
    requires { WholeImage sizes image.now × (page < sizes.pages) }
    ensures { result ≡ page_test sizes image.now page }
{
    if is_blank(sizes, image, page) {
        return PageTest::Blank;
    }
    if page_sum(sizes, image, page) == 0 {
        return PageTest::Good;
    }
    PageTest::Wrong
}

// Whether every page is blank.
fn all_blank(sizes: Sizes, image: &[u8]) -> bool
    requires { WholeImage sizes image.now }
    ensures { result ≡ blank_from sizes image.now sizes.pages 0 }
{
    for page in 0..sizes.pages {
        if !is_blank(sizes, image, page) {
            return false;
        }
    }
    true
}

// Refuses the first page that is not good.
fn test_pages(sizes: Sizes, image: &[u8]) -> Result<(), Refusal>
    requires { WholeImage sizes image.now }
    ensures { result ≡ sums_from sizes image.now sizes.pages 0 }
{
    for page in 0..sizes.pages {
        let PageTest::Good = test_page(sizes, image, page) else {
            return Err(Refusal::WrongSum(page as u64));
        };
    }
    Ok(())
}

// Refuses an image whose pages are all blank, else the first page that is not good.
pub fn check_sums(sizes: Sizes, image: &[u8]) -> Result<(), Refusal>
    requires { WholeImage sizes image.now }
    ensures { result ≡ sums sizes image.now }
{
    if all_blank(sizes, image) {
        return Err(Refusal::BlankChip);
    }
    test_pages(sizes, image)
}

// The stream bytes of a page, its bytes 1 to 31, as a part of the caller's image. Empty if the
// kind is not 0 to 2, the image is not of the kind's length, or the image has no such page.
pub fn page_bytes(kind: u8, image: &[u8], page: u64) -> &[u8]
    ensures { result.now ≡ page_bytes kind image.now page }
{
    let Ok(sizes) = kinds::image_sizes(kind, image.len()) else {
        return &image[..0];
    };
    if page < sizes.pages as u64 {
        let from = sizes.register + 32 * (page as usize) + 1;
        return &image[from..from + 31];
    }
    &image[..0]
}

// Writes the check byte of a page, so that the page
// adds up to 0 modulo 256. No other byte is written.
pub fn seal(sizes: Sizes, image: &mut [u8], page: usize)
    requires { WholeImage sizes image.old × (page < sizes.pages) }
    ensures { image.new ≡ sealed sizes image.old page }
{
    let at = sizes.register + 32 * page;
    let sum = page_sum(sizes, image, page);
    image[at] = image[at].wrapping_sub(sum);
}

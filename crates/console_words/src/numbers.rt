// Decimal numbers.
ghost use Rattle.std.specs.Prelude.{◌≡◌, Some};
ghost use Rattle.console_words.specs.Said.{filled, counted, filled_said};
ghost use Rattle.console_words.specs.Figures.{longer as with_digit, number, above as above_zero, below as below_zero, figure as figure_of, figures as figures_in};

use crate::parts::is_minus;

// A number with one more digit, if the character is a digit and the number fits 64 bits.
fn longer(n: u64, character: u8) -> Option<u64>
    ensures { result ≡ with_digit n character }
{
    if !character.is_ascii_digit() {
        return None;
    }
    n.checked_mul(10)?.checked_add((character - b'0') as u64)
}

// A word's number, 0 to 2^64 - 1. None if the word has no
// digits, other characters, or a number that does not fit 64 bits.
pub fn number_of(word: &[u8]) -> Option<u64>
    ensures { result ≡ number word.now }
{
    if word.is_empty() {
        return None;
    }
    let mut n = 0;
    for character in word {
        n = longer(n, *character)?;
    }
    Some(n)
}

// A number as a figure, if it fits an i64.
fn above(n: u64) -> Option<i64>
    ensures { result ≡ above_zero (Some n) }
{
    if n > 9_223_372_036_854_775_807 {
        return None;
    }
    Some(integers::difference(n, 0))
}

// A number after a minus as a figure, if it fits an i64.
fn below(n: u64) -> Option<i64>
    ensures { result ≡ below_zero (Some n) }
{
    if n > 9_223_372_036_854_775_808 {
        return None;
    }
    Some(integers::difference(0, n))
}

// A word's figure, an i64: digits, with or without a minus before them.
pub fn figure_of(word: &[u8]) -> Option<i64>
    ensures { result ≡ figure_of word.now }
{
    match word {
        [b'-', digits @ ..] => below(number_of(digits)?),
        _ => above(number_of(word)?),
    }
}

// The number of figures in a word, separated by commas; `-` has
// none. None if a part is no figure, or there are more than `room`.
fn count_figures(word: &[u8], room: usize) -> Option<usize>
    ensures { result ≡ counted (figures_in word.now) room }
{
    if is_minus(word) {
        return Some(0);
    }
    let mut rest = word;
    for count in 0..room {
        let end = rest.iter().position(|b| *b == b',').unwrap_or(rest.len());
        figure_of(&rest[..end])?;
        if end == rest.len() {
            return Some(count + 1);
        }
        rest = &rest[end + 1..];
    }
    None
}

// Puts a word's figures, separated by commas, at the start of `out`, and returns their number;
// `-` has none. None if a part is no figure, or `out` is too short: then `out` is unchanged.
pub fn figures_of(word: &[u8], out: &mut [i64]) -> Option<usize>
    ensures { filled_said result out.new ≡ filled (figures_in word.now) out.old }
{
    let count = count_figures(word, out.len())?;
    for (at, part) in word.split(|b| *b == b',').take(count).enumerate() {
        out[at] = figure_of(part)?;
    }
    Some(count)
}

// Bytes as lower-case hexadecimal digits, the high one first, and back.
ghost use Rattle.std.specs.Prelude.{◌≡◌, map, ◌+◌, ◌*◌, ◌<◌, length, get_or};
ghost use Rattle.std.specs.Prelude.{Some};
ghost use Rattle.console_words.specs.Said.{filled, counted, filled_said};
ghost use Rattle.console_words.specs.Hexadecimal.{value_of, byte_of, digit_of, bytes as bytes_in, spelt};

use crate::parts::is_minus;

// The value of a hexadecimal digit.
fn nibble(b: u8) -> Option<u8>
    ensures { result ≡ value_of b }
{
    match b {
        b'0'..=b'9' => Some(b - b'0'),
        b'a'..=b'f' => Some(b - b'a' + 10),
        _ => None,
    }
}

// The digit of value n.
fn glyph(n: u8) -> u8
    requires { n < 16 }
    ensures { result ≡ digit_of n }
{
    if n < 10 { b'0' + n } else { b'a' + (n - 10) }
}

// The byte of this index: its two digits, the high one first.
fn byte_at(word: &[u8], at: usize) -> Option<u8>
    requires { 2 * at + 1 < length word.now }
    ensures { result ≡ byte_of (get_or word.now (2 * at) 0) (get_or word.now (2 * at + 1) 0) }
{
    let high = nibble(word[2 * at])?;
    let low = nibble(word[2 * at + 1])?;
    Some(16 * high + low)
}

// The number of bytes in a word, two digits each; `-` has none.
// None if the word is anything else, or there are more than `room`.
fn count_bytes(word: &[u8], room: usize) -> Option<usize>
    ensures { result ≡ counted (bytes_in word.now) room }
{
    if is_minus(word) {
        return Some(0);
    }
    if word.is_empty() || word.len() % 2 == 1 {
        return None;
    }
    let count = word.len() / 2;
    if count > room || word.iter().any(|b| nibble(*b).is_none()) {
        return None;
    }
    Some(count)
}

// Puts a word's bytes, two digits each, at the start of `out`, and returns their number; `-`
// has none. None if the word is anything else, or `out` is too short: then `out` is unchanged.
pub fn bytes_of(word: &[u8], out: &mut [u8]) -> Option<usize>
    ensures { filled_said result out.new ≡ filled (bytes_in word.now) out.old }
{
    let count = count_bytes(word, out.len())?;
    for at in 0..count {
        out[at] = byte_at(word, at)?;
    }
    Some(count)
}

// The number of characters for bytes: two digits each, or one minus for no bytes.
fn spelt_length(bytes: &[u8]) -> usize
    ensures { result ≡ length (spelt bytes.now) }
{
    if bytes.is_empty() { 1 } else { 2 * bytes.len() }
}

// The character at an index.
fn spelt_at(bytes: &[u8], index: usize) -> u8
    requires { index < length (spelt bytes.now) }
    ensures { result ≡ get_or (spelt bytes.now) index 0 }
{
    if bytes.is_empty() {
        return b'-';
    }
    let b = bytes[index / 2];
    if index % 2 == 0 {
        glyph(b / 16)
    } else {
        glyph(b % 16)
    }
}

// Puts the digits of bytes at the start of `out`, and returns their number;
// `-` for no bytes. None if `out` is too short: then `out` is unchanged.
pub fn spell(bytes: &[u8], out: &mut [u8]) -> Option<usize>
    ensures { filled_said result out.new ≡ filled (map Some (spelt bytes.now)) out.old }
{
    let all = spelt_length(bytes);
    if all > out.len() {
        return None;
    }
    for at in 0..all {
        out[at] = spelt_at(bytes, at);
    }
    Some(all)
}

// The value of a field: `w` and a whole number, `s` and the
// eight hexadecimal digits of a Single's bits, `m` for missing.
ghost use Rattle.std.specs.Prelude.{◌≡◌};
ghost use Rattle.std.specs.Float.{binary32};
ghost use Rattle.std.specs.Float.Ieee.{of_bits};
ghost use Rattle.console_words.specs.Said.{every};
ghost use Rattle.console_words.specs.Hexadecimal.{bytes as bytes_in};
ghost use Rattle.console_words.specs.Values.{single, value};

use crate::hexadecimal::bytes_of;
use crate::numbers::figure_of;
use codes::Value;

// The float of these bits. Every NaN pattern gives the same NaN.
fn single_of(bits: u32) -> f32
    ensures { result ≡ of_bits binary32 bits }
{
    if bits % 0x8000_0000 > 0x7f80_0000 {
        return 0.0 / 0.0;
    }
    f32::from_bits(bits)
}

// A Single, by the eight hexadecimal digits of its bits.
pub fn single_word(digits: &[u8]) -> Option<Value>
    ensures { result ≡ single (every (bytes_in digits.now)) }
{
    let mut bytes = [0u8; 4];
    let count = bytes_of(digits, &mut bytes)?;
    if count != 4 {
        return None;
    }
    Some(Value::Single(single_of(u32::from_be_bytes(bytes))))
}

// The value of a field that a word spells.
pub fn value_of(word: &[u8]) -> Option<Value>
    ensures { result ≡ value word.now }
{
    match word {
        [b'w', digits @ ..] => Some(Value::Whole(figure_of(digits)?)),
        [b's', digits @ ..] => single_word(digits),
        [b'm'] => Some(Value::Missing),
        _ => None,
    }
}

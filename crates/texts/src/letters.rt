// Letter codes to text and back. The way back returns the only code
// that can have the text, and the caller compares that code's text.
ghost use Rattle.std.specs.Prelude.{◌≡◌, ◌++◌, ◌%◌, ◌<◌, length, get_or, replicate};
ghost use Rattle.texts.specs.Letters.{letters, letters_text};
ghost use Rattle.texts.specs.Whose.{OnlyCode};

// Space, A to Z, comma, point, slash, underscore, at sign.
const LETTERS: [u8; 32] = *b" ABCDEFGHIJKLMNOPQRSTUVWXYZ,./_@";

// The letter of a code's lowest five bits.
fn letter(code: u64) -> u8
    ensures { result ≡ get_or letters (code % 32) 0 }
{
    let at = (code % 32) as usize;
    LETTERS[at]
}

// The code of a letter; for any other character 0.
fn letter_code(character: u8) -> u64
    ensures { (result < 32) × OnlyCode (λ code. get_or letters code 0) character 31 result }
{
    LETTERS
        .iter()
        .position(|letter| *letter == character)
        .unwrap_or(0) as u64
}

// The text of one letter, then zeros.
#[tactic(auto, unfolding(crate::specs::Letters::letters_text))]
pub fn one_text(code: u64) -> [u8; 10]
    ensures { result ≡ letters_text 1 code ++ replicate 9 0 }
{
    let a = letter(code);
    [a, 0, 0, 0, 0, 0, 0, 0, 0, 0]
}

// The text of three letters, first lowest, then zeros.
#[tactic(auto, unfolding(crate::specs::Letters::letters_text))]
pub fn three_text(code: u64) -> [u8; 10]
    ensures { result ≡ letters_text 3 code ++ replicate 7 0 }
{
    let a = letter(code);
    let b = letter(code / 32);
    let c = letter(code / 32 / 32);
    [a, b, c, 0, 0, 0, 0, 0, 0, 0]
}

// The only code that can have this text of one letter.
pub fn one_code(text: &[u8]) -> u64
    requires { length text.now ≡ 1 }
    ensures { OnlyCode (letters_text 1) text.now 31 result }
{
    letter_code(text[0])
}

// The only code that can have this text of three letters.
pub fn three_code(text: &[u8]) -> u64
    requires { length text.now ≡ 3 }
    ensures { OnlyCode (letters_text 3) text.now 32_767 result }
{
    let a = letter_code(text[0]);
    let b = letter_code(text[1]);
    let c = letter_code(text[2]);
    a + 32 * (b + 32 * c)
}

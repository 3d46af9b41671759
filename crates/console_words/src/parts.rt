// Words, separated by one space.
ghost use Rattle.std.specs.Prelude.{◌≡◌, take};
ghost use Rattle.console_words.specs.Words.{is_minus, piece_count, word_count, piece_at, word_at};

// Whether a word is a minus alone.
pub fn is_minus(word: &[u8]) -> bool
    ensures { result ≡ is_minus word.now }
{
    matches!(word, [b'-'])
}

// The number of pieces of a line: one more than its separators.
pub fn piece_count(line: &[u8], separator: u8) -> u64
    ensures { result ≡ piece_count separator line.now }
{
    let mut count = 1;
    for b in line {
        if *b == separator {
            count += 1;
        }
    }
    count
}

// The number of words of a line.
pub fn word_count(line: &[u8]) -> u64
    ensures { result ≡ word_count line.now }
{
    piece_count(line, b' ')
}

// The piece of this index, from 0; empty if the line has no such piece.
pub fn piece_at(line: &[u8], index: u64, separator: u8) -> &[u8]
    ensures { result.now ≡ piece_at separator index line.now }
{
    line.split(|b| *b == separator)
        .nth(index as usize)
        .unwrap_or(&line[..0])
}

// The word of this index, from 0; empty if the line has no such word.
pub fn word(line: &[u8], index: u64) -> &[u8]
    ensures { result.now ≡ word_at index line.now }
{
    piece_at(line, index, b' ')
}

// The first bytes of a buffer, or all of them if it has fewer.
pub fn front(bytes: &[u8], count: usize) -> &[u8]
    ensures { result.now ≡ take count bytes.now }
{
    &bytes[..count.min(bytes.len())]
}

// The first figures of a buffer, or all of them if it has fewer.
pub fn front_figures(figures: &[i64], count: usize) -> &[i64]
    ensures { result.now ≡ take count figures.now }
{
    &figures[..count.min(figures.len())]
}

// The first bytes of a buffer, to be written; or all of them if it has fewer.
pub fn front_mut(bytes: &mut [u8], count: usize) -> &mut [u8]
    ensures { result.now ≡ take count bytes.old }
{
    let end = count.min(bytes.len());
    &mut bytes[..end]
}

// The kind and the image in a line.
ghost use Rattle.std.specs.Prelude.{◌≡◌, length};
ghost use Rattle.commands.specs.Arguments.{lent as lent_in, lent_said};
ghost use Rattle.commands.specs.Replies.{number_request, number_request_said};
ghost use Rattle.commands.specs.Kinds.{kind_of};

use console_words::word;
use refusal::Refusal;

// Room for the bytes of any word.
pub const ROOM: usize = 16_384;

// A kind as a byte: a number above 255 becomes 255, which is no kind either.
pub fn kind_of(n: u64) -> u8
    ensures { result ≡ kind_of n }
{
    if n > 255 {
        return 255;
    }
    n as u8
}

// A line's kind, and the length of its image at the start of `room`.
#[derive(Clone, Copy)]
pub struct Chip {
    pub kind: u8,
    pub length: usize,
}

// The kind and the image, words 1 and 2 of a line.
pub fn lent(line: &[u8], room: &mut [u8]) -> Option<Chip>
    ensures { lent_said result room.new ≡ lent_in line.now room.old }
{
    let kind = console_words::number_of(word(line, 1))?;
    let length = console_words::bytes_of(word(line, 2), room)?;
    Some(Chip {
        kind: kind_of(kind),
        length,
    })
}

// A line's kind, its image at the start of room, and its number.
#[derive(Clone, Copy)]
pub struct ChipNumber {
    pub chip: Chip,
    pub number: u64,
}

// The kind, the image and a page, a field or an index, words 1 to 3.
pub fn number_request(line: &[u8], room: &mut [u8]) -> Option<ChipNumber>
    ensures { number_request_said result room.new ≡ number_request (length room.old) line.now }
{
    let chip = lent(line, room)?;
    let number = console_words::number_of(word(line, 3))?;
    Some(ChipNumber { chip, number })
}

// What a call that writes answers, and how many bytes at the start of a room were lent to it.
#[derive(Clone, Copy)]
pub struct WrittenFront {
    pub answer: Result<(), Refusal>,
    pub length: usize,
}

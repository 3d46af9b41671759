// Document 01, "Turning down": why and where a call is refused.
// No function has a `requires`.
#![tactic(auto)]

ghost use Rattle.std.specs.Prelude.{◌≡◌};
ghost use Rattle.refusal.specs.Rows.{row_number, row_place};

// A row of the table of refusals, with what its place is taken from. `specs/Rows.antt` has
// the sentence of each row. Place is document 01's term: a bit of the stream, a page, a
// field, an index or a size. Each variant that holds a number has a comment on what it is.
#[derive(Clone, Copy, PartialEq, Eq)]
pub enum Refusal {
    WrongImage,
    WrongSum(u64), // page
    PastEnd(u64), // bit
    WrongBlock(u64), // the selector's bit
    OutsideTable(u64), // bit
    NotFinite(u64), // bit
    NotRising(u64), // bit or index
    NoSuch(u64), // the number given
    WrongSort(u64), // field
    OutOfRange(u64), // bit or index
    TooLong(u64), // bits needed
    ChangedAlone(u64), // field
    NoSpan(u64), // field
    OutsideSpan,
    WrongList(u64), // length
    BlankChip,
    ShortIndex(u64), // bytes needed
    OtherCode(u64), // field
    LevelTooLow(u64), // field
    EndOutside(u64), // field
    SumsNotRising(u64), // bit or index
    TooManyPoints(u64), // points
    WrongCurve(u64), // bit or index
    TooManyTerms(u64), // total so far
    WrongTicks(u64), // ticks
}

impl Refusal {
    // The number of the row, 1 to 26.
    pub fn number(self) -> u8
        ensures { result ≡ row_number self }
    {
        match self {
            Refusal::WrongImage => 1,
            Refusal::WrongSum(_) => 2,
            Refusal::PastEnd(_) => 3,
            Refusal::WrongBlock(_) => 4,
            Refusal::OutsideTable(_) => 5,
            Refusal::NotFinite(_) => 6,
            Refusal::NotRising(_) => 7,
            Refusal::NoSuch(_) => 8,
            Refusal::WrongSort(_) => 9,
            Refusal::OutOfRange(_) => 10,
            Refusal::TooLong(_) => 11,
            Refusal::ChangedAlone(_) => 12,
            Refusal::NoSpan(_) => 13,
            Refusal::OutsideSpan => 14,
            Refusal::WrongList(_) => 16,
            Refusal::BlankChip => 17,
            Refusal::ShortIndex(_) => 18,
            Refusal::OtherCode(_) => 19,
            Refusal::LevelTooLow(_) => 20,
            Refusal::EndOutside(_) => 21,
            Refusal::SumsNotRising(_) => 22,
            Refusal::TooManyPoints(_) => 23,
            Refusal::WrongCurve(_) => 24,
            Refusal::TooManyTerms(_) => 25,
            Refusal::WrongTicks(_) => 26,
        }
    }

    // The place. The bits needed are given as 65,535 if they are more than that.
    pub fn place(self) -> u64
        ensures { result ≡ row_place self }
    {
        match self {
            Refusal::WrongImage => 0,
            Refusal::WrongSum(page) => page,
            Refusal::PastEnd(bit) => bit,
            Refusal::WrongBlock(selector_bit) => selector_bit,
            Refusal::OutsideTable(bit) => bit,
            Refusal::NotFinite(bit) => bit,
            Refusal::NotRising(place) => place,
            Refusal::NoSuch(given) => given,
            Refusal::WrongSort(field) => field,
            Refusal::OutOfRange(place) => place,
            Refusal::TooLong(needed) => { if 65_535 < needed { 65_535 } else { needed } }
            Refusal::ChangedAlone(field) => field,
            Refusal::NoSpan(field) => field,
            Refusal::OutsideSpan => 0,
            Refusal::WrongList(length) => length,
            Refusal::BlankChip => 0,
            Refusal::ShortIndex(bytes) => bytes,
            Refusal::OtherCode(field) => field,
            Refusal::LevelTooLow(field) => field,
            Refusal::EndOutside(field) => field,
            Refusal::SumsNotRising(place) => place,
            Refusal::TooManyPoints(points) => points,
            Refusal::WrongCurve(place) => place,
            Refusal::TooManyTerms(total) => total,
            Refusal::WrongTicks(ticks) => ticks,
        }
    }
}

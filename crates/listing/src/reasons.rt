// Document 01, "Turning down", and the notes of document 02: a refusal in words.
use crate::output::{put, put_entry, put_number};
use refusal::Refusal;
use std::io::Write;

// Row n describes refusal n: `kind of place;meaning`, or
// `place` if the kind varies. 0 and 15 are not refusals.
const ROWS: [u8; 1337] = *b"place;no row of the table\n\
    place;no such kind of chip, or an image of another length\n\
    page;the bytes of this page do not add up\n\
    bit;what begins here would pass the end of the chip\n\
    bit;no selector or template number that may stand here\n\
    bit;a code outside its table\n\
    bit;a Single that is not finite\n\
    place;the calibration points do not rise\n\
    number;there is no such field, point, segment, term or character\n\
    field;a value or text of the wrong sort for this field\n\
    place;a figure, character or text out of range\n\
    bits;so many are needed, and the chip has fewer\n\
    field;the precision is not changed alone\n\
    field;no reading: this value is missing, or the electrical values do not rise\n\
    place;no reading: the input is outside the span\n\
    place;no row of the table\n\
    length;a list of points that is odd or too long\n\
    place;blank: nothing has been written to this chip\n\
    bytes;an index needs so many, and there are fewer\n\
    field;another code stands there than the one expected\n\
    field;the writer's level is too low to write it\n\
    field;no reading: this value lies outside -2 to 2 V/V\n\
    place;the calibration points plus their deviations do not rise\n\
    points;no reading: the small dash takes 32 at most\n\
    place;a count, exponent or segment start that breaks the rules of a curve\n\
    terms;a curve has 30 at most\n\
    ticks;the fast recording has not six for each slow one, or a list is odd";

// Prints a refusal's number, place and meaning, on a line.
pub fn refused(out: &mut impl Write, r: Refusal) {
    let row = r.number() as u64;
    put(out, b"refused: ");
    put_number(out, row);
    put(out, b" at ");
    put_entry(out, &ROWS, row, 0);
    put(out, b" ");
    put_number(out, r.place());
    put(out, b": ");
    put_entry(out, &ROWS, row, 1);
    put(out, b"\n");
}

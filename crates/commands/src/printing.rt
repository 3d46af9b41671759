// Prints the parts of an answer.
use crate::arguments::{ROOM, WrittenFront};
use codes::Value;
use listing::{put, put_figure, put_number};
use refusal::Refusal;
use std::io::Write;
use templates::Domain;

// The most bytes that an answer prints: any buffer that a line can lend.
const LARGEST: usize = ROOM;

// Prints bytes in hexadecimal, `-` for none.
pub fn bytes(out: &mut impl Write, bytes: &[u8]) {
    let mut digits = [0u8; 2 * LARGEST];
    match console_words::spell(bytes, &mut digits) {
        Some(count) => put(out, console_words::front(&digits, count)),
        None => {}
    }
}

// Ends an answer with a newline.
pub fn end(out: &mut impl Write) {
    put(out, b"\n");
}

// Answers a line that is no command.
pub fn unknown(out: &mut impl Write) {
    put(out, b"?\n");
}

// Answers a number.
pub fn number(out: &mut impl Write, n: u64) {
    put_number(out, n);
    end(out);
}

// Answers two figures.
pub fn figures(out: &mut impl Write, a: i64, b: i64) {
    put_figure(out, a);
    put(out, b" ");
    put_figure(out, b);
    end(out);
}

// Answers a refusal: its number and its place.
pub fn refused(out: &mut impl Write, r: Refusal) {
    put(out, b"no ");
    put_number(out, r.number() as u64);
    put(out, b" ");
    number(out, r.place());
}

// Prints the bits of a float in hexadecimal; NaN,
// which no sheet holds and no reading shows, as `nan`.
pub fn single(out: &mut impl Write, x: f32) {
    if x != x {
        return put(out, b"nan");
    }
    let bits = f32::to_bits(x);
    let _ = write!(out, "{bits:08x}");
}

// Prints the bits of a double in hexadecimal; NaN as `nan`.
pub fn double(out: &mut impl Write, x: f64) {
    if x != x {
        return put(out, b"nan");
    }
    let bits = f64::to_bits(x);
    let _ = write!(out, "{bits:016x}");
}

// Prints a table's domain, `-` without a table.
pub fn domain(out: &mut impl Write, table: Option<Domain>) {
    match table {
        None => put(out, b"-"),
        Some(domain) => put_number(out, templates::domain_code(domain)),
    }
}

// Answers a field's value.
pub fn value(out: &mut impl Write, v: Value) {
    match v {
        Value::Whole(z) => {
            put(out, b"w");
            put_figure(out, z);
        }
        Value::Single(x) => {
            put(out, b"s");
            single(out, x);
        }
        Value::Missing => put(out, b"m"),
    }
    end(out);
}

// Prints a field's value, or the refusal.
fn field(out: &mut impl Write, answer: Result<Value, Refusal>) {
    match answer {
        Ok(v) => value(out, v),
        Err(r) => refused(out, r),
    }
}

// The same of a line, which may be no command.
pub fn field_reply(out: &mut impl Write, reply: Option<Result<Value, Refusal>>) {
    match reply {
        Some(answer) => field(out, answer),
        None => unknown(out),
    }
}

// Answers a lent buffer after a call, or the refusal.
fn written(out: &mut impl Write, answer: Result<(), Refusal>, buffer: &[u8]) {
    match answer {
        Ok(()) => {
            put(out, b"ok ");
            bytes(out, buffer);
            end(out);
        }
        Err(r) => refused(out, r),
    }
}

// The same of a room's first bytes.
pub fn write_reply(out: &mut impl Write, reply: Option<WrittenFront>, room: &[u8]) {
    match reply {
        Some(front) => {
            let answer = front.answer;
            written(out, answer, console_words::front(room, front.length));
        }
        None => unknown(out),
    }
}

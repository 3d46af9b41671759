// Answers a line by its command.
use crate::choosing::Command;
use crate::{
    builds, choosing, comparing, conformities, distances, edits, indexes, items, printing,
    readings, reads, rows, text,
};
use listing::put;
use std::io::Write;

const HELP: [u8; 1061] = *b"check KIND IMAGE\n\
    page KIND IMAGE PAGE\n\
    field KIND IMAGE FIELD\n\
    pair KIND IMAGE INDEX\n\
    segment KIND IMAGE INDEX\n\
    term KIND IMAGE INDEX\n\
    char KIND IMAGE INDEX\n\
    reading KIND IMAGE INPUT DASH\n\
    compare KIND IMAGE SLOW FAST\n\
    show KIND IMAGE\n\
    build KIND LENGTH LEVEL TEMPLATE V1 .. Vn ENDBIT TEXT DOMAIN POINTS\n\
    build KIND LENGTH LEVEL TEMPLATE V1 .. Vn ENDBIT TEXT curve COUNT SEGMENTS TERMS\n\
    distance POINTS\n\
    conform KIND IMAGE POINTS\n\
    change KIND IMAGE FIELD VALUE LEVEL\n\
    index KIND IMAGE BUFFER\n\
    fetch KIND IMAGE BUFFER FIELD\n\
    propose KIND IMAGE FIELD VALUE LEVEL\n\
    commit KIND IMAGE FIELD PRESENT NEW LEVEL\n\
    next KIND PRESENT WANTED\n\
    text FIELD CODE\n\
    code FIELD TEXT\n\
    help\n\
    KIND 0, 1 or 2; IMAGE, TEXT, BUFFER, WANTED and PRESENT of next in hexadecimal, - for none; VALUE w7, s3f800000 or m;\n\
    LEVEL owner, calibration or maker; DASH large or small; TEMPLATE 33, of 21 values, or 32, of 19;\n\
    DOMAIN 0 or 1; POINTS point,deviation,.. or -; COUNT of segments; SEGMENTS start,terms,.. or -;\n\
    TERMS exponent,3f800000,.. or -; SLOW and FAST input,fraction,.. or -; a refusal is: no NUMBER PLACE\n";

// Answers a line.
pub fn answer(out: &mut impl Write, line: &[u8]) {
    match choosing::command_of(line) {
        Command::Help => put(out, &HELP),
        Command::Distance => distances::distance(out, line),
        Command::Text => text::text(out, line),
        Command::Code => text::code(out, line),
        Command::Check => reads::check(out, line),
        Command::Show => reads::show(out, line),
        Command::Page => reads::page(out, line),
        Command::Field => reads::field(out, line),
        Command::Pair => items::pair(out, line),
        Command::Segment => items::segment(out, line),
        Command::Term => items::term(out, line),
        Command::Char => items::character(out, line),
        Command::Index => indexes::index(out, line),
        Command::Next => rows::next(out, line),
        Command::Conform => conformities::conform(out, line),
        Command::Fetch => indexes::fetch(out, line),
        Command::Reading => readings::reading(out, line),
        Command::Compare => comparing::compare(out, line),
        Command::Change => edits::change(out, line),
        Command::Propose => edits::propose(out, line),
        Command::Commit => edits::commit(out, line),
        Command::Build => builds::build(out, line),
        Command::Unknown => printing::unknown(out),
    }
}

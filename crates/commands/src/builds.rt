// The command `build`.
ghost use Rattle.std.specs.Prelude.{◌≡◌, ◌≤◌, length};
ghost use Rattle.console_words.specs.Said.{filled, filled_said};
ghost use Rattle.commands.specs.Builds.{end_bit_word, has_curve, is_build, template_in, head as head_in, slots as slots_in, flag as flag_in, sheet as sheet_in, text_in, domain_in, points_in};
ghost use Rattle.commands.specs.Builds.{curve_in};
ghost use Rattle.commands.specs.Built.{from_points, from_curve, built_by, built_said, build_reply};
ghost use Rattle.commands.specs.Replies.{write_reply_said};

use crate::arguments::{ROOM, WrittenFront};
use crate::{arguments, curves, printing};
use build::{Sheet, Slot};
use codes::Value;
use console_words::{front, front_figures, word};
use refusal::Refusal;
use std::io::Write;
use templates::{Curve, Level, Template};
use texts::equal;

// The first word that is a value.
const VALUES: u64 = 5;

// The word of the end bit, after the values of a template's fields. The text follows it, and
// then the domain and the points, or `curve`, the segment count, the segments and the terms.
fn end_bit_word(template: Template) -> u64
    ensures { (result ≡ end_bit_word template) × (result ≤ 26) }
{
    VALUES + templates::last_field(template)
}

// Whether a line has a curve.
fn is_drawn(line: &[u8], end: u64) -> bool
    requires { end ≤ 26 }
    ensures { result ≡ has_curve line.now end }
{
    equal(word(line, end + 2), b"curve")
}

// Whether a line has as many words as a build from points or from a curve.
fn is_whole(line: &[u8], end: u64) -> bool
    requires { end ≤ 26 }
    ensures { result ≡ is_build line.now end }
{
    if is_drawn(line, end) {
        return console_words::word_count(line) == end + 6;
    }
    console_words::word_count(line) == end + 4
}

// The template that word 4 names, if the line has the words of a build from it.
fn template_in(line: &[u8]) -> Option<Template>
    ensures { result ≡ template_in line.now }
{
    let number = console_words::number_of(word(line, 4))?;
    let template = templates::template_of(number)?;
    if is_whole(line, end_bit_word(template)) {
        return Some(template);
    }
    None
}

// The kind, the buffer's length, the level and the template, words 1 to 4.
#[derive(Clone, Copy)]
struct Head {
    kind: u8,
    length: usize,
    level: Level,
    template: Template,
}

fn head_of(line: &[u8]) -> Option<Head>
    ensures { result ≡ head_in line.now }
{
    let kind = console_words::number_of(word(line, 1))?;
    let length = console_words::number_of(word(line, 2))?;
    let level = console_words::level_of(word(line, 3))?;
    let template = template_in(line)?;
    Some(Head {
        kind: arguments::kind_of(kind),
        length: length as usize,
        level,
        template,
    })
}

// The values of the fields, if all their words are valid; missing after the template's last.
fn slots_of(line: &[u8], template: Template) -> Option<[Slot; 21]>
    ensures { result ≡ slots_in line.now template }
{
    let mut fields = [Slot {
        value: Value::Missing,
    }; 21];
    let last = templates::last_field(template) as usize;
    for at in 0..last {
        let value = console_words::value_of(word(line, VALUES + at as u64))?;
        fields[at] = Slot { value };
    }
    Some(fields)
}

// A word that is 0 or 1.
fn flag_of(word: &[u8]) -> Option<u64>
    ensures { result ≡ flag_in word.now }
{
    let n = console_words::number_of(word)?;
    if n > 1 {
        return None;
    }
    Some(n)
}

// The sheet record, if its words are valid.
fn sheet_of(line: &[u8], template: Template, level: Level) -> Option<Sheet>
    ensures { result ≡ sheet_in line.now template level }
{
    let bit = flag_of(word(line, end_bit_word(template)))?;
    let fields = slots_of(line, template)?;
    Some(Sheet {
        template,
        fields,
        end_bit: bit == 1,
        level,
    })
}

// Puts the text at the start of a buffer.
fn text_of(line: &[u8], end: u64, text: &mut [u8]) -> Option<usize>
    requires { end ≤ 26 }
    ensures { filled_said result text.new ≡ filled (text_in line.now end) text.old }
{
    console_words::bytes_of(word(line, end + 1), text)
}

// The domain: 0 or 1.
fn domain_of(line: &[u8], end: u64) -> Option<u64>
    requires { end ≤ 26 }
    ensures { result ≡ domain_in line.now end }
{
    flag_of(word(line, end + 2))
}

// Puts the points at the start of a buffer.
fn points_of(line: &[u8], end: u64, points: &mut [i64]) -> Option<usize>
    requires { end ≤ 26 }
    ensures { filled_said result points.new ≡ filled (points_in line.now end) points.old }
{
    console_words::figures_of(word(line, end + 3), points)
}

// The curve, from the words after `curve`.
fn curve_in(line: &[u8], end: u64) -> Option<Curve>
    requires { end ≤ 26 }
    ensures { result ≡ curve_in line.now end }
{
    let count = console_words::number_of(word(line, end + 3))?;
    curves::curve_of(count, word(line, end + 4), word(line, end + 5))
}

// The build in a lent buffer from the text, the domain and the points, the words after the end bit's.
fn build_in(
    image: &mut [u8],
    kind: u8,
    line: &[u8],
    end: u64,
    sheet: Sheet,
    text: &mut [u8],
    points: &mut [i64],
) -> Option<Result<(), Refusal>>
    requires { end ≤ 26 }
    ensures { built_said result image.new ≡ from_points kind image.old sheet (length text.old) (length points.old) line.now end }
{
    let domain = domain_of(line, end)?;
    let characters = text_of(line, end, text)?;
    let figures = points_of(line, end, points)?;
    let domain = templates::domain_of(domain);
    let text = front(text, characters);
    let points = front_figures(points, figures);
    Some(build::build(kind, image, sheet, text, domain, points))
}

// The build in a lent buffer from the text and a curve, the words after the end bit's.
fn draw_in(
    image: &mut [u8],
    kind: u8,
    line: &[u8],
    end: u64,
    sheet: Sheet,
    text: &mut [u8],
) -> Option<Result<(), Refusal>>
    requires { end ≤ 26 }
    ensures { built_said result image.new ≡ from_curve kind image.old sheet (length text.old) line.now end }
{
    let characters = text_of(line, end, text)?;
    let curve = curve_in(line, end)?;
    let text = front(text, characters);
    Some(build::build_curve(kind, image, sheet, text, curve))
}

// The build in a lent buffer from the words after the end bit's.
fn built(
    image: &mut [u8],
    line: &[u8],
    head: Head,
    sheet: Sheet,
    text: &mut [u8],
    points: &mut [i64],
) -> Option<Result<(), Refusal>>
    ensures { built_said result image.new ≡ built_by image.old (length text.old) (length points.old) line.now head sheet }
{
    let template = head.template;
    let end = end_bit_word(template);
    if is_drawn(line, end) {
        return draw_in(image, head.kind, line, end, sheet, text);
    }
    build_in(image, head.kind, line, end, sheet, text, points)
}

// The build of a line, in the first bytes of a room.
fn build_reply(
    line: &[u8],
    room: &mut [u8],
    text: &mut [u8],
    points: &mut [i64],
) -> Option<WrittenFront>
    ensures { write_reply_said result room.new ≡ build_reply room.old (length text.old) (length points.old) line.now }
{
    let head = head_of(line)?;
    let sheet = sheet_of(line, head.template, head.level)?;
    let length = head.length.min(room.len());
    let answer = built(&mut room[..length], line, head, sheet, text, points)?;
    Some(WrittenFront { answer, length })
}

// Answers `build`: the words before the values, the sheet
// record, the text, and the domain and the points or a curve.
pub fn build(out: &mut impl Write, line: &[u8]) {
    let mut room = [0u8; ROOM];
    let mut text = [0u8; ROOM];
    let mut points = [0i64; ROOM];
    let reply = build_reply(line, &mut room, &mut text, &mut points);
    printing::write_reply(out, reply, &room);
}

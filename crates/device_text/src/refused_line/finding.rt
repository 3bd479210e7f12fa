//! Finds the position of the fault in a line.
ghost use Rattle.std.specs.Prelude.{◌≡◌, ◌↔◌, None, IfSome};
ghost use Rattle.device_text.specs.Position.{IsOfNoLine, IsPart};

use crate::digits::number;
use crate::refused_line::fields::{count, end, field, position_from};
use crate::refused_line::position::{Cause, Position};
use crate::refused_line::texts::text_at_fault;
use instructions::DeckFault;

/// The first words of lines with one field.
const ALONE: [&str; 4] = ["end", "drain", "issue", "exchange"];

/// The first words of lines with two fields, the second of which is a number.
const WITH_NUMBER: [&str; 8] = [
    "core", "at", "word", "start", "accept", "return", "bank", "ppread",
];

/// The first words of lines with two fields, the second of which is a unit.
const WITH_UNIT: [&str; 3] = ["read", "finish", "store"];

/// The first words of lines with three fields.
const WITH_TWO: [&str; 2] = ["show", "ppwrite"];

/// The first words of lines whose number is decimal and has at most two digits.
const SMALL: [&str; 3] = ["accept", "return", "bank"];

/// Whether a field is one of these words.
fn is_one_of(field: &[u8], words: &[&str]) -> bool {
    for word in words {
        if word.as_bytes() == field {
            return true;
        }
    }
    false
}

/// The number of the field at fault in an unknown line of `fields` fields that begins with a known word. If the number
/// of fields is wrong, that is the first field too many or the first one missing.
fn unknown_number(word: &[u8], fields: usize) -> usize {
    if is_one_of(word, WITH_UNIT.as_slice()) && fields == 2 {
        return 1;
    }
    let wanted = if is_one_of(word, ALONE.as_slice()) {
        1
    } else if is_one_of(word, WITH_TWO.as_slice()) {
        3
    } else {
        2
    };
    if fields == wanted { 0 } else { wanted }
}

/// The number of the field at fault in an unknown line that begins with `ask`. Its third field has to be `after` or
/// `free`, and a fourth field follows `after`.
fn unknown_number_of_ask(fields: usize) -> usize {
    if fields > 4 { 4 } else { 2 }
}

/// The position of the fault in an unknown line: its first field, or the first field that doesn't fit a known first
/// field.
fn unknown(line: &[u8]) -> Option<Position<'_>>
    ensures { IfSome result (λ position. IsPart line.now position.start position.text.now) }
{
    let first = field(line, 0)?;
    let number = if first.text == b"ask".as_slice() {
        unknown_number_of_ask(count(line))
    } else if is_known(first.text) {
        unknown_number(first.text, count(line))
    } else {
        0
    };
    match field(line, number) {
        Some(position) => Some(position),
        None => Some(end(line, Cause::LineEnd)),
    }
}

/// Whether a valid line may begin with this word.
fn is_known(word: &[u8]) -> bool {
    word == b"code".as_slice()
        || is_one_of(word, ALONE.as_slice())
        || is_one_of(word, WITH_NUMBER.as_slice())
        || is_one_of(word, WITH_UNIT.as_slice())
        || is_one_of(word, WITH_TWO.as_slice())
}

/// Whether a field is a number of the kind that a line with this first word has in this field, or the word `after`.
fn is_number(word: &[u8], at: usize, text: &[u8]) -> bool {
    if word == b"core".as_slice() {
        number(10, 6, text).is_some()
    } else if is_one_of(word, SMALL.as_slice()) {
        number(10, 2, text).is_some()
    } else if word == b"ask".as_slice() && at == 3 {
        number(10, 8, text).is_some()
    } else if word == b"word".as_slice() || (word == b"ppwrite".as_slice() && at == 2) {
        number(8, 20, text).is_some()
    } else {
        text == b"after".as_slice() || number(8, 6, text).is_some()
    }
}

/// The position of the first field that isn't a number, or else of the last field, whose number is too large.
fn bad_number(line: &[u8]) -> Option<Position<'_>>
    ensures { IfSome result (λ position. IsPart line.now position.start position.text.now) }
{
    let word = field(line, 0)?.text;
    let fields = count(line);
    for at in 1..fields {
        let position = field(line, at)?;
        if !is_number(word, at, position.text) {
            return Some(position);
        }
    }
    field(line, fields.saturating_sub(1))
}

/// The position of the address that is out of range: the address of an `at` line or one of the addresses of a `show`
/// line. For any other line, the position of the first field.
fn bad_range(line: &[u8]) -> Option<Position<'_>>
    ensures { IfSome result (λ position. IsPart line.now position.start position.text.now) }
{
    let word = field(line, 0)?;
    if word.text == b"at".as_slice() {
        return field(line, 1);
    }
    if word.text != b"show".as_slice() {
        return Some(word);
    }
    let (first, last) = (field(line, 1)?, field(line, 2)?);
    if number(8, 6, first.text) > number(8, 6, last.text) {
        Some(first)
    } else {
        Some(last)
    }
}

/// The position of a carriage return at the line's end, or of a blank that doesn't separate two fields.
fn bad_byte(line: &[u8]) -> Option<Position<'_>>
    ensures { IfSome result (λ position. IsPart line.now position.start position.text.now) }
{
    let mut was_blank = true;
    for (start, byte) in line.iter().enumerate() {
        let is_last = start + 1 == line.len();
        let cause = if *byte == b'\r' && is_last {
            Cause::CarriageReturn
        } else if *byte == b' ' && (was_blank || is_last) {
            Cause::Blank
        } else {
            was_blank = *byte == b' ';
            continue;
        };
        let text = &line[start..start + 1];
        return Some(Position { start, text, cause });
    }
    None
}

/// The position of a fault in a line, if a part of the line can be found that is at fault.
fn within(fault: DeckFault, line: &[u8]) -> Option<Position<'_>>
    ensures { IfSome result (λ position. IsPart line.now position.start position.text.now) }
{
    match fault {
        DeckFault::Long => Some(position_from(
            line,
            line.len().saturating_sub(1),
            b' ',
            Cause::Length,
        )),
        DeckFault::First => bad_byte(line),
        DeckFault::Unknown => bad_byte(line).or(unknown(line)),
        DeckFault::Number => bad_byte(line).or(bad_number(line)),
        DeckFault::Instruction => bad_byte(line).or(text_at_fault(line)),
        DeckFault::Full => text_at_fault(line),
        DeckFault::Range => bad_range(line),
        DeckFault::Size => field(line, 1),
        DeckFault::Package => field(line, 1),
        _ => None,
    }
}

/// Finds the position of a fault in the line that has it. If no better position is known, that is the line's first
/// field. Returns `None` if the fault is in no line: too many lines were read, or the input has ended.
pub fn find_fault(fault: DeckFault, line: &[u8]) -> Option<Position<'_>>
    ensures part { IfSome result (λ position. IsPart line.now position.start position.text.now) }
    ensures none { result ≡ None ↔ IsOfNoLine fault }
{
    match fault {
        DeckFault::Lines => None,
        DeckFault::NoEnd => None,
        _ if line.is_empty() => Some(end(line, Cause::LineEnd)),
        other => match within(other, line) {
            Some(position) => Some(position),
            None => Some(position_from(line, 0, b' ', Cause::Text)),
        },
    }
}

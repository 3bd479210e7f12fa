ghost use Rattle.std.specs.Prelude.{◌≡◌, ◌∷◌};
ghost use Rattle.device_text.specs.Text.{fields_of, number_of, other_parts};
ghost use Rattle.job_deck.specs.Schedule.{schedule_line, line_of_fields, line_of_one_field, line_of_two_fields};
ghost use Rattle.job_deck.specs.Schedule.{line_of_three_fields, line_with_number};

use device_text::{first_part, number, unit_named};
use instructions::DeckFault;
use program_order::Event;
use word60::Word60;

/// The meaning of one line of a schedule.
#[derive(Clone, Copy, Debug, Drop, PartialEq, Eq)]
pub enum ScheduleLine {
    /// The machine is to make this event.
    Makes(Event),
    /// The schedule ends here.
    Ends,
    /// The schedule ends here, and the machine is to be drained.
    Drains,
    /// The line is refused.
    Faulty(DeckFault),
}

/// Parses the number of a place, a channel or a bank: one or two decimal digits.
fn small_number(digits: &[u8]) -> Option<u8>
    ensures { result ≡ number_of 10 2 digits.now }
{
    Some(number(10, 2, digits)? as u8)
}

/// Parses an absolute address: one to six octal digits.
fn address(digits: &[u8]) -> Option<u32>
    ensures { result ≡ number_of 8 6 digits.now }
{
    Some(number(8, 6, digits)? as u32)
}

/// Parses a line of one field.
fn line_of_one_field(word: &[u8]) -> ScheduleLine
    ensures { result ≡ line_of_one_field word.now }
{
    if word == b"issue".as_slice() {
        ScheduleLine::Makes(Event::Issue)
    } else if word == b"exchange".as_slice() {
        ScheduleLine::Makes(Event::Exchange)
    } else if word == b"end".as_slice() {
        ScheduleLine::Ends
    } else if word == b"drain".as_slice() {
        ScheduleLine::Drains
    } else {
        ScheduleLine::Faulty(DeckFault::Unknown)
    }
}

/// Parses a line of two fields of which the second is a number.
fn line_with_number(word: &[u8], field: &[u8]) -> ScheduleLine
    ensures { result ≡ line_with_number word.now field.now }
{
    let event = if word == b"accept".as_slice() {
        small_number(field).map(Event::Accept)
    } else if word == b"return".as_slice() {
        small_number(field).map(Event::Return)
    } else if word == b"bank".as_slice() {
        small_number(field).map(Event::BankFree)
    } else if word == b"ask".as_slice() {
        address(field).map(Event::Ask)
    } else if word == b"ppread".as_slice() {
        address(field).map(Event::PpRead)
    } else {
        return ScheduleLine::Faulty(DeckFault::Unknown);
    };
    match event {
        Some(event) => ScheduleLine::Makes(event),
        None => ScheduleLine::Faulty(DeckFault::Number),
    }
}

/// Parses a line of two fields.
fn line_of_two_fields(word: &[u8], field: &[u8]) -> ScheduleLine
    ensures { result ≡ line_of_two_fields word.now field.now }
{
    let event = if word == b"read".as_slice() {
        unit_named(field).map(Event::Read)
    } else if word == b"finish".as_slice() {
        unit_named(field).map(Event::Finish)
    } else if word == b"store".as_slice() {
        unit_named(field).map(Event::Store)
    } else {
        return line_with_number(word, field);
    };
    match event {
        Some(event) => ScheduleLine::Makes(event),
        None => ScheduleLine::Faulty(DeckFault::Unknown),
    }
}

/// Parses a line of three fields.
fn line_of_three_fields(word: &[u8], field: &[u8], other: &[u8]) -> ScheduleLine
    ensures { result ≡ line_of_three_fields word.now field.now other.now }
{
    if word != b"ppwrite".as_slice() {
        return ScheduleLine::Faulty(DeckFault::Unknown);
    }
    let Some(at) = address(field) else {
        return ScheduleLine::Faulty(DeckFault::Number);
    };
    match Word60::from_octal(other) {
        Some(word) => ScheduleLine::Makes(Event::PpWrite(at, word)),
        None => ScheduleLine::Faulty(DeckFault::Number),
    }
}

/// Parses a line from its first two fields and the text after them.
fn line_of_more_fields(word: &[u8], field: &[u8], rest: &[u8]) -> ScheduleLine
    ensures { result ≡ line_of_fields (word.now ∷ field.now ∷ fields_of rest.now) }
{
    match first_part(rest, b' ') {
        (other, None) => line_of_three_fields(word, field, other),
        (_, Some(_)) => ScheduleLine::Faulty(DeckFault::Unknown),
    }
}

/// Parses a line from its first field and the text after it, if there is any.
fn line_of_fields(word: &[u8], rest: Option<&[u8]>) -> ScheduleLine
    ensures { result ≡ line_of_fields (word.now ∷ other_parts 32 rest.entry) }
{
    let Some(rest) = rest else {
        return line_of_one_field(word);
    };
    match first_part(rest, b' ') {
        (field, None) => line_of_two_fields(word, field),
        (field, Some(more)) => line_of_more_fields(word, field, more),
    }
}

/// Parses a line of a schedule.
pub fn parse_schedule_line(text: &[u8]) -> ScheduleLine
    ensures { result ≡ schedule_line text.now }
{
    let (word, rest) = first_part(text, b' ');
    line_of_fields(word, rest)
}

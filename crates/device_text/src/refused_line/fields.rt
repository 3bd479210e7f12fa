//! The fields of a line, separated by blanks.
ghost use Rattle.std.specs.Prelude.{◌≤◌, length, IfSome};
ghost use Rattle.device_text.specs.Position.{IsPart};

use crate::fields::first_part;
use crate::refused_line::position::{Cause, Position};

/// Counts the fields of a line.
pub fn count(line: &[u8]) -> usize {
    let mut fields = 1usize;
    for byte in line {
        if *byte == b' ' {
            fields = fields.saturating_add(1);
        }
    }
    fields
}

/// The position at which this ending of a line begins.
pub fn start_of(line: &[u8], ending: &[u8]) -> usize
    ensures { result ≤ length line.now }
{
    line.len().saturating_sub(ending.len())
}

/// The position at which a field begins. Fields are numbered from 0.
fn start(line: &[u8], number: usize) -> Option<usize>
    ensures { IfSome result (λ start. start ≤ length line.now) }
{
    let mut ending = line;
    for _ in 0..number {
        ending = first_part(ending, b' ').1?;
    }
    Some(start_of(line, ending))
}

/// The text of a line from a byte on, up to a separator.
fn text_from(line: &[u8], start: usize, separator: u8) -> &[u8]
    requires { start ≤ length line.now }
    ensures { IsPart line.now start result.now }
{
    let rest = &line[start..];
    match rest.iter().position(|byte| *byte == separator) {
        Some(end) => &rest[..end],
        None => rest,
    }
}

/// The position of the text from a byte on, up to a separator.
pub fn position_from(line: &[u8], start: usize, separator: u8, cause: Cause) -> Position<'_>
    requires { start ≤ length line.now }
    ensures { IsPart line.now result.start result.text.now }
{
    Position {
        start,
        text: text_from(line, start, separator),
        cause,
    }
}

/// The position of the field with this number.
pub fn field(line: &[u8], number: usize) -> Option<Position<'_>>
    ensures { IfSome result (λ position. IsPart line.now position.start position.text.now) }
{
    let start = start(line, number)?;
    Some(position_from(line, start, b' ', Cause::Text))
}

/// The position of the end of a line, with this cause.
pub fn end(line: &[u8], cause: Cause) -> Position<'_>
    ensures { IsPart line.now result.start result.text.now }
{
    Position {
        start: line.len(),
        text: &line[line.len()..],
        cause,
    }
}

//! A position in a line, and its printed form.

use std::fmt;
use std::fmt::{Display, Formatter, Write};

/// The largest number of bytes of a text that is printed.
const MOST_SHOWN_BYTES: usize = 32;

/// The cause of a fault at a position.
#[derive(Clone, Copy, Debug, Drop, PartialEq, Eq)]
pub enum Cause {
    /// The text is at fault.
    Text,
    /// The text is a floating-point instruction, which this machine doesn't have.
    FloatingPoint,
    /// A carriage return is at the end of the line. It isn't part of a line end here.
    CarriageReturn,
    /// A blank is at the beginning of the line, at its end or after another blank.
    Blank,
    /// The text has no blank before it.
    NoBlank,
    /// The line ends here, and a field is missing.
    LineEnd,
    /// The line is too long.
    Length,
}

/// The position of the fault in a line.
#[derive(Clone, Copy, Debug, Drop, PartialEq, Eq)]
pub struct Position<'a> {
    /// The number of bytes before the fault in the line.
    pub start: usize,
    /// The text at fault: a field or the text of an instruction, up to its end.
    pub text: &'a [u8],
    pub cause: Cause,
}

impl Position<'_> {
    /// Prints the text. A long text is cut off, and unprintable bytes are escaped.
    fn shown<W: Write>(&self, f: &mut Formatter<W>) -> fmt::Result {
        let shown = self.text.len().min(MOST_SHOWN_BYTES);
        let rest = if shown < self.text.len() { ".." } else { "" };
        write!(f, "'{}'{rest}", self.text[..shown].escape_ascii())
    }
}

impl Display for Position<'_> {
    fn fmt<W: Write>(&self, f: &mut Formatter<W>) -> fmt::Result {
        write!(f, "column {}: ", self.start.saturating_add(1))?;
        match self.cause {
            Cause::Text => self.shown(f),
            Cause::FloatingPoint => {
                self.shown(f)?;
                f.write_str(" is floating point, which isn't implemented")
            }
            Cause::CarriageReturn => f.write_str("a carriage return"),
            Cause::Blank => f.write_str("a blank too many"),
            Cause::NoBlank => f.write_str("a blank is missing"),
            Cause::LineEnd => f.write_str("a field is missing"),
            Cause::Length => f.write_str("the line goes on"),
        }
    }
}

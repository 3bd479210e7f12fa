//! Finds the fault in a refused line: its column and the text there. If standard error is a terminal, the program shows
//! both after its fault line, to help the author of the deck. Nothing else depends on them.
//!
//! The text that `find_fault` returns is the text of the line at the column that it returns. The rows of
//! decks/pages/refusals.md show which column belongs to which fault.

mod fields;
mod finding;
mod position;
mod texts;

pub use finding::find_fault;
pub use position::{Cause, Position};

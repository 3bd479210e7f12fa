//! Reading and writing lines of bytes, whatever their meaning. This crate has inputs and outputs that record failures,
//! and reads lines, fields, numbers and names. It also has the pieces that printed lines are made of, and finds where
//! the fault of a refused line is.
//!
//! Callers rely on `read_line` and `put_pieces`. `read_line` reads a line to its end and nothing past it. `put_pieces`
//! writes exactly the text of the pieces, or a prefix of it if a write fails. `find_fault` is for people at a terminal
//! alone. Its tests are in `crates/text_tests/src/device_tests.rt` and `crates/text_tests/src/refused_line_tests.rt`.
//! Begin with `Input` and `Output`, the devices, in `input` and `output`; then `read_line` in `line` and `Piece` in
//! `piece`.
#![tactic(auto)]

mod buffered;
mod digits;
mod failures;
mod fields;
mod input;
mod line;
mod output;
mod piece;
mod refused_line;
mod spelling;

pub use buffered::CheckedBufReader;
pub use digits::number;
pub use fields::first_part;
pub use input::{CheckedReader, Input, ReadFailed};
pub use line::{LONGEST_LINE, LineBuffer, LineRead, read_line};
pub use output::{CheckedWriter, Output, WriteFailed};
pub use piece::{Piece, put_pieces};
pub use refused_line::{Cause, Position, find_fault};
pub use spelling::unit_named;

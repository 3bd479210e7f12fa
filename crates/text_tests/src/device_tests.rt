//! Tests of lines that are read, and of pieces, with a device that fails.

use crate::fixtures::Dripping;
use arrayvec::ArrayVec;
use device_text::{
    CheckedBufReader, CheckedReader, CheckedWriter, Input, LineRead, Output, Piece, WriteFailed,
    put_pieces, read_line,
};
use instructions::Unit;
use std::alloc::{AllocError, Global};
use std::process::Abort;
use std::test::Fail;

/// The result of each call of `read_line` on a text, with the line. The lines are a whole one, an empty one and one
/// without a line end. Nothing follows them.
const LINES: [(LineRead, &str); 4] = [
    (LineRead::Whole, "one"),
    (LineRead::Whole, ""),
    (LineRead::Whole, "last"),
    (LineRead::Nothing, ""),
];

/// Expects the lines of the text.
fn expect_lines<I: Input>(rt: &impl Abort, input: &mut I) -> Result<(), Fail> {
    let mut line = ArrayVec::new();
    for (took, text) in &LINES {
        let is_read = read_line(input, &mut line) == Ok(*took);
        assert!(rt; is_read && line.as_slice() == text.as_bytes());
    }
    Ok(())
}

/// Reads the lines from a plain reader and from a buffered one.
#[test]
fn lines(rt: HostRuntime) -> Result<(), Fail> {
    let mut bytes = b"one\n\nlast".as_slice();
    let mut buffered = bytes;
    expect_lines(&rt, &mut CheckedReader::new(&mut bytes))?;
    expect_lines(&rt, &mut CheckedBufReader::new(&mut buffered))
}

/// A line of `length` sevens and a text after it.
fn sevens(alloc: Global, length: u32) -> Result<Vec<u8>, AllocError> {
    let mut text = Vec::new(alloc);
    for _ in 0..length {
        text.push(b'7')?;
    }
    text.extend_from_slice(b"\nrest")?;
    Ok(text)
}

/// A line of 200 bytes is whole. Of a longer line 201 bytes are read.
#[test]
fn long_lines(rt: HostRuntime) -> Result<(), Fail> {
    for (length, took) in [(200u32, LineRead::Whole), (201, LineRead::Long)] {
        let text = sevens(rt.alloc(), length)?;
        let mut bytes = text.as_slice();
        let mut line = ArrayVec::new();
        let read = read_line(&mut CheckedReader::new(&mut bytes), &mut line);
        assert!(rt; read == Ok(took) && line.len() == length as usize);
    }
    Ok(())
}

/// The bytes that a writer takes before it fails are a prefix of the pieces' text, and a flush delivers them.
#[test]
fn pieces(rt: HostRuntime) -> Result<(), Fail> {
    let line = b"longadd 100 18446744073709551615".as_slice();
    for most in [0, 1, 8, 31, 32] {
        let mut dripping = Dripping {
            bytes: Vec::new(rt.alloc()),
            most,
            handed_on: 0,
        };
        let mut output = CheckedWriter::new(&mut dripping);
        let pieces = [
            Piece::UnitName(Unit::LongAdd),
            Piece::Text(b" "),
            Piece::Address(0o100),
            Piece::Text(b" "),
            Piece::Count(18_446_744_073_709_551_615),
        ];
        let put = put_pieces(&mut output, pieces.as_slice());
        let wanted = if most < 32 { Err(WriteFailed) } else { Ok(()) };
        let is_put = put == wanted && output.flush().is_ok();
        assert!(rt;
            is_put && dripping.handed_on == most && dripping.bytes.as_slice() == &line[..most],
            "{most}"
        );
    }
    Ok(())
}

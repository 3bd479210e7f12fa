//! Tests of logs that are read from the line after a deck.

use crate::fixtures::Failing;
use device_text::CheckedReader;
use instructions::Refusal;
use log_text::read_log_from;
use std::alloc::Global;
use std::io::Read;
use std::test::Fail;

/// The number of entries and the number of instructions of the log in the next line.
fn sizes<R: Read>(alloc: Global, reader: &mut R) -> Result<Option<(usize, u64)>, Refusal> {
    let mut input = CheckedReader::new(reader);
    let Some(log) = read_log_from(alloc, &mut input)? else {
        return Ok(None);
    };
    Ok(Some((log.entries().len(), log.issues())))
}

/// The number of a read that doesn't come.
const NEVER: u64 = 1000;

/// The bytes after a deck, the number of the read that fails, the sizes of the log in the first line, if the line is a
/// log, and the bytes left unread.
const LINES: [(&str, u64, Result<Option<(usize, u64)>, Refusal>, &str); 21] = [
    ("E40 I4\nmore", NEVER, Ok(Some((2, 4))), "more"),
    ("E40 I4", NEVER, Ok(Some((2, 4))), ""),
    ("none\nmore", NEVER, Ok(Some((0, 0))), "more"),
    ("none", NEVER, Ok(Some((0, 0))), ""),
    (
        "W777777=77777777777777777777 R0\n",
        NEVER,
        Ok(Some((2, 0))),
        "",
    ),
    ("I10000000\n\n", NEVER, Ok(Some((1, 10_000_000))), "\n"),
    ("", NEVER, Ok(None), ""),
    ("\nE40 I4\n", NEVER, Ok(None), "E40 I4\n"),
    (" E40\n", NEVER, Ok(None), "E40\n"),
    ("none E40\n", NEVER, Ok(None), "E40\n"),
    ("none \n", NEVER, Ok(None), "\n"),
    ("E40 none\n", NEVER, Ok(None), ""),
    ("E40 \nI4\n", NEVER, Ok(None), "I4\n"),
    ("E40 E8 I1\nmore", NEVER, Ok(None), "I1\nmore"),
    ("I2 I3 E40\n", NEVER, Ok(None), "E40\n"),
    (
        "E40 W777777=777777777777777777777 I1\n",
        NEVER,
        Ok(None),
        " I1\n",
    ),
    ("E40 W777777=777777777777777777777", NEVER, Ok(None), ""),
    ("I9999999 E0 I2\nmore", NEVER, Ok(None), "more"),
    // Each of the seven bytes of this line is a read.
    ("E40 I4\n", 1, Err(Refusal::Read), "E40 I4\n"),
    ("E40 I4\n", 7, Err(Refusal::Read), "\n"),
    ("E40 I4\n", 8, Ok(Some((2, 4))), ""),
];

#[test]
fn reads_lines(rt: HostRuntime) -> Result<(), Fail> {
    for (bytes, fails_from, wanted, left) in &LINES {
        let mut reader = Failing {
            bytes: bytes.as_bytes(),
            turn: 0,
            fails_from: *fails_from,
        };
        let found = sizes(rt.alloc(), &mut reader);
        assert!(rt;
            found == *wanted && reader.bytes == left.as_bytes(),
            "{bytes}"
        );
    }
    Ok(())
}

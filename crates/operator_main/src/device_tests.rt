ghost use Rattle.std.specs.Prelude.{Some};

use super::program::{Streams, program};
use super::test_program::{TWO_ADDS, TWO_ADDS_DUMP, words};
use std::io;
use std::io::{ErrorKind, Read, Write};
use std::process::Abort;
use std::sync::Wait;
use std::test::Fail;
use std::thread::Threads;
use std::time::Clock;

/// A reader of bytes in memory, a few per read. Reads fail from read number `fails_from` on.
#[derive(Drop)]
struct Failing<'a> {
    bytes: &'a [u8],
    turn: u64,
    fails_from: u64,
}

impl Read for Failing<'_> {
    ghost remaining = { λ f. Some f.bytes.now };

    fn read(&mut self, buf: &mut [u8]) -> io::Result<usize> {
        self.turn = self.turn.wrapping_add(1);
        if self.turn >= self.fails_from {
            return Err(io::Error::from(ErrorKind::Other));
        }
        let few = buf.len().min(7);
        self.bytes.read(&mut buf[..few])
    }
}

/// A writer that takes one byte per call. Calls fail from call number `fails_from` on.
#[derive(Drop)]
struct Dripping {
    bytes: Vec<u8>,
    turn: u64,
    fails_from: u64,
}

impl Write for Dripping {
    ghost contents = { λ d. Some d.bytes.items };

    fn write(&mut self, buf: &[u8]) -> io::Result<usize> {
        self.turn = self.turn.wrapping_add(1);
        if self.turn >= self.fails_from {
            return Err(io::Error::from(ErrorKind::Other));
        }
        match buf.first() {
            None => Ok(0),
            Some(byte) => {
                self.bytes.push(*byte)?;
                Ok(1)
            }
        }
    }

    fn flush(&mut self) -> io::Result<()> {
        Ok(())
    }
}

#[test]
fn failing_reads(rt: HostRuntime) -> Result<(), Fail> {
    let words = words(rt.alloc(), ["run"].as_slice())?;
    let reads = TWO_ADDS.len().div_ceil(7) as u64;
    for fails_from in 1..reads + 2 {
        let mut streams = Streams {
            input: Failing {
                bytes: TWO_ADDS,
                turn: 0,
                fails_from,
            },
            output: Vec::new(rt.alloc()),
            faults: Vec::new(rt.alloc()),
            is_at_terminal: false,
        };
        let answer = program(&rt, rt.alloc(), words.as_slice(), &mut streams);
        let (output, faults) = (streams.output.as_slice(), streams.faults.as_slice());
        if fails_from <= reads {
            assert_eq!(rt; faults, b"cdc6600: E22 read failed\n".as_slice());
            assert!(rt; output.is_empty());
            assert_eq!(rt; answer, 7);
        } else {
            assert!(rt; faults.is_empty());
            assert_eq!(rt; output, TWO_ADDS_DUMP);
            assert_eq!(rt; answer, 0);
        }
    }
    Ok(())
}

#[test]
fn failing_writes(rt: HostRuntime) -> Result<(), Fail> {
    let words = words(rt.alloc(), ["run"].as_slice())?;
    let writes = TWO_ADDS_DUMP.len() as u64;
    for fails_from in [1, 2, 44, 45, writes - 1, writes, writes + 1] {
        let mut streams = Streams {
            input: TWO_ADDS,
            output: Dripping {
                bytes: Vec::new(rt.alloc()),
                turn: 0,
                fails_from,
            },
            faults: Vec::new(rt.alloc()),
            is_at_terminal: false,
        };
        let answer = program(&rt, rt.alloc(), words.as_slice(), &mut streams);
        let (output, faults) = (streams.output.bytes.as_slice(), streams.faults.as_slice());
        assert_eq!(rt; output.len() as u64, fails_from.saturating_sub(1));
        assert!(rt; TWO_ADDS_DUMP.starts_with(output));
        if fails_from <= writes {
            assert_eq!(rt; faults, b"cdc6600: E23 write failed\n".as_slice());
            assert_eq!(rt; answer, 7);
        } else {
            assert!(rt; faults.is_empty());
            assert_eq!(rt; answer, 0);
        }
    }
    Ok(())
}

/// A failing fault stream changes no status. Help that can't be written is a fault.
#[test]
fn failing_faults(rt: HostRuntime) -> Result<(), Fail> {
    for (text, input, status) in [
        ("run", b"core 31\n".as_slice(), 1),
        ("walk", b"".as_slice(), 2),
        ("--help", b"".as_slice(), 7),
    ] {
        let words = words(rt.alloc(), [text].as_slice())?;
        let mut streams = Streams {
            input,
            output: Dripping {
                bytes: Vec::new(rt.alloc()),
                turn: 0,
                fails_from: 1,
            },
            faults: Dripping {
                bytes: Vec::new(rt.alloc()),
                turn: 0,
                fails_from: 1,
            },
            is_at_terminal: false,
        };
        let answer = program(&rt, rt.alloc(), words.as_slice(), &mut streams);
        assert_eq!(rt; answer, status);
    }
    Ok(())
}

/// A writer that takes all bytes of each call and counts the calls.
#[derive(Drop)]
struct Counting {
    bytes: Vec<u8>,
    calls: u64,
}

impl Write for Counting {
    ghost contents = { λ c. Some c.bytes.items };

    fn write(&mut self, buf: &[u8]) -> io::Result<usize> {
        self.calls = self.calls.wrapping_add(1);
        self.bytes.extend_from_slice(buf)?;
        Ok(buf.len())
    }

    fn flush(&mut self) -> io::Result<()> {
        Ok(())
    }
}

/// The text of a fault is written in one call, so that the lines of programs that run at the same time don't mix. It is
/// one line, and at a terminal a second one with the position of the fault, if the fault is in a line.
const TOLD: [(&[u8], &[u8], &[u8]); 4] = [
    (
        b"core 31\n",
        b"cdc6600: E20 line 1: size\n",
        b"cdc6600: E20 line 1: size\ncdc6600: column 6: '31'\n",
    ),
    (
        b"core 256\nput 7\n",
        b"cdc6600: E20 line 2: unknown\n",
        b"cdc6600: E20 line 2: unknown\ncdc6600: column 1: 'put'\n",
    ),
    (
        b"core 256\ncode NO; FX1 X2+X3\n",
        b"cdc6600: E20 line 2: instruction\n",
        b"cdc6600: E20 line 2: instruction\n\
        cdc6600: column 10: 'FX1 X2+X3' is floating point, which isn't implemented\n",
    ),
    (
        b"core 256\n",
        b"cdc6600: E20 line 2: no end\n",
        b"cdc6600: E20 line 2: no end\n",
    ),
];

/// Expects that the program tells this text in one call, at a terminal or elsewhere.
fn expect_told(
    rt: &(impl Abort + AllocGlobal + Threads + Wait + Clock + Sync),
    deck: &[u8],
    told: &[u8],
    is_at_terminal: bool,
) -> Result<(), Fail> {
    let words = words(rt.alloc(), ["list"].as_slice())?;
    let mut streams = Streams {
        input: deck,
        output: Vec::new(rt.alloc()),
        faults: Counting {
            bytes: Vec::new(rt.alloc()),
            calls: 0,
        },
        is_at_terminal,
    };
    let answer = program(rt, rt.alloc(), words.as_slice(), &mut streams);
    let faults = &streams.faults;
    assert_eq!(rt;
        (answer, faults.bytes.as_slice(), faults.calls),
        (1, told, 1)
    );
    Ok(())
}

#[test]
fn tells_a_fault_at_once(rt: HostRuntime) -> Result<(), Fail> {
    for (deck, told, told_at_terminal) in TOLD {
        expect_told(&rt, deck, told, false)?;
        expect_told(&rt, deck, told_at_terminal, true)?;
    }
    Ok(())
}

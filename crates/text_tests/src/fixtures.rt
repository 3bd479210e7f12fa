//! Fixtures shared by the tests: devices that fail, texts and a deck.

ghost use Rattle.std.specs.Prelude.{Some};

use std::alloc::{AllocError, Global};
use std::io;
use std::io::{ErrorKind, Read, Write};

/// A reader of bytes in memory, a few per read. Reads fail from read number `fails_from` on.
#[derive(Drop)]
pub struct Failing<'a> {
    pub bytes: &'a [u8],
    pub turn: u64,
    pub fails_from: u64,
}

impl Read for Failing<'_> {
    ghost remaining = { λ f. Some f.bytes.now };

    fn read(&mut self, buf: &mut [u8]) -> io::Result<usize> {
        self.turn = self.turn.wrapping_add(1);
        if self.turn >= self.fails_from {
            return Err(io::Error::from(ErrorKind::Other));
        }
        let few = buf.len().min(7);
        self.bytes.read(&mut buf[..few])
    }
}

/// A writer that takes one byte per call. It fails once it has `most` bytes, and counts the flushed bytes.
#[derive(Drop)]
pub struct Dripping {
    pub bytes: Vec<u8>,
    pub most: usize,
    pub handed_on: usize,
}

impl Write for Dripping {
    ghost contents = { λ d. Some d.bytes.items };

    fn write(&mut self, buf: &[u8]) -> io::Result<usize> {
        if self.bytes.len() >= self.most {
            return Err(io::Error::from(ErrorKind::Other));
        }
        match buf.first() {
            None => Ok(0),
            Some(byte) => {
                self.bytes.push(*byte)?;
                Ok(1)
            }
        }
    }

    fn flush(&mut self) -> io::Result<()> {
        self.handed_on = self.bytes.len();
        Ok(())
    }
}

/// Several texts, one after another.
pub fn joined(alloc: Global, texts: &[&str]) -> Result<Vec<u8>, AllocError> {
    let mut all = Vec::new(alloc);
    for text in texts {
        all.extend_from_slice(text.as_bytes())?;
    }
    Ok(all)
}

/// A deck with four words: a package at 40, and a program of two increments, a sum and a difference.
pub const DECK: &str = "\
    core 256\n\
    at 100\n\
    word 71100000057120000003\n\
    word 36312374214600000000\n\
    at 41\n\
    word 100000000000000\n\
    word 00000020000000000000\n\
    start 40\n\
    end\n";

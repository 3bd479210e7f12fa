ghost use Rattle.std.specs.Prelude.{◌≡◌, ℕ, Bool, List, Option, true, false, IfOk, OnErr};
ghost use Rattle.std.specs.Io.KnownBytes.{Keeps};
ghost use Rattle.device_text.specs.Device.{Moves, Takes, failed_after};

use std::io::Read;

/// A read returned an error.
#[derive(Clone, Copy, Debug, PartialEq, Eq)]
pub struct ReadFailed;

/// A device from which bytes are read one by one, and which records whether a read has failed.
pub trait Input {
    /// The bytes not read yet, if they are known.
    ghost remaining: { Self → Option (List ℕ) };

    /// Whether a read has failed.
    ghost has_failed: { Self → Bool };

    /// The ghost name of the reader that the device borrows, or 0 if it borrows none.
    ghost lender: { Self → ℕ };

    /// Reads the next byte. Returns `None` at the end.
    fn next_byte(&mut self) -> Result<Option<u8>, ReadFailed>
        ensures byte { IfOk result (λ byte. Moves (remaining self.old) (remaining self.new) (Takes byte)) }
        ensures err { OnErr result (Keeps (remaining self.old) (remaining self.new)) }
        ensures failure { has_failed self.new ≡ failed_after (has_failed self.old) result }
        ensures same { lender self.new ≡ lender self.old };
}

/// A reader that records whether a read has failed.
#[derive(Drop)]
pub struct CheckedReader<'a, R> {
    reader: &'a mut R,
    failed: bool,
}

impl<'a, R: Read> CheckedReader<'a, R> {
    pub fn new(reader: &'a mut R) -> CheckedReader<'a, R>
        ensures reader { result.reader ≡ reader.entry }
        ensures fresh { result.failed ≡ false }
    {
        CheckedReader {
            reader,
            failed: false,
        }
    }

    /// Returns the borrowed reader, even if a read has failed.
    pub fn into_inner(self) -> &'a mut R
        ensures { result ≡ self.entry.reader }
    {
        let CheckedReader { reader, failed: _ } = self;
        reader
    }
}

impl<'a, R: Read> Input for CheckedReader<'a, R> {
    ghost remaining = { λ w. R.remaining w.reader.now };

    ghost has_failed = { λ w. w.failed };

    ghost lender = { λ w. w.reader.ghost_name };

    fn next_byte(&mut self) -> Result<Option<u8>, ReadFailed> {
        let mut byte = [0u8; 1];
        match self.reader.read(&mut byte) {
            Ok(0) => Ok(None),
            Ok(_) => Ok(Some(byte[0])),
            Err(_) => {
                self.failed = true;
                Err(ReadFailed)
            }
        }
    }
}

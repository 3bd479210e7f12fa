ghost use Rattle.std.specs.Prelude.{◌≡◌, false};

use crate::input::{Input, ReadFailed};
use std::io::BufRead;

/// A buffered reader that records whether a read has failed. Taking a byte out of the reader's buffer costs much less
/// than reading one byte.
#[derive(Drop)]
pub struct CheckedBufReader<'a, R> {
    reader: &'a mut R,
    failed: bool,
}

impl<'a, R: BufRead> CheckedBufReader<'a, R> {
    pub fn new(reader: &'a mut R) -> CheckedBufReader<'a, R>
        ensures reader { result.reader ≡ reader.entry }
        ensures fresh { result.failed ≡ false }
    {
        CheckedBufReader {
            reader,
            failed: false,
        }
    }
}

impl<'a, R: BufRead> Input for CheckedBufReader<'a, R> {
    ghost remaining = { λ w. R.remaining w.reader.now };

    ghost has_failed = { λ w. w.failed };

    ghost lender = { λ w. w.reader.ghost_name };

    fn next_byte(&mut self) -> Result<Option<u8>, ReadFailed> {
        let byte = match self.reader.fill_buf() {
            Ok(bytes) => match bytes.first() {
                Some(byte) => *byte,
                None => return Ok(None),
            },
            Err(_) => {
                self.failed = true;
                return Err(ReadFailed);
            }
        };
        self.reader.consume(1);
        Ok(Some(byte))
    }
}

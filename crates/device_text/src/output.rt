ghost use Rattle.std.specs.Prelude.{◌≡◌, ℕ, Bool, List, Option, true, false};
ghost use Rattle.std.specs.Io.KnownBytes.{Keeps};
ghost use Rattle.device_text.specs.Device.{Writes, failed_after, waits_after};

use std::io::Write;

/// A write or a flush returned an error, or a write took none of the bytes given to it.
#[derive(Clone, Copy, Debug, PartialEq, Eq)]
pub struct WriteFailed;

/// A device to which bytes are appended. It records whether a write has failed, and whether bytes are still to be
/// flushed.
pub trait Output {
    /// The bytes written so far, if they are known.
    ghost contents: { Self → Option (List ℕ) };

    /// Whether a write or a flush has failed.
    ghost has_failed: { Self → Bool };

    /// Whether some of the bytes written may still have to be flushed.
    ghost waits: { Self → Bool };

    /// The ghost name of the writer that the device borrows, or 0 if it borrows none.
    ghost lender: { Self → ℕ };

    /// Writes all the bytes. At an error a prefix of them was written.
    fn put(&mut self, bytes: &[u8]) -> Result<(), WriteFailed>
        ensures written { Writes result (contents self.old) (contents self.new) bytes.now }
        ensures failure { has_failed self.new ≡ failed_after (has_failed self.old) result }
        ensures waiting { waits self.new ≡ true }
        ensures same { lender self.new ≡ lender self.old };

    /// Flushes the bytes written. If the flush fails, bytes that were still to be flushed remain so.
    fn flush(&mut self) -> Result<(), WriteFailed>
        ensures bytes { Keeps (contents self.old) (contents self.new) }
        ensures failure { has_failed self.new ≡ failed_after (has_failed self.old) result }
        ensures handed_on { waits self.new ≡ waits_after (waits self.old) result }
        ensures same { lender self.new ≡ lender self.old };
}

/// A writer that records whether a write or a flush has failed.
#[derive(Drop)]
pub struct CheckedWriter<'a, W> {
    writer: &'a mut W,
    failed: bool,
    waits: bool,
}

impl<'a, W: Write> CheckedWriter<'a, W> {
    pub fn new(writer: &'a mut W) -> CheckedWriter<'a, W>
        ensures writer { result.writer ≡ writer.entry }
        ensures fresh { result.failed ≡ false }
        ensures nothing_put { result.waits ≡ false }
    {
        CheckedWriter {
            writer,
            failed: false,
            waits: false,
        }
    }

    /// Returns the borrowed writer, even if a write has failed.
    pub fn into_inner(self) -> &'a mut W
        ensures { result ≡ self.entry.writer }
    {
        let CheckedWriter {
            writer,
            failed: _,
            waits: _,
        } = self;
        writer
    }
}

impl<'a, W: Write> Output for CheckedWriter<'a, W> {
    ghost contents = { λ w. W.contents w.writer.now };

    ghost has_failed = { λ w. w.failed };

    ghost waits = { λ w. w.waits };

    ghost lender = { λ w. w.writer.ghost_name };

    fn put(&mut self, bytes: &[u8]) -> Result<(), WriteFailed> {
        self.waits = true;
        let mut written = 0;
        while written < bytes.len() {
            match self.writer.write(&bytes[written..]) {
                Ok(0) => {
                    self.failed = true;
                    return Err(WriteFailed);
                }
                Ok(count) => written += count,
                Err(_) => {
                    self.failed = true;
                    return Err(WriteFailed);
                }
            }
        }
        Ok(())
    }

    fn flush(&mut self) -> Result<(), WriteFailed> {
        match self.writer.flush() {
            Ok(()) => {
                self.waits = false;
                Ok(())
            }
            Err(_) => {
                self.failed = true;
                Err(WriteFailed)
            }
        }
    }
}

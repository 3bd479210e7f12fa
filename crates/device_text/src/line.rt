ghost use Rattle.std.specs.Prelude.{◌≡◌, IfOk, OnErr, ◌++◌};
ghost use Rattle.device_text.specs.Device.{Moves, failed_after};
ghost use Rattle.device_text.specs.Line.{IsText, LineTaken, LineText};

use crate::input::{Input, ReadFailed};
use arrayvec::ArrayVec;

/// The largest number of bytes of a line, without its line end; this is the project's choice.
pub const LONGEST_LINE: usize = 200;

/// One byte more is read of a line that is longer.
const MOST_READ: usize = LONGEST_LINE + 1;

/// A buffer for a line.
pub type LineBuffer = ArrayVec<u8, MOST_READ>;

/// The result of `read_line`.
#[derive(Clone, Copy, Debug, PartialEq, Eq)]
pub enum LineRead {
    /// A whole line of at most `LONGEST_LINE` bytes.
    Whole,
    /// The first bytes of a longer line, one more than `LONGEST_LINE`.
    Long,
    /// Nothing, because the input has ended.
    Nothing,
}

/// Reads the next line into a buffer, without its line end, and nothing past the line.
///
/// # Errors
/// Fails if a read fails. The buffer then has the bytes that were read before.
pub fn read_line<I: Input>(input: &mut I, line: &mut LineBuffer) -> Result<LineRead, ReadFailed>
    ensures text { IfOk result (λ line_read. LineText line_read line.new.items) }
    ensures ok { IfOk result (λ line_read. Moves (I.remaining input.old) (I.remaining input.new)
        (LineTaken line_read line.new.items)) }
    ensures err { OnErr result (Moves (I.remaining input.old) (I.remaining input.new)
        (λ xs ys. xs ≡ line.new.items ++ ys)) }
    ensures part { OnErr result (IsText line.new.items) }
    ensures failure { I.has_failed input.new ≡ failed_after (I.has_failed input.old) result }
    ensures same { I.lender input.new ≡ I.lender input.old }
{
    line.clear();
    for _ in 0..MOST_READ {
        match input.next_byte()? {
            None => {
                return Ok(if line.is_empty() {
                    LineRead::Nothing
                } else {
                    LineRead::Whole
                });
            }
            Some(b'\n') => return Ok(LineRead::Whole),
            Some(byte) => line.push(byte),
        }
    }
    Ok(LineRead::Long)
}

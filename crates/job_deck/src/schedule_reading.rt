ghost use Rattle.std.specs.Prelude.{◌≡◌, ◌<◌, ◌≤◌, ◌+◌, IfOk, OnErr, false};
ghost use Rattle.device_text.specs.Device.{Moves, failed_after};
ghost use Rattle.device_text.specs.Line.{ReadsPart};
ghost use Rattle.job_deck.specs.inner.SessionParts.{ReadsScheduleLine};

use crate::schedule::{ScheduleLine, parse_schedule_line};
use device_text::{Input, LineBuffer, LineRead, Output, ReadFailed, read_line};
use instructions::DeckFault;

/// Reads line `number` of a schedule that begins after line `before` into a buffer, and parses it. Before each line but
/// the first, the answers must have been flushed; the function takes the output only for this requirement.
///
/// # Errors
/// `ReadFailed` if a read fails.
pub fn read_schedule_line<I: Input, O: Output>(
    input: &mut I,
    output: &O,
    line: &mut LineBuffer,
    before: u32,
    number: u32,
) -> Result<ScheduleLine, ReadFailed>
    requires count { number ≤ 10000000 }
    requires handed_on { before + 1 < number → O.waits output.now ≡ false }
    ensures line { IfOk result (λ line. Moves (I.remaining input.old) (I.remaining input.new)
        (ReadsScheduleLine number line)) }
    ensures part { OnErr result (Moves (I.remaining input.old) (I.remaining input.new) ReadsPart) }
    ensures failure { I.has_failed input.new ≡ failed_after (I.has_failed input.old) result }
    ensures same { I.lender input.new ≡ I.lender input.old }
{
    match read_line(input, line)? {
        LineRead::Whole => Ok(parse_schedule_line(line.as_slice())),
        LineRead::Long => Ok(ScheduleLine::Faulty(DeckFault::Long)),
        LineRead::Nothing => Ok(ScheduleLine::Faulty(DeckFault::NoEnd)),
    }
}

//! The log in the line after a deck, read entry by entry. The line may be of any length.
ghost use Rattle.std.specs.Prelude.{◌≡◌, ◌⊎◌, ◌||◌, ◌++◌, IfOk, OnErr, MatchResult};
ghost use Rattle.instructions.specs.declared.refusal.Refusal.TheVariants.{OutOfMemory, Read};
ghost use Rattle.deck.specs.Reading.{is_read_failure};
ghost use Rattle.device_text.specs.Device.{Moves, failed_after};
ghost use Rattle.log_text.specs.FollowingLog.{ReadsLogLine, ReadsWithinLine};
ghost use Rattle.log_text.specs.inner.LogLineParts.{FieldTaken, IsInField, ReadsEntries, ReadsSomeEntries};
ghost use Rattle.log_text.specs.inner.LogLineParts.{is_none_line};

use crate::logs::{Allowance, add_field};
use arrayvec::ArrayVec;
use device_text::{Input, ReadFailed};
use instructions::Refusal;
use sequential::Log;
use std::alloc::Global;

/// The number of bytes of the longest entry, as `W777777=77777777777777777777`.
const LONGEST_ENTRY: usize = 28;

/// One byte more is read of a field that is longer.
const MOST_READ: usize = LONGEST_ENTRY + 1;

/// A buffer for an entry.
type EntryBuffer = ArrayVec<u8, MOST_READ>;

/// What ends a field of a line.
#[derive(Clone, Copy, Debug, PartialEq, Eq)]
pub enum FieldEnd {
    /// A space.
    Space,
    /// The end of the line or of the input.
    Line,
    /// Nothing yet: these are the first bytes of a longer field, one more than `LONGEST_ENTRY`.
    Long,
}

/// Reads the next field of a line into a buffer, with the space or line end after it, and nothing past that.
///
/// # Errors
/// Fails if a read fails.
fn read_field<I: Input>(input: &mut I, field: &mut EntryBuffer) -> Result<FieldEnd, ReadFailed>
    ensures text { IfOk result (λ end. IsInField field.new.items) }
    ensures ok { IfOk result (λ end. Moves (I.remaining input.old) (I.remaining input.new)
        (FieldTaken end field.new.items)) }
    ensures err { OnErr result (Moves (I.remaining input.old) (I.remaining input.new)
        (λ xs ys. xs ≡ field.new.items ++ ys)) }
    ensures part { OnErr result (IsInField field.new.items) }
    ensures failure { I.has_failed input.new ≡ failed_after (I.has_failed input.old) result }
    ensures same { I.lender input.new ≡ I.lender input.old }
{
    field.clear();
    for _ in 0..MOST_READ {
        match input.next_byte()? {
            None | Some(b'\n') => return Ok(FieldEnd::Line),
            Some(b' ') => return Ok(FieldEnd::Space),
            Some(byte) => field.push(byte),
        }
    }
    Ok(FieldEnd::Long)
}

/// Whether a line is `none`, the text of an empty log, by the line's first field and what ends that field.
fn is_none_line(end: FieldEnd, field: &[u8]) -> bool
    ensures { result ≡ is_none_line end field.now }
{
    match end {
        FieldEnd::Line => field == b"none".as_slice(),
        FieldEnd::Space | FieldEnd::Long => false,
    }
}

/// Reads the entries of a line whose first field is in the buffer, up to the end of the line or the first field that
/// isn't an entry that may come. Returns `None` if there is such a field.
///
/// # Errors
/// `OutOfMemory` if memory runs out. `Read` if a read fails.
fn read_entries_from<I: Input>(
    alloc: Global,
    input: &mut I,
    field: &mut EntryBuffer,
    first: FieldEnd,
) -> Result<Option<Log>, Refusal>
    requires { IsInField field.old.items }
    ensures read { MatchResult result
        (λ found. Moves (I.remaining input.old) (I.remaining input.new) (ReadsEntries found first field.old.items))
        (λ refusal. (refusal ≡ OutOfMemory) ⊎ (refusal ≡ Read)) }
    ensures within { OnErr result (Moves (I.remaining input.old) (I.remaining input.new)
        (ReadsSomeEntries first field.old.items)) }
    ensures failure { I.has_failed input.new ≡ (I.has_failed input.old || is_read_failure result) }
    ensures same { I.lender input.new ≡ I.lender input.old }
{
    let mut log = Log::new(alloc);
    let mut left = Allowance::whole();
    let mut end = first;
    loop {
        match add_field(&mut log, left, field.as_slice())? {
            None => return Ok(None),
            Some(more) => left = more,
        }
        match end {
            FieldEnd::Space => end = read_field(input, field)?,
            FieldEnd::Line => return Ok(Some(log)),
            FieldEnd::Long => return Ok(None),
        }
    }
}

/// Reads the next line as the text of a log, as `read_log` parses it. Returns `None` if the line isn't the text of a
/// log; then reading may stop before the end of the line. Otherwise nothing past the line is read. The line may be of
/// any length: apart from the log, the function stores only one entry.
///
/// # Errors
/// `OutOfMemory` if memory runs out. `Read` if a read fails.
pub fn read_log_from<I: Input>(alloc: Global, input: &mut I) -> Result<Option<Log>, Refusal>
    ensures read { MatchResult result
        (λ found. Moves (I.remaining input.old) (I.remaining input.new) (ReadsLogLine found))
        (λ refusal. (refusal ≡ OutOfMemory) ⊎ (refusal ≡ Read)) }
    ensures within { OnErr result (Moves (I.remaining input.old) (I.remaining input.new) ReadsWithinLine) }
    ensures failure { I.has_failed input.new ≡ (I.has_failed input.old || is_read_failure result) }
    ensures same { I.lender input.new ≡ I.lender input.old }
{
    let mut field = EntryBuffer::new();
    let end = read_field(input, &mut field)?;
    if is_none_line(end, field.as_slice()) {
        return Ok(Some(Log::new(alloc)));
    }
    read_entries_from(alloc, input, &mut field, end)
}

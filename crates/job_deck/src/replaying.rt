ghost use Rattle.std.specs.Prelude.{◌≡◌, ◌||◌, IfOk, IsSome, false};
ghost use Rattle.deck.specs.Deck.{deck};
ghost use Rattle.device_text.specs.Device.{Moves, NothingWaits};
ghost use Rattle.deck.specs.Reading.{is_read_failure};
ghost use Rattle.job_deck.specs.Listing.{is_write_failure};
ghost use Rattle.log_text.specs.LogText.{steps_of_log};
ghost use Rattle.job_deck.specs.Replaying.{replayed_steps, Prints, Replays, ReplaysFollowing};

use crate::dumping::dump_to;
use deck::{Deck, read_deck_from};
use device_text::{CheckedReader, CheckedWriter, Input, LineBuffer, Output};
use instructions::Refusal;
use log_text::{read_log, read_log_from};
use sequential::{Log, State};
use std::alloc::Global;
use std::io::{Read, Write};

/// Boots a machine with a deck's memory, replays the log that was read and prints the machine's dump. Returns `None` if
/// no log was read.
///
/// # Errors
/// `PackageRange` if the first refused step is an exchange whose words don't lie in memory. `PeripheralRange` if it is
/// a peripheral access whose word doesn't lie in memory. `OutOfMemory` if memory runs out. `Write` if a write fails.
fn print_log<O: Output>(
    alloc: Global,
    output: &mut O,
    deck: &Deck,
    found: Option<Log>,
) -> Result<Option<State>, Refusal>
    ensures printed { Prints result (replayed_steps deck.now.image.memory (steps_of_log found)) deck.now.shows
        (O.contents output.old) (O.contents output.new) }
    ensures failure { O.has_failed output.new ≡ (O.has_failed output.old || is_write_failure result) }
    ensures handed_on { IfOk result (λ state. IsSome state → O.waits output.new ≡ false) }
    ensures kept { NothingWaits (is_write_failure result) (O.waits output.old) (O.waits output.new) }
    ensures same { O.lender output.new ≡ O.lender output.old }
{
    let Some(log) = found else {
        return Ok(None);
    };
    let memory = deck.image.memory().copy()?;
    let mut state = State::boot(memory);
    sequential::replay(&mut state, &log)?;
    dump_to(output, &state, &log, deck)?;
    Ok(Some(state))
}

/// Reads a deck, replays the log in a text on the deck's memory and prints the machine's dump. The machine executes one
/// instruction at a time. Returns its final state, or `None` if the text isn't that of a log. A fault of the deck is
/// reported before one of the log. The deck's `start` line isn't used.
///
/// # Errors
/// `Deck` with the number of a faulty line and its fault. `PackageRange` or `PeripheralRange` if a step of the log is
/// refused. `OutOfMemory` if memory runs out. `Read` or `Write` if the device fails. After a failed write the output
/// has a prefix of the dump; at any other error nothing was written.
pub fn replay_to<I: Input, O: Output>(
    alloc: Global,
    input: &mut I,
    output: &mut O,
    line: &mut LineBuffer,
    text: &str,
) -> Result<Option<State>, Refusal>
    ensures replayed { Moves (I.remaining input.old) (I.remaining input.new)
        (λ xs ys. Replays result (deck xs) ys text.now (O.contents output.old) (O.contents output.new)) }
    ensures read { I.has_failed input.new ≡ (I.has_failed input.old || is_read_failure result) }
    ensures write { O.has_failed output.new ≡ (O.has_failed output.old || is_write_failure result) }
    ensures handed_on { IfOk result (λ state. IsSome state → O.waits output.new ≡ false) }
    ensures kept { NothingWaits (is_write_failure result) (O.waits output.old) (O.waits output.new) }
    ensures input { I.lender input.new ≡ I.lender input.old }
    ensures output { O.lender output.new ≡ O.lender output.old }
{
    let (deck, _) = read_deck_from(alloc, input, line)?;
    let found = read_log(alloc, text)?;
    print_log(alloc, output, &deck, found)
}

/// Replays a log on a deck from any reader to any writer.
///
/// # Errors
/// As for `replay_to`.
pub fn replay<R: Read, W: Write>(
    alloc: Global,
    reader: &mut R,
    writer: &mut W,
    text: &str,
) -> Result<Option<State>, Refusal>
    ensures { Moves (R.remaining reader.old) (R.remaining reader.new)
        (λ xs ys. Replays result (deck xs) ys text.now (W.contents writer.old) (W.contents writer.new)) }
{
    let mut input = CheckedReader::new(reader);
    let mut output = CheckedWriter::new(writer);
    let result = replay_to(alloc, &mut input, &mut output, &mut LineBuffer::new(), text);
    // No effect at run time. The proof reads what reader and writer hold from these uses.
    let _ = &*input.into_inner();
    let _ = &*output.into_inner();
    result
}

/// Reads a deck and the log in the line after it, replays the log on the deck's memory and prints the machine's dump.
/// The machine executes one instruction at a time. Returns its final state, or `None` if the line isn't the text of a
/// log. A fault of the deck is reported before the log is read. The log's line may be of any length. The deck's `start`
/// line isn't used.
///
/// # Errors
/// `Deck` with the number of a faulty line and its fault. `PackageRange` or `PeripheralRange` if a step of the log is
/// refused. `OutOfMemory` if memory runs out. `Read` or `Write` if the device fails. After a failed write the output
/// has a prefix of the dump; at any other error nothing was written.
pub fn replay_following_to<I: Input, O: Output>(
    alloc: Global,
    input: &mut I,
    output: &mut O,
    line: &mut LineBuffer,
) -> Result<Option<State>, Refusal>
    ensures replayed { Moves (I.remaining input.old) (I.remaining input.new)
        (λ xs ys. ReplaysFollowing result (deck xs) ys (O.contents output.old) (O.contents output.new)) }
    ensures read { I.has_failed input.new ≡ (I.has_failed input.old || is_read_failure result) }
    ensures write { O.has_failed output.new ≡ (O.has_failed output.old || is_write_failure result) }
    ensures handed_on { IfOk result (λ state. IsSome state → O.waits output.new ≡ false) }
    ensures kept { NothingWaits (is_write_failure result) (O.waits output.old) (O.waits output.new) }
    ensures input { I.lender input.new ≡ I.lender input.old }
    ensures output { O.lender output.new ≡ O.lender output.old }
{
    let (deck, _) = read_deck_from(alloc, input, line)?;
    let found = read_log_from(alloc, input)?;
    print_log(alloc, output, &deck, found)
}

/// Replays the log in the line after a deck from any reader to any writer.
///
/// # Errors
/// As for `replay_following_to`.
pub fn replay_following<R: Read, W: Write>(
    alloc: Global,
    reader: &mut R,
    writer: &mut W,
) -> Result<Option<State>, Refusal>
    ensures { Moves (R.remaining reader.old) (R.remaining reader.new)
        (λ xs ys. ReplaysFollowing result (deck xs) ys (W.contents writer.old) (W.contents writer.new)) }
{
    let mut input = CheckedReader::new(reader);
    let mut output = CheckedWriter::new(writer);
    let result = replay_following_to(alloc, &mut input, &mut output, &mut LineBuffer::new());
    // No effect at run time. The proof reads what reader and writer hold from these uses.
    let _ = &*input.into_inner();
    let _ = &*output.into_inner();
    result
}

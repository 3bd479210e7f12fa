ghost use Rattle.std.specs.Prelude.{◌≡◌, ◌||◌, OnOk, Ok, false};
ghost use Rattle.deck.specs.Deck.{deck};
ghost use Rattle.device_text.specs.Device.{Moves, NothingWaits};
ghost use Rattle.deck_run.specs.Running.{PrintsRun, Runs, EndsReplay, EndsReplayFollowing, EndsSequentialRun};
ghost use Rattle.deck_run.specs.Running.{is_read_fault, is_write_fault, replay_end};

use super::running::run;
use deck::{Deck, read_deck_from};
use device_text::{Input, LineBuffer, Output};
use job_deck::{dump_to, replay_following_to, replay_to, run_sequentially_to};
use operator_terms::{Budget, ProgramFault, Status, end_status};
use sequential::State;
use std::alloc::Global;
use std::sync::Wait;
use std::thread::Threads;
use std::time::Clock;

/// Runs a deck by threads, prints the machine's dump and flushes it.
///
/// # Errors
/// `OutOfMemory` if memory runs out or a thread can't be started. `Stuck` if the machine refuses a step of the run.
/// `Write` if a write fails; then a beginning of a dump may have been written. Nothing is written after other errors.
fn print_run<T: Threads + Wait + Clock + Sync, O: Output>(
    rt: &T,
    alloc: Global,
    output: &mut O,
    deck: &Deck,
    budget: Budget,
) -> Result<Status, ProgramFault>
    ensures printed { PrintsRun result deck.now budget (O.contents output.old) (O.contents output.new) }
    ensures write { O.has_failed output.new ≡ (O.has_failed output.old || is_write_fault result) }
    ensures handed_on { OnOk result (O.waits output.new ≡ false) }
    ensures kept { NothingWaits (is_write_fault result) (O.waits output.old) (O.waits output.new) }
    ensures same { O.lender output.new ≡ O.lender output.old }
{
    let snapshot = run(rt, alloc, deck, budget)?;
    match dump_to(output, snapshot.state(), snapshot.log(), deck) {
        Ok(()) => Ok(end_status(snapshot.state())),
        Err(_) => Err(ProgramFault::Write),
    }
}

/// Reads a deck, runs it by threads with at most `budget` instructions, prints the machine's dump and flushes it.
/// Replaying the dump's log on the same deck prints the same dump.
///
/// # Errors
/// `Deck` with a line and its fault. `Read` if a read fails. `OutOfMemory` if memory runs out or a thread can't be
/// started. `Stuck` if the machine refuses a step before the end of the run. `Write` if a write fails; then a beginning
/// of a dump may have been written. Nothing is written after other errors.
pub fn run_deck<T: Threads + Wait + Clock + Sync, I: Input, O: Output>(
    rt: &T,
    alloc: Global,
    input: &mut I,
    output: &mut O,
    line: &mut LineBuffer,
    budget: Budget,
) -> Result<Status, ProgramFault>
    ensures ran { Moves (I.remaining input.old) (I.remaining input.new)
        (λ xs ys. Runs result (deck xs) budget ys (O.contents output.old) (O.contents output.new)) }
    ensures read { I.has_failed input.new ≡ (I.has_failed input.old || is_read_fault result) }
    ensures write { O.has_failed output.new ≡ (O.has_failed output.old || is_write_fault result) }
    ensures handed_on { OnOk result (O.waits output.new ≡ false) }
    ensures kept { NothingWaits (is_write_fault result) (O.waits output.old) (O.waits output.new) }
    ensures output { O.lender output.new ≡ O.lender output.old }
{
    let (deck, _) = read_deck_from(alloc, input, line)?;
    print_run(rt, alloc, output, &deck, budget)
}

/// Reads a deck, runs it one instruction at a time with at most `budget` instructions, prints the machine's dump and
/// flushes it.
///
/// # Errors
/// `Deck` with a line and its fault. `OutOfMemory` if memory runs out. `Read` if a read fails. `Write` if a write
/// fails; then a beginning of the dump may have been written. Nothing is written after other errors.
pub fn run_deck_sequentially<I: Input, O: Output>(
    alloc: Global,
    input: &mut I,
    output: &mut O,
    line: &mut LineBuffer,
    budget: Budget,
) -> Result<Status, ProgramFault>
    ensures ran { Moves (I.remaining input.old) (I.remaining input.new)
        (λ xs ys. EndsSequentialRun result (deck xs) budget ys (O.contents output.old) (O.contents output.new)) }
    ensures read { I.has_failed input.new ≡ (I.has_failed input.old || is_read_fault result) }
    ensures write { O.has_failed output.new ≡ (O.has_failed output.old || is_write_fault result) }
    ensures handed_on { OnOk result (O.waits output.new ≡ false) }
    ensures kept { NothingWaits (is_write_fault result) (O.waits output.old) (O.waits output.new) }
    ensures output { O.lender output.new ≡ O.lender output.old }
{
    let state = run_sequentially_to(alloc, input, output, line, budget.get())?;
    Ok(end_status(&state))
}

/// The end of the program after a replay: from the final state of the machine, if the text was that of a log.
///
/// # Errors
/// `BadLog` if the text isn't that of a log.
fn replay_end(found: Option<State>) -> Result<Status, ProgramFault>
    ensures { result ≡ replay_end (Ok found) }
{
    match found {
        Some(state) => Ok(end_status(&state)),
        None => Err(ProgramFault::BadLog),
    }
}

/// Executes a log on a deck, one instruction at a time, prints the dump and flushes it.
///
/// # Errors
/// `Deck` with a line and its fault. `BadLog` if the text isn't a log. `PackageRange` if the package of an exchange in
/// the log doesn't lie in memory, `PeripheralRange` if the word of a peripheral access doesn't. `OutOfMemory` if memory
/// runs out. `Read` if a read fails. `Write` if a write fails; then a beginning of the dump may have been written.
/// Nothing is written after other errors.
pub fn replay_log<I: Input, O: Output>(
    alloc: Global,
    input: &mut I,
    output: &mut O,
    line: &mut LineBuffer,
    log: &str,
) -> Result<Status, ProgramFault>
    ensures replayed { Moves (I.remaining input.old) (I.remaining input.new)
        (λ xs ys. EndsReplay result (deck xs) ys log.now (O.contents output.old) (O.contents output.new)) }
    ensures read { I.has_failed input.new ≡ (I.has_failed input.old || is_read_fault result) }
    ensures write { O.has_failed output.new ≡ (O.has_failed output.old || is_write_fault result) }
    ensures handed_on { OnOk result (O.waits output.new ≡ false) }
    ensures kept { NothingWaits (is_write_fault result) (O.waits output.old) (O.waits output.new) }
    ensures output { O.lender output.new ≡ O.lender output.old }
{
    let found = replay_to(alloc, input, output, line, log)?;
    replay_end(found)
}

/// Executes the log in the line after a deck, one instruction at a time, prints the dump and flushes it. A fault of the
/// deck is reported before the log is read. The log's line may be of any length.
///
/// # Errors
/// `Deck` with a line and its fault. `BadLog` if the line after the deck isn't the text of a log, or there is no line.
/// `PackageRange` if the package of an exchange in the log doesn't lie in memory, `PeripheralRange` if the word of a
/// peripheral access doesn't. `OutOfMemory` if memory runs out. `Read` if a read fails. `Write` if a write fails; then
/// a beginning of the dump may have been written. Nothing is written after other errors.
pub fn replay_following_log<I: Input, O: Output>(
    alloc: Global,
    input: &mut I,
    output: &mut O,
    line: &mut LineBuffer,
) -> Result<Status, ProgramFault>
    ensures replayed { Moves (I.remaining input.old) (I.remaining input.new)
        (λ xs ys. EndsReplayFollowing result (deck xs) ys (O.contents output.old) (O.contents output.new)) }
    ensures read { I.has_failed input.new ≡ (I.has_failed input.old || is_read_fault result) }
    ensures write { O.has_failed output.new ≡ (O.has_failed output.old || is_write_fault result) }
    ensures handed_on { OnOk result (O.waits output.new ≡ false) }
    ensures kept { NothingWaits (is_write_fault result) (O.waits output.old) (O.waits output.new) }
    ensures output { O.lender output.new ≡ O.lender output.old }
{
    let found = replay_following_to(alloc, input, output, line)?;
    replay_end(found)
}

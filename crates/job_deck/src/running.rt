//! Runs a deck sequentially and prints the dump. Such a run starts no thread and takes no lock, so the C library offers
//! it as well as the program.
ghost use Rattle.std.specs.Prelude.{◌≡◌, ◌||◌, map, IfOk, MatchResult, OnOk, false};
ghost use Rattle.deck.specs.Deck.{deck};
ghost use Rattle.deck.specs.Reading.{is_read_failure};
ghost use Rattle.device_text.specs.Device.{Moves, NothingWaits};
ghost use Rattle.job_deck.specs.Listing.{is_write_failure};
ghost use Rattle.job_deck.specs.Running.{IsJobRun, IsWhyNoJobRun, PrintsSequentialRun, RunsSequentially, asks_after};

use crate::dumping::dump_to;
use deck::{Deck, read_deck_from};
use device_text::{CheckedReader, CheckedWriter, Input, LineBuffer, Output};
use instructions::Refusal;
use sequential::State;
use sequential_run::{Ask, CompletedRun};
use std::alloc::{AllocError, Global};
use std::io::{Read, Write};

/// The requests of the deck's lines `ask N after K`, in the order of the lines. A request has the absolute address N of
/// its package and the number K of instructions.
///
/// # Errors
/// Fails if memory runs out.
#[tactic(auto, using(std::proofs::lemmas::List::map_more))]
pub fn asks_after(alloc: Global, deck: &Deck) -> Result<Vec<Ask>, AllocError>
    ensures { IfOk result (λ asks. asks.items ≡ asks_after deck.now) }
{
    let mut after = Vec::new(alloc);
    for ask in deck.asks.as_slice() {
        after.push((ask.at, u64::from(ask.after)))?;
    }
    Ok(after)
}

/// Runs a deck for at most `budget` instructions.
///
/// # Errors
/// `OutOfMemory` if memory runs out. `PackageRange` if the sixteen words of the next exchange don't all lie in memory.
fn sequential_run_of(alloc: Global, deck: &Deck, budget: u64) -> Result<CompletedRun, Refusal>
    ensures { MatchResult result (λ ended. IsJobRun deck.now budget ended.log.steps ended.state)
        (λ refusal. IsWhyNoJobRun deck.now budget refusal) }
{
    let Ok(after) = asks_after(alloc, deck) else {
        return Err(Refusal::OutOfMemory);
    };
    let Ok(memory) = deck.image.memory().copy() else {
        return Err(Refusal::OutOfMemory);
    };
    sequential_run::run(
        alloc,
        memory,
        deck.start,
        after.as_slice(),
        deck.free.as_slice(),
        budget,
    )
}

/// Runs a deck, prints the machine's dump and flushes the output.
///
/// # Errors
/// As for `sequential_run_of`, and `Write` if a write fails.
fn print_run<O: Output>(
    alloc: Global,
    output: &mut O,
    deck: &Deck,
    budget: u64,
) -> Result<State, Refusal>
    ensures printed { PrintsSequentialRun result deck.now budget (O.contents output.old) (O.contents output.new) }
    ensures failure { O.has_failed output.new ≡ (O.has_failed output.old || is_write_failure result) }
    ensures handed_on { OnOk result (O.waits output.new ≡ false) }
    ensures kept { NothingWaits (is_write_failure result) (O.waits output.old) (O.waits output.new) }
    ensures same { O.lender output.new ≡ O.lender output.old }
{
    let ended = sequential_run_of(alloc, deck, budget)?;
    dump_to(output, &ended.state, &ended.log, deck)?;
    Ok(ended.state)
}

/// Reads a deck, runs it for at most `budget` instructions, one at a time, prints the machine's dump and flushes the
/// output. Returns the final state of the machine.
///
/// # Errors
/// `Deck` with the number of a faulty line and its fault. `OutOfMemory` if memory runs out. `Read` or `Write` if the
/// device fails. After a failed write the output has a prefix of the dump; at any other error nothing was written.
pub fn run_sequentially_to<I: Input, O: Output>(
    alloc: Global,
    input: &mut I,
    output: &mut O,
    line: &mut LineBuffer,
    budget: u64,
) -> Result<State, Refusal>
    ensures ran { Moves (I.remaining input.old) (I.remaining input.new)
        (λ xs ys. RunsSequentially result (deck xs) budget ys (O.contents output.old) (O.contents output.new)) }
    ensures read { I.has_failed input.new ≡ (I.has_failed input.old || is_read_failure result) }
    ensures write { O.has_failed output.new ≡ (O.has_failed output.old || is_write_failure result) }
    ensures handed_on { OnOk result (O.waits output.new ≡ false) }
    ensures kept { NothingWaits (is_write_failure result) (O.waits output.old) (O.waits output.new) }
    ensures input { I.lender input.new ≡ I.lender input.old }
    ensures output { O.lender output.new ≡ O.lender output.old }
{
    let (deck, _) = read_deck_from(alloc, input, line)?;
    print_run(alloc, output, &deck, budget)
}

/// Runs a deck from any reader and prints the dump to any writer.
///
/// # Errors
/// As for `run_sequentially_to`.
pub fn run_sequentially<R: Read, W: Write>(
    alloc: Global,
    reader: &mut R,
    writer: &mut W,
    budget: u64,
) -> Result<State, Refusal>
    ensures { Moves (R.remaining reader.old) (R.remaining reader.new)
        (λ xs ys. RunsSequentially result (deck xs) budget ys (W.contents writer.old) (W.contents writer.new)) }
{
    let mut input = CheckedReader::new(reader);
    let mut output = CheckedWriter::new(writer);
    let result = run_sequentially_to(
        alloc,
        &mut input,
        &mut output,
        &mut LineBuffer::new(),
        budget,
    );
    // No effect at run time. The proof reads what reader and writer hold from these uses.
    let _ = &*input.into_inner();
    let _ = &*output.into_inner();
    result
}

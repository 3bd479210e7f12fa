ghost use Rattle.std.specs.Prelude.{◌≡◌, ◌||◌, ◌≤◌, ◌+◌, [], IfOk, OnOk, MatchResult, false};
ghost use Rattle.instructions.specs.declared.refusal.Refusal.TheVariants.{OutOfMemory};
ghost use Rattle.program_order.specs.Reached.{GoesOn, IsReached};
ghost use Rattle.program_order.specs.Processor.{boot_processor};
ghost use Rattle.deck.specs.Deck.{deck};
ghost use Rattle.device_text.specs.Device.{Moves, NothingWaits};
ghost use Rattle.deck.specs.Reading.{is_read_failure};
ghost use Rattle.job_deck.specs.Listing.{is_write_failure};
ghost use Rattle.job_deck.specs.inner.SessionParts.{AnswersLines, IsMade};
ghost use Rattle.job_deck.specs.SessionResult.{Performs, RunsSession};

use crate::answering::put_answer;
use crate::ending::finish;
use crate::schedule::ScheduleLine;
use crate::schedule_reading::read_schedule_line;
use deck::{Deck, MOST_LINES, read_deck_from, with_line_number};
use device_text::{CheckedReader, CheckedWriter, Input, LineBuffer, Output, WriteFailed};
use instructions::{DeckFault, Refusal};
use machine::Machine;
use program_order::Event;
use std::alloc::Global;
use std::io::{Read, Write};

/// Makes an event or refuses it, writes the line of the answer, and flushes it.
fn make<O: Output>(output: &mut O, machine: &mut Machine, event: Event) -> Result<(), WriteFailed>
    ensures made { IsMade O.Output result machine.old machine.new event output.old output.new }
    ensures handed_on { OnOk result (O.waits output.new ≡ false) }
{
    let answer = machine.apply(event);
    put_answer(output, &answer)
}

/// Answers the events of a schedule that begins after line `before`, each before the next line is read, up to the last
/// line. Returns whether that line asks for a drain.
///
/// # Errors
/// `Deck` with a line and its fault. `Read` or `Write` if a device fails.
fn answer_lines<I: Input, O: Output>(
    input: &mut I,
    output: &mut O,
    line: &mut LineBuffer,
    machine: &mut Machine,
    before: u32,
) -> Result<bool, Refusal>
    requires { before ≤ 10000000 }
    ensures told { Moves (I.remaining input.old) (I.remaining input.new)
        (λ xs ys. AnswersLines result machine.old machine.new (before + 1) xs ys (O.contents output.old)
        (O.contents output.new)) }
    ensures read { I.has_failed input.new ≡ (I.has_failed input.old || is_read_failure result) }
    ensures write { O.has_failed output.new ≡ (O.has_failed output.old || is_write_failure result) }
    ensures kept { NothingWaits (is_write_failure result) (O.waits output.old) (O.waits output.new) }
    ensures input { I.lender input.new ≡ I.lender input.old }
    ensures output { O.lender output.new ≡ O.lender output.old }
{
    for number in before + 1..MOST_LINES + 1 {
        match read_schedule_line(input, output, line, before, number)? {
            ScheduleLine::Ends => return Ok(false),
            ScheduleLine::Drains => return Ok(true),
            ScheduleLine::Faulty(fault) => return with_line_number(number, Err(fault)),
            ScheduleLine::Makes(event) => make(output, machine, event)?,
        }
    }
    with_line_number(MOST_LINES + 1, Err(DeckFault::Lines))
}

/// Runs a session: answers the events of the schedule after line `before`, and carries out its last line.
///
/// # Errors
/// `Deck` with a line and its fault. `OutOfMemory` if there is no memory for the dump. `Read` or `Write` if a device
/// fails.
fn run_session<I: Input, O: Output>(
    input: &mut I,
    output: &mut O,
    line: &mut LineBuffer,
    machine: &mut Machine,
    deck: &Deck,
    before: u32,
) -> Result<(), Refusal>
    requires { before ≤ 10000000 }
    ensures told { Moves (I.remaining input.old) (I.remaining input.new)
        (λ xs ys. RunsSession result (GoesOn machine.old) machine.old (before + 1) deck.now.shows xs ys
        (O.contents output.old) (O.contents output.new)) }
    ensures read { I.has_failed input.new ≡ (I.has_failed input.old || is_read_failure result) }
    ensures write { O.has_failed output.new ≡ (O.has_failed output.old || is_write_failure result) }
    ensures handed_on { OnOk result (O.waits output.new ≡ false) }
    ensures kept { NothingWaits (is_write_failure result) (O.waits output.old) (O.waits output.new) }
    ensures input { I.lender input.new ≡ I.lender input.old }
    ensures output { O.lender output.new ≡ O.lender output.old }
{
    let drains = answer_lines(input, output, line, machine, before)?;
    finish(output, machine, deck, drains)
}

/// Boots a machine with the deck's memory. It issues at most `budget` instructions.
///
/// # Errors
/// `OutOfMemory` if memory runs out.
pub fn booted(alloc: Global, deck: &Deck, budget: u64) -> Result<Machine, Refusal>
    requires { budget ≤ 10000000 }
    ensures machine { MatchResult result (λ machine. machine ≡ boot_processor deck.now.image.memory budget)
        (λ refusal. refusal ≡ OutOfMemory) }
    ensures reached { IfOk result (λ machine. IsReached deck.now.image.memory budget [] [] machine) }
{
    let memory = deck.image.memory().copy()?;
    Machine::boot(alloc, memory, budget)
}

/// Reads a deck and the schedule after it, and makes the schedule's events on a machine that is booted with the deck's
/// memory and issues at most `budget` instructions. Each line is answered before the next is read. The dump of the
/// drained machine follows the last answer.
///
/// # Errors
/// `Deck` with a line and its fault. `OutOfMemory` if memory runs out. `Read` or `Write` if a device fails. The earlier
/// lines have been answered; only a failed write may have cut an answer short.
pub fn events_to<I: Input, O: Output>(
    alloc: Global,
    input: &mut I,
    output: &mut O,
    line: &mut LineBuffer,
    budget: u64,
) -> Result<(), Refusal>
    requires { budget ≤ 10000000 }
    ensures performed { Moves (I.remaining input.old) (I.remaining input.new)
        (λ xs ys. Performs result budget (deck xs) ys (O.contents output.old) (O.contents output.new)) }
    ensures read { I.has_failed input.new ≡ (I.has_failed input.old || is_read_failure result) }
    ensures write { O.has_failed output.new ≡ (O.has_failed output.old || is_write_failure result) }
    ensures handed_on { OnOk result (O.waits output.new ≡ false) }
    ensures kept { NothingWaits (is_write_failure result) (O.waits output.old) (O.waits output.new) }
    ensures input { I.lender input.new ≡ I.lender input.old }
    ensures output { O.lender output.new ≡ O.lender output.old }
{
    let (deck, lines) = read_deck_from(alloc, input, line)?;
    let mut machine = booted(alloc, &deck, budget)?;
    run_session(input, output, line, &mut machine, &deck, lines)
}

/// Does the work of `events_to` from any reader to any writer.
///
/// # Errors
/// As `events_to`.
pub fn events<R: Read, W: Write>(
    alloc: Global,
    reader: &mut R,
    writer: &mut W,
    budget: u64,
) -> Result<(), Refusal>
    requires { budget ≤ 10000000 }
    ensures { Moves (R.remaining reader.old) (R.remaining reader.new)
        (λ xs ys. Performs result budget (deck xs) ys (W.contents writer.old) (W.contents writer.new)) }
{
    let mut input = CheckedReader::new(reader);
    let mut output = CheckedWriter::new(writer);
    let result = events_to(
        alloc,
        &mut input,
        &mut output,
        &mut LineBuffer::new(),
        budget,
    );
    // No effect at run time. The proof reads what reader and writer hold from these uses.
    let _ = &*input.into_inner();
    let _ = &*output.into_inner();
    result
}

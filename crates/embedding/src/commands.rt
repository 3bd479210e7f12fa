ghost use Rattle.std.specs.Prelude.{◌≡◌, [], Ok, Err};
ghost use Rattle.embedding.specs.Embedding.{IsListed, Ran, HasRun, Replayed, IsReplayed, Performed, IsSession};
ghost use Rattle.embedding.specs.Embedding.{HandsOver, fault_in_memory};
ghost use Rattle.operator_terms.specs.declared.status.Status.TheVariants.{Usage};

use crate::input_bytes::InputBytes;
use crate::outcome::{Outcome, hand_over};
use device_text::{CheckedWriter, LineBuffer};
use instructions::Refusal;
use job_deck::{events_to, list_to, replay_to, run_sequentially_to};
use operator_terms::{Budget, ProgramFault, Status, end_status};
use std::alloc::Global;

/// Copies to the caller the text that a command printed before this refusal. Commands write to memory here, so a failed
/// write means that memory ran out.
pub fn hand_over_refusal(
    refusal: Refusal,
    text: &[u8],
    output: &mut [u8],
    line: &mut [u8],
) -> Outcome
    ensures { HandsOver result (Err (fault_in_memory refusal)) text.now output.old output.new }
{
    let fault = match refusal {
        Refusal::Write => ProgramFault::OutOfMemory,
        other => ProgramFault::from(other),
    };
    hand_over(Err(fault), text, output, line)
}

/// Refuses a number of instructions that no budget may have. The status is that of a refused command line.
pub fn refuse_budget(output: &mut [u8], line: &mut [u8]) -> Outcome
    ensures { HandsOver result (Ok Usage) [] output.old output.new }
{
    hand_over(Ok(Status::Usage), &[], output, line)
}

/// Lists the deck in these bytes.
pub fn list_bytes(alloc: Global, input: &[u8], output: &mut [u8], line: &mut [u8]) -> Outcome
    ensures { IsListed input.now result output.old output.new }
{
    let mut bytes = InputBytes::new(input);
    let mut text = Vec::new(alloc);
    let mut writer = CheckedWriter::new(&mut text);
    let result = list_to(alloc, &mut bytes, &mut writer, &mut LineBuffer::new());
    // No effect at run time. The proof reads what the text holds from this use.
    let _ = &*writer.into_inner();
    match result {
        Ok(()) => hand_over(Ok(Status::Stopped), text.as_slice(), output, line),
        Err(refusal) => hand_over_refusal(refusal, text.as_slice(), output, line),
    }
}

/// Runs the deck in these bytes, one instruction at a time.
fn run_within(
    alloc: Global,
    input: &[u8],
    budget: Budget,
    output: &mut [u8],
    line: &mut [u8],
) -> Outcome
    ensures { Ran input.now budget result output.old output.new }
{
    let mut bytes = InputBytes::new(input);
    let mut text = Vec::new(alloc);
    let mut writer = CheckedWriter::new(&mut text);
    let result = run_sequentially_to(
        alloc,
        &mut bytes,
        &mut writer,
        &mut LineBuffer::new(),
        budget.get(),
    );
    let _ = &*writer.into_inner();
    match result {
        Ok(state) => hand_over(Ok(end_status(&state)), text.as_slice(), output, line),
        Err(refusal) => hand_over_refusal(refusal, text.as_slice(), output, line),
    }
}

/// Runs the deck in these bytes with a budget of this many instructions, or refuses a number that no budget may have.
pub fn run_bytes(
    alloc: Global,
    input: &[u8],
    budget: u64,
    output: &mut [u8],
    line: &mut [u8],
) -> Outcome
    ensures { HasRun input.now budget result output.old output.new }
{
    match Budget::new(budget) {
        Some(budget) => run_within(alloc, input, budget, output, line),
        None => refuse_budget(output, line),
    }
}

/// Replays the log in a text on the deck in these bytes.
fn replay_text(
    alloc: Global,
    input: &[u8],
    log: &str,
    output: &mut [u8],
    line: &mut [u8],
) -> Outcome
    ensures { Replayed input.now log.now result output.old output.new }
{
    let mut bytes = InputBytes::new(input);
    let mut text = Vec::new(alloc);
    let mut writer = CheckedWriter::new(&mut text);
    let result = replay_to(alloc, &mut bytes, &mut writer, &mut LineBuffer::new(), log);
    let _ = &*writer.into_inner();
    match result {
        Ok(Some(state)) => hand_over(Ok(end_status(&state)), text.as_slice(), output, line),
        Ok(None) => hand_over(Err(ProgramFault::BadLog), text.as_slice(), output, line),
        Err(refusal) => hand_over_refusal(refusal, text.as_slice(), output, line),
    }
}

/// Replays the log in these bytes. Bytes that aren't a text are a bad log.
pub fn replay_bytes(
    alloc: Global,
    input: &[u8],
    log: &[u8],
    output: &mut [u8],
    line: &mut [u8],
) -> Outcome
    ensures { IsReplayed input.now log.now result output.old output.new }
{
    match std::str::from_utf8(log) {
        Ok(log) => replay_text(alloc, input, log, output, line),
        Err(_) => hand_over(Err(ProgramFault::BadLog), &[], output, line),
    }
}

/// Answers the events of the deck and schedule in these bytes.
fn session(
    alloc: Global,
    input: &[u8],
    budget: Budget,
    output: &mut [u8],
    line: &mut [u8],
) -> Outcome
    ensures { Performed input.now budget result output.old output.new }
{
    let mut bytes = InputBytes::new(input);
    let mut text = Vec::new(alloc);
    let mut writer = CheckedWriter::new(&mut text);
    let result = events_to(
        alloc,
        &mut bytes,
        &mut writer,
        &mut LineBuffer::new(),
        budget.get(),
    );
    let _ = &*writer.into_inner();
    match result {
        Ok(()) => hand_over(Ok(Status::Stopped), text.as_slice(), output, line),
        Err(refusal) => hand_over_refusal(refusal, text.as_slice(), output, line),
    }
}

/// Answers the events in these bytes with a budget of this many instructions, or refuses a number that no budget may
/// have.
pub fn session_of_bytes(
    alloc: Global,
    input: &[u8],
    budget: u64,
    output: &mut [u8],
    line: &mut [u8],
) -> Outcome
    ensures { IsSession input.now budget result output.old output.new }
{
    match Budget::new(budget) {
        Some(budget) => session(alloc, input, budget, output, line),
        None => refuse_budget(output, line),
    }
}

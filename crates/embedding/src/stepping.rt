ghost use Rattle.std.specs.Prelude.{◌≡◌, ◌∷◌, ◌++◌, [], Err};
ghost use Rattle.program_order.specs.Reached.{GoesOn};
ghost use Rattle.program_order.specs.Run.{IsAnswer, settled};
ghost use Rattle.embedding.specs.Keeping.{DoesText, HandsOverText, MakesEvent, MakesNext, IsDrainedBy, idle_event, next_event};
ghost use Rattle.contents_text.specs.Events.{event_line};
ghost use Rattle.embedding.specs.Keeping.{text_says, written_end};
ghost use Rattle.job_deck.specs.AnswerText.{answer_line};
ghost use Rattle.embedding.specs.Embedding.{HandsOver};
ghost use Rattle.operator_terms.specs.declared.fault.ProgramFault.TheVariants.{Deck as RefusedLine};

use crate::booted::Booted;
use crate::outcome::{Outcome, hand_over};
use arrayvec::ArrayVec;
use contents_text::put_event;
use device_text::{CheckedWriter, LONGEST_LINE, WriteFailed};
use instructions::DeckFault;
use job_deck::{ScheduleLine, parse_schedule_line, put_answer};
use machine::Machine;
use operator_terms::{ProgramFault, Status};
use program_order::{Answer, Event};

/// A buffer size that is more than the bytes of an event's line and its answer's line together.
const LINES: usize = 128;

/// The end of a call that writes to memory. A failed write there means that memory ran out.
pub fn written_end(written: Result<(), WriteFailed>) -> Result<Status, ProgramFault>
    ensures { result ≡ written_end written }
{
    match written {
        Ok(()) => Ok(Status::Stopped),
        Err(_) => Err(ProgramFault::OutOfMemory),
    }
}

/// Copies the line of an answer to the caller.
fn show_answer(answer: &Answer, output: &mut [u8], line: &mut [u8]) -> Outcome
    ensures { HandsOverText (answer_line answer.now) result output.old output.new }
{
    let mut text = ArrayVec::<u8, LINES>::new();
    let mut writer = CheckedWriter::new(&mut text);
    let written = put_answer(&mut writer, answer);
    // No effect at run time. The proof reads what the text holds from this use.
    let _ = &*writer.into_inner();
    hand_over(written_end(written), text.as_slice(), output, line)
}

/// Copies the schedule line of an event and the line of its answer to the caller.
fn show_event(event: Event, answer: &Answer, output: &mut [u8], line: &mut [u8]) -> Outcome
    ensures { HandsOverText (event_line event ++ answer_line answer.now) result output.old output.new }
{
    let mut text = ArrayVec::<u8, LINES>::new();
    let mut writer = CheckedWriter::new(&mut text);
    let written = put_event(&mut writer, event, answer);
    let _ = &*writer.into_inner();
    hand_over(written_end(written), text.as_slice(), output, line)
}

/// Makes an event and copies the line of its answer to the caller.
fn make_event(booted: &mut Booted, event: Event, output: &mut [u8], line: &mut [u8]) -> Outcome
    ensures { MakesEvent event [] booted.old booted.new result output.old output.new }
{
    let answer = booted.machine.apply(event);
    show_answer(&answer, output, line)
}

/// Parses a text as the only line of a schedule.
pub fn line_said(text: &[u8]) -> ScheduleLine
    ensures { result ≡ text_says text.now }
{
    if text.len() > LONGEST_LINE {
        return ScheduleLine::Faulty(DeckFault::Long);
    }
    parse_schedule_line(text)
}

/// Refuses a line because of a fault.
pub fn refuse_line(fault: DeckFault, output: &mut [u8], line: &mut [u8]) -> Outcome
    ensures { HandsOver result (Err (RefusedLine 1 fault)) [] output.old output.new }
{
    hand_over(
        Err(ProgramFault::Deck { line: 1, fault }),
        &[],
        output,
        line,
    )
}

/// Makes or refuses the event that a schedule line says.
pub fn do_line(booted: &mut Booted, text: &[u8], output: &mut [u8], line: &mut [u8]) -> Outcome
    ensures { DoesText text.now booted.old booted.new result output.old output.new }
{
    match line_said(text) {
        ScheduleLine::Makes(event) => make_event(booted, event, output, line),
        ScheduleLine::Ends => refuse_line(DeckFault::Unknown, output, line),
        ScheduleLine::Drains => refuse_line(DeckFault::Unknown, output, line),
        ScheduleLine::Faulty(fault) => refuse_line(fault, output, line),
    }
}

/// Makes the requested exchange if that may be made, or else an issue.
#[tactic(auto, unfolding(program_order::specs::Run::settled))]
fn exchange_or_issue(machine: &mut Machine) -> (Event, Answer)
    ensures event { result.0 ≡ idle_event machine.old }
    ensures answer { IsAnswer machine.old result.0 result.1 }
    ensures after { machine.new ≡ settled machine.old result.0 result.1 }
    ensures reached { GoesOn machine.old (result.0 ∷ []) (result.1 ∷ []) machine.new }
{
    let exchanged = machine.apply(Event::Exchange);
    match exchanged {
        Ok(_) => (Event::Exchange, exchanged),
        Err(_) => {
            let issued = machine.apply(Event::Issue);
            (Event::Issue, issued)
        }
    }
}

/// Makes the next event. That is the event that a drain would make. If nothing is pending it is the requested exchange,
/// if that may be made, or else an issue.
pub fn make_next_event(machine: &mut Machine) -> (Event, Answer)
    ensures event { result.0 ≡ next_event machine.old }
    ensures answer { IsAnswer machine.old result.0 result.1 }
    ensures after { machine.new ≡ settled machine.old result.0 result.1 }
    ensures reached { GoesOn machine.old (result.0 ∷ []) (result.1 ∷ []) machine.new }
{
    match machine.next_work() {
        Some(event) => {
            // A copy, because the proof of a tuple accepts no value that was passed to a call.
            let made = event;
            let answer = machine.apply(made);
            (event, answer)
        }
        None => exchange_or_issue(machine),
    }
}

/// Makes the next event and copies its schedule line and the line of its answer to the caller.
pub fn make_next(booted: &mut Booted, output: &mut [u8], line: &mut [u8]) -> Outcome
    ensures { MakesNext booted.old booted.new result output.old output.new }
{
    let (event, answer) = make_next_event(&mut booted.machine);
    show_event(event, &answer, output, line)
}

/// Drains the machine. Returns the number of events that this took.
pub fn drain(booted: &mut Booted) -> u32
    ensures { IsDrainedBy booted.old booted.new result }
{
    booted.machine.drain()
}

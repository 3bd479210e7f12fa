ghost use Rattle.std.specs.Prelude.{◌≡◌};
ghost use Rattle.contents_text.specs.Contents.{contents_text};
ghost use Rattle.contents_text.specs.Holding.{judgement_text};
ghost use Rattle.embedding.specs.Keeping.{HandsOverText, IsSilent, JudgesText, OnMachine, no_machine};

use crate::booted::Booted;
use crate::machine_handle::MachineHandle;
use crate::outcome::{NO_MACHINE, Outcome, hand_over, silent};
use crate::stepping::{line_said, refuse_line, written_end};
use arrayvec::ArrayVec;
use contents_text::{Part, put_contents, put_judgement};
use device_text::CheckedWriter;
use instructions::DeckFault;
use job_deck::ScheduleLine;
use program_order::Event;
use std::alloc::Global;

/// A buffer size that is more than the bytes of the lines of any part.
const LINES: usize = 1_280;

/// Copies the contents of a part of the machine to the caller.
fn show(booted: &Booted, part: Part, output: &mut [u8], line: &mut [u8]) -> Outcome
    ensures { HandsOverText (contents_text part booted.now.machine) result output.old output.new }
{
    let mut text = ArrayVec::<u8, LINES>::new();
    let mut writer = CheckedWriter::new(&mut text);
    let written = put_contents(&mut writer, &booted.machine, part);
    // No effect at run time. The proof reads what the text holds from this use.
    let _ = &*writer.into_inner();
    hand_over(written_end(written), text.as_slice(), output, line)
}

/// Copies the contents of a part of the handle's machine to the caller, if there is a machine.
pub fn show_contents(
    alloc: Global,
    machine: &mut MachineHandle,
    part: Part,
    output: &mut [u8],
    line: &mut [u8],
) -> Outcome
    ensures { OnMachine machine.old.owned.machine machine.new.owned.machine
        (IsSilent no_machine result output.old output.new)
        (λ b c. (c ≡ b) × HandsOverText (contents_text part b.machine) result output.old output.new) }
{
    match machine.take(alloc) {
        Some(booted) => {
            let outcome = show(&booted, part, output, line);
            machine.put(booted);
            outcome
        }
        None => silent(NO_MACHINE),
    }
}

/// Copies the judgement of an event to the caller.
fn show_judgement(booted: &Booted, event: Event, output: &mut [u8], line: &mut [u8]) -> Outcome
    ensures { HandsOverText (judgement_text booted.now.machine event) result output.old output.new }
{
    let mut text = ArrayVec::<u8, LINES>::new();
    let mut writer = CheckedWriter::new(&mut text);
    let written = put_judgement(&mut writer, &booted.machine, event);
    // No effect at run time. The proof reads what the text holds from this use.
    let _ = &*writer.into_inner();
    hand_over(written_end(written), text.as_slice(), output, line)
}

/// Judges the event that a schedule line says.
pub fn judge_line(booted: &Booted, text: &[u8], output: &mut [u8], line: &mut [u8]) -> Outcome
    ensures { JudgesText text.now booted.now result output.old output.new }
{
    match line_said(text) {
        ScheduleLine::Makes(event) => show_judgement(booted, event, output, line),
        ScheduleLine::Ends => refuse_line(DeckFault::Unknown, output, line),
        ScheduleLine::Drains => refuse_line(DeckFault::Unknown, output, line),
        ScheduleLine::Faulty(fault) => refuse_line(fault, output, line),
    }
}

//! Tests of the contents of a machine's parts and of the instructions that hold an event back, as lines of text.

use contents_text::{Part, put_contents, put_judgement};
use deck::read_deck;
use device_text::{CheckedWriter, Output, WriteFailed};
use instructions::{Refusal, Unit};
use job_deck::booted;
use machine::Machine;
use program_order::Event;
use std::alloc::Global;
use std::test::Fail;

/// A deck with SA1 B0+17, SA2 B0+16 and IX3 X1+X2, which are followed by a stop. The word at 117 (octal) is 5.
const DECK: &str = "\
    core 256\n\
    at 41\n\
    word 00000100000000000000\n\
    word 00000020000000000000\n\
    at 100\n\
    word 51100000175120000016\n\
    word 36312000000000000000\n\
    at 117\n\
    word 5\n\
    start 40\n\
    end\n";

/// The events up to the entry of the first load into the hopper and the issue of the two other instructions.
const ENTERED: [Event; 8] = [
    Event::Ask(0o40),
    Event::Exchange,
    Event::Issue,
    Event::Read(Unit::Increment1),
    Event::Finish(Unit::Increment1),
    Event::Store(Unit::Increment1),
    Event::Issue,
    Event::Issue,
];

/// What is asked of a machine: the contents of a part; or the answer that an event would get, with the instructions
/// that hold it back.
enum Asked {
    Contents(Part),
    Judgement(Event),
}

/// How many of these events are made before memory accepts the first load, if it does; what is asked, and its text.
const ROWS: [(usize, bool, Asked, &str); 21] = [
    (0, false, Asked::Contents(Part::Request), ""),
    (1, false, Asked::Contents(Part::Request), "40\n"),
    (
        2,
        false,
        Asked::Contents(Part::NextInstruction),
        "0 0 SA1 B0+17\n",
    ),
    (
        7,
        false,
        Asked::Contents(Part::Units),
        "increment1 2 issued SA2 B0+16\n",
    ),
    (
        7,
        false,
        Asked::Contents(Part::Hopper),
        "0 1 117 load SA1 B0+17\n",
    ),
    (7, false, Asked::Contents(Part::Channels), ""),
    (
        7,
        true,
        Asked::Contents(Part::Channels),
        "1 1 00000000000000000005 SA1 B0+17\n",
    ),
    (7, true, Asked::Contents(Part::Banks), "15\n"),
    (
        7,
        true,
        Asked::Contents(Part::NextInstruction),
        "1 0 IX3 X1+X2\n",
    ),
    (
        7,
        false,
        Asked::Contents(Part::ReservedRegisters),
        "X1 1 SA1 B0+17\nA2 2 SA2 B0+16\nX2 2 SA2 B0+16\n",
    ),
    (7, false, Asked::Contents(Part::UnreadOperands), ""),
    (
        8,
        true,
        Asked::Contents(Part::UnreadOperands),
        "3 X1 1\n3 X2 2\n",
    ),
    (
        2,
        false,
        Asked::Judgement(Event::Issue),
        "ok increment1 1\n",
    ),
    (
        3,
        false,
        Asked::Judgement(Event::Issue),
        "ok increment2 2\n",
    ),
    (8, false, Asked::Judgement(Event::Issue), "ok\n"),
    (
        8,
        false,
        Asked::Judgement(Event::Read(Unit::Increment1)),
        "ok\n",
    ),
    (
        8,
        false,
        Asked::Judgement(Event::Read(Unit::LongAdd)),
        "E9 operand awaited X1\n1\n",
    ),
    (
        8,
        false,
        Asked::Judgement(Event::Store(Unit::LongAdd)),
        "E15 nothing\n",
    ),
    (8, false, Asked::Judgement(Event::Accept(0)), "ok\n"),
    (
        8,
        false,
        Asked::Judgement(Event::PpRead(0o117)),
        "E26 peripheral waits\n1\n2\n",
    ),
    (
        8,
        false,
        Asked::Judgement(Event::PpRead(0)),
        "E26 peripheral waits\n2\n",
    ),
];

/// The machine after the first events.
fn after(alloc: Global, events: &[Event], is_accepted: bool) -> Result<Machine, Refusal> {
    let mut text = DECK.as_bytes();
    let deck = read_deck(alloc, &mut text)?;
    let mut machine = booted(alloc, &deck, 100)?;
    for event in events {
        let _ = machine.apply(*event)?;
    }
    if is_accepted {
        let _ = machine.apply(Event::Accept(0))?;
    }
    Ok(machine)
}

/// Writes what is asked of a machine.
fn put_asked<O: Output>(
    output: &mut O,
    machine: &Machine,
    asked: &Asked,
) -> Result<(), WriteFailed> {
    match asked {
        Asked::Contents(part) => put_contents(output, machine, *part),
        Asked::Judgement(event) => put_judgement(output, machine, *event),
    }
}

/// Whether what is asked of a machine has this text.
fn is_told(alloc: Global, machine: &Machine, asked: &Asked, wanted: &str) -> bool {
    let mut text = Vec::new(alloc);
    let mut output = CheckedWriter::new(&mut text);
    put_asked(&mut output, machine, asked).is_ok() && text.as_slice() == wanted.as_bytes()
}

#[test]
fn contents_and_judgements(rt: HostRuntime) -> Result<(), Fail> {
    for (made, is_accepted, asked, wanted) in &ROWS {
        let machine = after(rt.alloc(), &ENTERED[..*made], *is_accepted)?;
        assert!(rt; is_told(rt.alloc(), &machine, asked, wanted), "{wanted}");
    }
    Ok(())
}

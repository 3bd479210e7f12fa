//! Memories, started machines, events and checks of a drained machine that the tests share.

use instructions::{Digit, Refusal, Reg, Unit};
use machine::{Machine, Seat};
use program_order::{Answer, Done, Event, Note};
use relocation::Storage;
use sequential::Entry;
use std::alloc::Global;
use word60::Word60;

/// Words at their absolute addresses, in octal.
pub type Words<'a> = &'a [(u32, &'a str)];

/// A word of at most twenty octal digits; +0 for any other text.
pub fn word(octal: &str) -> Word60 {
    Word60::from_octal(octal.as_bytes()).unwrap_or_default()
}

fn put_word(memory: &mut Storage, address: u32, octal: &str) {
    if address < memory.size() {
        memory.store(address, word(octal));
    }
}

/// A memory of 256 words to boot with. The package at 40 has RA 100 and FL 20, and these words are stored over that.
pub fn memory_of(alloc: Global, words: Words<'_>) -> Result<Storage, Refusal> {
    let mut memory = Storage::new(alloc, 256)?;
    put_word(&mut memory, 0o41, "00000100000000000000");
    put_word(&mut memory, 0o42, "00000020000000000000");
    for (address, octal) in words {
        put_word(&mut memory, *address, octal);
    }
    Ok(memory)
}

/// A machine booted with such a memory.
pub fn booted(alloc: Global, words: Words<'_>) -> Option<Machine> {
    let memory = memory_of(alloc, words).ok()?;
    Machine::boot(alloc, memory, 1_000_000).ok()
}

/// Makes an event.
pub fn make(machine: &mut Machine, event: Event) -> Answer {
    machine.apply(event)
}

/// Whether the events get these answers, in order.
pub fn meets(machine: &mut Machine, steps: &[(Event, Answer)]) -> bool {
    for (event, answer) in steps {
        if make(machine, *event) != *answer {
            return false;
        }
    }
    true
}

/// The same machine, started by an exchange with the package at 40.
pub fn started_on(alloc: Global, words: Words<'_>) -> Option<Machine> {
    let mut machine = booted(alloc, words)?;
    if meets(
        &mut machine,
        &[(Event::Ask(0o40), MADE), (Event::Exchange, MADE)],
    ) {
        Some(machine)
    } else {
        None
    }
}

/// A started machine with a program of one word.
pub fn started(alloc: Global, code: &str) -> Option<Machine> {
    started_on(alloc, &[(0o100, code)])
}

/// The same, with X2 set by the package.
pub fn started_with(alloc: Global, code: &str, x2: &str) -> Option<Machine> {
    started_on(alloc, &[(0o52, x2), (0o100, code)])
}

pub const MADE: Answer = Ok(Done::Made);

pub fn issued(unit: Unit, number: u64) -> Answer {
    Ok(Done::Issued(Some(Note { unit, number })))
}

pub fn x(number: u16) -> Reg {
    Reg::X(Digit::low(number))
}

/// The seat of Increment1. The other seats are given up.
pub fn of_increment1(seats: [Seat; 7]) -> Seat {
    let [
        branch,
        boolean,
        shift,
        long_add,
        divide,
        increment1,
        increment2,
    ] = seats;
    branch.leave();
    boolean.leave();
    shift.leave();
    long_add.leave();
    divide.leave();
    increment2.leave();
    increment1
}

/// The seat of Increment1, if the seats weren't given out before.
pub fn seat_of_increment1(machine: &mut Machine) -> Option<Seat> {
    match machine.seats() {
        Some(seats) => Some(of_increment1(seats)),
        None => None,
    }
}

/// How many events a drain makes.
pub fn drain(machine: &mut Machine) -> u32 {
    machine.drain()
}

/// Whether a snapshot shows these words in X1 and X2, and in the log the exchange followed by this many instructions.
pub fn shows(machine: &Machine, x1: &str, x2: &str, issues: u64) -> bool {
    let Ok(snapshot) = machine.snapshot() else {
        return false;
    };
    let registers = &snapshot.state().registers;
    registers.get(x(1)) == word(x1)
        && registers.get(x(2)) == word(x2)
        && snapshot.log().entries() == [Entry::Exchange(0o40), Entry::Issued(issues)].as_slice()
}

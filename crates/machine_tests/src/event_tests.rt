//! Events that no line of a session can express, and a program that is issued and drained by turns.

use crate::fixtures::{MADE, drain, issued, make, meets, shows, started_on};
use instructions::{Halt, Refusal, Unit};
use machine::Machine;
use program_order::{Answer, Event};
use std::process::Abort;
use std::test::Fail;

/// SX1 B0+5 and SX2 B0+3, then IX3 X1+X2, IX4 X2-X1, NO and PS.
const TWO_SUMS: [(u32, &str); 2] = [
    (0o100, "71100000057120000003"),
    (0o101, "36312374214600000000"),
];

/// Events with numbers beyond all places, channels, banks and packages, and a request for the last package.
const PAST_ALL: [(Event, Answer); 6] = [
    (Event::Accept(200), Err(Refusal::Nothing)),
    (Event::Return(200), Err(Refusal::Nothing)),
    (Event::BankFree(200), Err(Refusal::Nothing)),
    (Event::Ask(u32::MAX), Err(Refusal::PackageRange)),
    (Event::PpRead(u32::MAX), Err(Refusal::PeripheralRange)),
    (Event::Ask(0o360), MADE),
];

#[test]
fn numbers_out_of_range(rt: HostRuntime) -> Result<(), Fail> {
    let mut machine = started_on(rt.alloc(), &TWO_SUMS).ok_or("start")?;
    assert!(rt; meets(&mut machine, &PAST_ALL));
    Ok(())
}

/// Issues and drains by turns.
fn go_on(machine: &mut Machine) {
    for _ in 0..12u32 {
        let _ = make(machine, Event::Issue);
        let _ = drain(machine);
    }
}

/// Each instruction is completed before the next one is issued, up to the stop.
#[test]
fn by_turns(rt: HostRuntime) -> Result<(), Fail> {
    let mut machine = started_on(rt.alloc(), &TWO_SUMS).ok_or("start")?;
    go_on(&mut machine);
    let answer = make(&mut machine, Event::Issue);
    assert!(rt; answer == Err(Refusal::Halted(Halt::Stop)) && shows(&machine, "5", "3", 6));
    Ok(())
}

/// SA1 B0+1 and SA2 B0+1, two loads of one word, 7.
const TWO_LOADS: [(u32, &str); 2] = [(0o100, "51100000015120000001"), (0o101, "7")];

/// The work on both loads, the older first: the second waits for the bank.
const LOADING: [Event; 11] = [
    Event::Read(Unit::Increment1),
    Event::Finish(Unit::Increment1),
    Event::Store(Unit::Increment1),
    Event::Accept(0),
    Event::Return(1),
    Event::Read(Unit::Increment2),
    Event::Finish(Unit::Increment2),
    Event::Store(Unit::Increment2),
    Event::BankFree(1),
    Event::Accept(0),
    Event::Return(2),
];

/// Whether each of these events in turn is the next event and is made, and whether there is no next event after that.
fn works_through(machine: &mut Machine, events: &[Event]) -> bool {
    for event in events {
        if machine.next_work() != Some(*event) || make(machine, *event) != MADE {
            return false;
        }
    }
    machine.next_work().is_none()
}

/// Makes the next event again and again until nothing is pending.
#[test]
fn by_next_work(rt: HostRuntime) -> Result<(), Fail> {
    let mut machine = started_on(rt.alloc(), &TWO_LOADS).ok_or("start")?;
    let is_issued = meets(
        &mut machine,
        &[
            (Event::Issue, issued(Unit::Increment1, 1)),
            (Event::Issue, issued(Unit::Increment2, 2)),
        ],
    );
    let is_done = works_through(&mut machine, LOADING.as_slice());
    assert!(rt; is_issued && is_done && shows(&machine, "7", "7", 2));
    Ok(())
}

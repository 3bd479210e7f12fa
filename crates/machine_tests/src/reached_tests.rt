//! Callers that know by contracts alone what led to their machine, and therefore its state.

ghost use Rattle.std.specs.Prelude.{◌≡◌, ◌∷◌, [], IfOk, IfSome, List, Ok, Result, Some};
ghost use Rattle.instructions.specs.declared.refusal.Refusal.{Refusal as SomeRefusal};
ghost use Rattle.program_order.specs.declared.event.Done.{Done as SomeDone};
ghost use Rattle.program_order.specs.declared.event.Done.TheVariants.{Made};
ghost use Rattle.program_order.specs.declared.event.Event.{Event as SomeEvent};
ghost use Rattle.program_order.specs.declared.event.Event.TheVariants.{Ask, Exchange, Finish, Issue, Read, Store};
ghost use Rattle.program_order.specs.Headline.{IsFaithful, IsFaultedRun, log_of};
ghost use Rattle.program_order.specs.Reached.{GoesOn};
ghost use Rattle.sequential.specs.Replay.{boot, replay};

use crate::fixtures::{
    MADE, booted, drain, issued, make, meets, memory_of, of_increment1, seat_of_increment1, shows,
    started,
};
use instructions::{Refusal, Unit};
use machine::{Machine, Seat};
use program_order::{Answer, Event, Note, Snapshot, what_is_reached_is_faithful};
use relocation::Storage;
use sequential::Entry;
use std::alloc::Global;
use std::process::Abort;
use std::test::Fail;

/// SX1 B0+5, and then stops.
const FIVE: &str = "71100000050000000000";

/// SA1 B0+20, which is out of range with FL 20 (octal), and then stops.
const BEYOND: &str = "51100000200000000000";

/// The exit mode with its address bit, as a word of a package.
const ADDRESS_BIT: &str = "00010000000000000000";

/// Runs events on a machine that was just booted.
fn ran(alloc: Global, memory: Storage, events: &[Event]) -> Result<(Machine, Vec<Answer>), Refusal>
    ensures { IfOk result (λ ran. IsFaithful memory events.now ran.1.items ran.0) }
{
    let mut machine = match Machine::boot(alloc, memory, 100) {
        Ok(machine) => machine,
        Err(refusal) => return Err(refusal),
    };
    let mut answers = Vec::new(alloc);
    if let Err(refusal) = machine.run(events, &mut answers) {
        return Err(refusal);
    }
    what_is_reached_is_faithful();
    Ok((machine, answers))
}

/// Takes a reservation from claim to store. Returns the seat alone if a call is refused.
fn serve(machine: &mut Machine, seat: Seat, note: Note) -> Result<Seat, Seat>
    ensures { IfOk result (λ stored. GoesOn machine.old (Read seat.unit ∷ Finish seat.unit ∷ Store seat.unit ∷ [])
        (Ok Made ∷ Ok Made ∷ Ok Made ∷ []) machine.new) }
{
    let reserved = match machine.claim(seat, note) {
        Err((_, seat)) => return Err(seat),
        Ok(reserved) => reserved,
    };
    let loaded = match machine.read(reserved) {
        Err((_, reserved)) => return Err(reserved.abandon()),
        Ok(loaded) => loaded,
    };
    let finished = match machine.finish(loaded.compute()) {
        Err((_, computed)) => return Err(computed.abandon()),
        Ok(finished) => finished,
    };
    match machine.store(finished) {
        Err((_, finished)) => Err(finished.abandon()),
        Ok(seat) => Ok(seat),
    }
}

/// Boots a machine with the memory, makes the exchange at 40 (octal), issues once, gives out the seats, and drains it.
/// Returns its snapshot.
fn shown(alloc: Global, memory: Storage) -> Result<Snapshot, Refusal>
    ensures { IfOk result (λ snapshot. (snapshot.boot_memory ≡ memory)
        × (replay (boot memory) snapshot.log ≡ Some snapshot.state)
        × ((more : List SomeEvent) × ((answers : List (Result SomeDone SomeRefusal))
        × (snapshot.log ≡ log_of (Ask 32 ∷ Exchange ∷ Issue ∷ more) answers)))) }
{
    let mut machine = match Machine::boot(alloc, memory, 100) {
        Ok(machine) => machine,
        Err(refusal) => return Err(refusal),
    };
    let _ = machine.apply(Event::Ask(32));
    let _ = machine.apply(Event::Exchange);
    let _ = machine.apply(Event::Issue);
    if let Some(seats) = machine.seats() {
        of_increment1(seats).leave();
    }
    let _ = machine.drain();
    what_is_reached_is_faithful();
    machine.snapshot()
}

/// Whether the log is the exchange with the package at 40 (octal) and one instruction.
fn has_one_instruction(snapshot: &Snapshot) -> bool {
    snapshot.log().entries() == [Entry::Exchange(0o40), Entry::Issued(1)].as_slice()
}

/// From boot to a snapshot, by events, seats and a drain.
#[test]
fn by_each_call(rt: HostRuntime) -> Result<(), Fail> {
    let memory = memory_of(rt.alloc(), &[(0o100, FIVE)])?;
    let snapshot = shown(rt.alloc(), memory)?;
    assert!(rt; has_one_instruction(&snapshot));
    Ok(())
}

/// The snapshot of a drained machine that has the fault: its log since the last exchange is a beginning of the program's
/// run that includes the instruction that sets the fault. `None` if no snapshot can be taken, or if it has no fault.
fn faulted(machine: &Machine) -> Option<Snapshot>
    ensures { IfSome result (λ snapshot. IsFaultedRun snapshot.log snapshot.boot_memory snapshot.state) }
{
    let Ok(snapshot) = machine.snapshot() else {
        return None;
    };
    if !snapshot.state().fault {
        return None;
    }
    Some(snapshot)
}

/// Whether the machine shows a fault when it is drained, and not before. It has then issued one instruction, and issues
/// no more.
fn is_faulted(machine: &mut Machine) -> bool {
    let is_early = faulted(machine).is_some();
    let _ = drain(machine);
    match faulted(machine) {
        Some(snapshot) => {
            let answer = make(machine, Event::Issue);
            !is_early && has_one_instruction(&snapshot) && answer == Err(Refusal::Faulted)
        }
        None => false,
    }
}

/// Whether the machine has issued its first instruction, to Increment1.
fn issues_one(machine: &mut Machine) -> bool {
    meets(
        machine,
        &[
            (Event::Ask(0o40), MADE),
            (Event::Exchange, MADE),
            (Event::Issue, issued(Unit::Increment1, 1)),
        ],
    )
}

/// A program that ends with a fault, which SA1 B0+20 sets: no snapshot shows it before the machine is drained.
#[test]
fn with_a_fault(rt: HostRuntime) -> Result<(), Fail> {
    let words = [(0o43, ADDRESS_BIT), (0o100, BEYOND)];
    let mut machine = booted(rt.alloc(), &words).ok_or("boot")?;
    assert!(rt; issues_one(&mut machine) && is_faulted(&mut machine));
    Ok(())
}

/// A program that ends without a fault.
#[test]
fn without_a_fault(rt: HostRuntime) -> Result<(), Fail> {
    let mut machine = booted(rt.alloc(), &[(0o100, FIVE)]).ok_or("boot")?;
    assert!(rt; issues_one(&mut machine) && !is_faulted(&mut machine));
    Ok(())
}

/// Serves the first reservation with its seat. Returns whether it was stored.
fn is_served(machine: &mut Machine) -> bool {
    let Some(seat) = seat_of_increment1(machine) else {
        return false;
    };
    let note = Note {
        unit: Unit::Increment1,
        number: 1,
    };
    match serve(machine, seat, note) {
        Ok(seat) => seat.leave() == 1,
        Err(seat) => {
            seat.leave();
            false
        }
    }
}

/// A reservation's three events, made by calls with tokens.
#[test]
fn by_tokens(rt: HostRuntime) -> Result<(), Fail> {
    let mut machine = started(rt.alloc(), FIVE).ok_or("start")?;
    let answer = make(&mut machine, Event::Issue);
    let is_served = is_served(&mut machine);
    assert!(rt; answer == issued(Unit::Increment1, 1) && is_served && shows(&machine, "5", "0", 1));
    Ok(())
}

/// Three events made by one call of `run`.
#[test]
fn by_one_run(rt: HostRuntime) -> Result<(), Fail> {
    let memory = memory_of(rt.alloc(), &[(0o100, FIVE)])?;
    let events = [Event::Ask(0o40), Event::Exchange, Event::Issue];
    let (mut machine, answers) = ran(rt.alloc(), memory, events.as_slice())?;
    let wanted = [MADE, MADE, issued(Unit::Increment1, 1)];
    let left = drain(&mut machine);
    assert!(rt; answers.iter().eq(wanted.iter()) && left == 3 && shows(&machine, "5", "0", 1));
    Ok(())
}

//! Several events in one hold of the lock, with no other event between them.

use crate::fixtures::{Issued, booted_over, note, of_increments, word, x};
use crate::lock_tests::{issued, serve, start};
use crate::scenario::{Scenario, play};
use instructions::{Refusal, Unit};
use machine::{Loaded, Seat};
use machine_lock::{LockedMachine, Naming, Seen, Shared};
use std::sync::Wait;
use std::test::Fail;
use word60::Word60;

/// SA1 B0+10 (octal), which loads X1, and SX2 B0+3.
const LOADS: &str = "51100000107120000003";

/// The answers of the first hold's events, before the load's value is computed: two issues, and the request for an
/// exchange.
type Begun = ([Issued; 2], Result<(), Refusal>);

/// The answers of the second hold's events: an acceptance, the release of its bank, the return, and whether the machine
/// is drained.
type Ended = ([Result<(), Refusal>; 3], bool);

/// Makes the events from the issues to the read of a load, in one hold of the lock. Returns the seat if a step is
/// refused.
fn begin<K: Naming>(
    machine: &mut LockedMachine<K>,
    seen: &mut Seen<K>,
    seat: Seat,
) -> (Begun, Result<Loaded, Seat>) {
    let issues = [machine.issue(seen), machine.issue(seen)];
    let asked = machine.ask(seen, 0o40);
    let loaded = match machine.claim(seat, note(Unit::Increment1, 1)) {
        Ok(reserved) => match machine.read(reserved) {
            Ok(loaded) => Ok(loaded),
            Err((_, reserved)) => Err(reserved.abandon()),
        },
        Err((_, seat)) => Err(seat),
    };
    ((issues, asked), loaded)
}

/// Makes the events from the finish of a load to its return, in one hold of the lock. Also returns how many
/// reservations the seat stored.
fn end<K: Naming>(machine: &mut LockedMachine<K>, loaded: Result<Loaded, Seat>) -> (u64, Ended) {
    let seat = match loaded {
        Ok(loaded) => match machine.finish(loaded.compute()) {
            Ok(finished) => match machine.store(finished) {
                Ok(seat) => seat,
                Err((_, finished)) => finished.abandon(),
            },
            Err((_, computed)) => computed.abandon(),
        },
        Err(seat) => seat,
    };
    let events = [
        machine.accept(0),
        machine.bank_free(0o10),
        machine.return_load(1),
    ];
    (seat.leave(), (events, machine.drained()))
}

/// The answer of the start, all these answers, and X1 and X2 after the other instruction was served too.
type Held = (
    Result<(), Refusal>,
    Begun,
    (u64, Ended),
    Option<[Word60; 2]>,
);

/// X1 and X2 of a drained machine.
fn registers<K: Naming, R: Wait>(
    rt: &R,
    shared: &Shared<K>,
    seen: &mut Seen<K>,
) -> Option<[Word60; 2]> {
    let snapshot = shared.snapshot(rt, seen).ok()?;
    let registers = &snapshot.state().registers;
    Some([registers.get(x(1)), registers.get(x(2))])
}

/// Two holds of the lock, and the service of the second instruction after them.
struct TwoHolds;

impl Scenario for TwoHolds {
    type Outcome = Held;

    fn play<K: Naming, R: Wait>(
        &self,
        rt: &R,
        shared: &Shared<K>,
        seats: [Seat; 7],
        seen: &mut Seen<K>,
    ) -> Held {
        let (first, second) = of_increments(seats);
        let started = start(rt, shared, seen);
        let mut machine = shared.lock(rt);
        let (begun, loaded) = begin(&mut machine, seen, first);
        shared.release(machine);
        let mut machine = shared.lock(rt);
        let ended = end(&mut machine, loaded);
        shared.release(machine);
        let (second, _) = serve(rt, shared, second, note(Unit::Increment2, 2));
        second.leave();
        (started, begun, ended, registers(rt, shared, seen))
    }
}

/// Two issues, a request and a read are made in one hold of the lock. In a second hold, the result is stored and its
/// reference goes through memory. The machine isn't drained then, because the second instruction waits in its unit.
#[test]
fn holds_the_lock(rt: HostRuntime) -> Result<(), Fail> {
    let machine = booted_over(rt.alloc(), &[(0o100, LOADS)], &[(0o110, "7")])?;
    let held = play(&rt, rt.alloc(), machine, &TwoHolds)?;
    let issues = [issued(Unit::Increment1, 1), issued(Unit::Increment2, 2)];
    let ended = (1, ([Ok(()), Ok(()), Ok(())], false));
    let at_end = Some([word("7"), word("3")]);
    assert!(rt; held == (Ok(()), (issues, Ok(())), ended, at_end));
    Ok(())
}

//! How the threads that drive a machine wake each other.
ghost use Rattle.std.specs.Prelude.{◌≡◌};

use crate::fixtures::{FIRST, booted, leave, leave_all, note, of_increment1, of_increments, x};
use crate::scenario::{Scenario, play};
use instructions::{Refusal, Unit};
use machine::{Finished, Machine, Seat};
use machine_lock::{Ground, Naming, Seen, Shared};
use program_order::{Event, Note};
use signals::{Signal, Signals, Wakeups};
use std::alloc::Global;
use std::marker::Brand;
use std::sync::Wait;
use std::test::Fail;
use std::thread::{Threads, join};

/// The counts of the signals so far.
fn told<K: Naming>(shared: &Shared<K>) -> Counts {
    let signals = shared.signals();
    (
        signals.issuing.count(),
        signals.requests.count(),
        signals.memory.count(),
    )
}

/// How often the signal of each unit's worker was raised.
fn sent<K: Naming>(shared: &Shared<K>) -> [u64; 7] {
    let signals = shared.signals();
    [
        signals.worker(Unit::Branch).count(),
        signals.worker(Unit::Boolean).count(),
        signals.worker(Unit::Shift).count(),
        signals.worker(Unit::LongAdd).count(),
        signals.worker(Unit::Divide).count(),
        signals.worker(Unit::Increment1).count(),
        signals.worker(Unit::Increment2).count(),
    ]
}

/// Serves a reservation from claim to store. Also returns the counts after the claim, the read, the finish and the
/// store; `None` if a step is refused.
fn served<K: Naming, R: Wait>(
    rt: &R,
    shared: &Shared<K>,
    seat: Seat,
    note: Note,
) -> (Seat, Option<[Counts; 4]>) {
    let reserved = match shared.claim(rt, seat, note) {
        Ok(reserved) => reserved,
        Err((_, seat)) => return (seat, None),
    };
    let claimed = told(shared);
    let loaded = match shared.read(rt, reserved) {
        Ok(loaded) => loaded,
        Err((_, reserved)) => return (reserved.abandon(), None),
    };
    let read = told(shared);
    let result = match shared.finish(rt, loaded.compute()) {
        Ok(result) => result,
        Err((_, computed)) => return (computed.abandon(), None),
    };
    let finished = told(shared);
    match shared.store(rt, result) {
        Ok(seat) => (seat, Some([claimed, read, finished, told(shared)])),
        Err((_, result)) => (result.abandon(), None),
    }
}

/// The issuing thread is woken when an exchange was asked for and, if it waits for a change, when a unit has stored.
/// The thread that makes requests is woken when an exchange was made, and the storage worker when a unit that makes
/// references has stored. A refused call wakes no thread.
#[test]
fn stores_are_told(rt: HostRuntime) -> Result<(), Fail> {
    let machine = booted(rt.alloc(), &[(0o100, FIRST)])?;
    let stored = play(&rt, rt.alloc(), machine, &Stores)?;
    let after = Some([(1, 1, 0), (1, 1, 0), (1, 1, 0), (2, 1, 1)]);
    let refused = Err(Refusal::Nothing);
    assert_eq!(rt;
        stored,
        (true, (Unit::Increment1, 1), after, refused, (2, 1, 1))
    );
    Ok(())
}

/// How often the signals of the issuing thread, the asking thread and the storage worker were raised.
type Counts = (u64, u64, u64);

/// Whether the exchange and the issue were made, and the seat's unit and count. Then the counts at each step of the
/// reservation, the answer of an acceptance, and the counts after that.
type Stored = (
    bool,
    (Unit, u64),
    Option<[Counts; 4]>,
    Result<(), Refusal>,
    Counts,
);

/// An exchange, an issue and the service of the reservation, while the issuing thread waits for a change.
struct Stores;

impl Scenario for Stores {
    type Outcome = Stored;

    fn play<K: Naming, R: Wait>(
        &self,
        rt: &R,
        shared: &Shared<K>,
        seats: [Seat; 7],
        seen: &mut Seen<K>,
    ) -> Stored {
        let seat = of_increment1(seats);
        let asked = shared.ask(rt, seen, 0o40);
        let exchanged = shared.exchange(rt, seen);
        let issued = shared.issue(rt, seen);
        shared.signals().issuing.await_change(true);
        let (seat, after) = served(rt, shared, seat, note(Unit::Increment1, 1));
        let refused = shared.accept(rt, 0);
        let is_made = asked.is_ok() && exchanged.is_ok() && issued.is_ok();
        (is_made, leave(seat), after, refused, told(shared))
    }
}

/// A machine that has issued SA1 B0+17, BX3 X1*X2 and SX2 B1+B2. The load is in place 0 of the hopper. The Boolean unit
/// waits for X1, and Increment2 can't store X2 until the Boolean unit has read it.
fn holding(alloc: Global) -> Result<Machine, Refusal> {
    let mut machine = booted(alloc, &[(0o100, "51100000171131276212")])?;
    let unit = Unit::Increment1;
    let events = [
        Event::Ask(0o40),
        Event::Exchange,
        Event::Issue,
        Event::Issue,
        Event::Issue,
        Event::Read(unit),
        Event::Finish(unit),
        Event::Store(unit),
    ];
    for event in events {
        let _ = machine.apply(event)?;
    }
    Ok(machine)
}

/// Takes a reservation from claim to finish. Returns the seat if a step is refused.
fn finished<K: Naming, R: Wait>(
    rt: &R,
    shared: &Shared<K>,
    seat: Seat,
    note: Note,
) -> Result<Finished, Seat> {
    let reserved = match shared.claim(rt, seat, note) {
        Ok(reserved) => reserved,
        Err((_, seat)) => return Err(seat),
    };
    let loaded = match shared.read(rt, reserved) {
        Ok(loaded) => loaded,
        Err((_, reserved)) => return Err(reserved.abandon()),
    };
    match shared.finish(rt, loaded.compute()) {
        Ok(result) => Ok(result),
        Err((_, computed)) => Err(computed.abandon()),
    }
}

/// Accepts the reference in place 0 of the hopper and then stores a result, in one hold of the lock. Returns whether the
/// acceptance was made, and the refusal of the store.
fn accept_and_store<K: Naming, R: Wait>(
    rt: &R,
    shared: &Shared<K>,
    token: Finished,
) -> (bool, Option<Refusal>) {
    let mut machine = shared.lock(rt);
    let accepted = machine.accept(0);
    let (seat, refused) = match machine.store(token) {
        Ok(seat) => (seat, None),
        Err((refusal, token)) => (token.abandon(), Some(refusal)),
    };
    shared.release(machine);
    seat.leave();
    (accepted.is_ok(), refused)
}

/// An acceptance wakes a thread that waits for a change, even if a store is refused later in the same hold of the lock.
/// A return wakes that thread too, but none that waits for a read.
#[test]
fn changes_of_memory_are_told(rt: HostRuntime) -> Result<(), Fail> {
    let machine = holding(rt.alloc())?;
    let told = play(&rt, rt.alloc(), machine, &MemoryEvents)?;
    let held = Some(Refusal::ResultHeld(x(2)));
    assert_eq!(rt; told, Some(((true, held), (1, 0, 0), Ok(()), (2, 0, 0))));
    Ok(())
}

/// Whether the acceptance was made, the refusal of the store, and the counts after the hold. Then the answer of the
/// return, and the counts after that.
type MemoryTold = ((bool, Option<Refusal>), Counts, Result<(), Refusal>, Counts);

/// An acceptance with a refused store, and a return, while the issuing thread waits for a change and the storage worker
/// for a read. The outcome is `None` if Increment2 can't finish.
struct MemoryEvents;

impl Scenario for MemoryEvents {
    type Outcome = Option<MemoryTold>;

    fn play<K: Naming, R: Wait>(
        &self,
        rt: &R,
        shared: &Shared<K>,
        seats: [Seat; 7],
        _seen: &mut Seen<K>,
    ) -> Option<MemoryTold> {
        let (increment1, increment2) = of_increments(seats);
        increment1.leave();
        match finished(rt, shared, increment2, note(Unit::Increment2, 3)) {
            Ok(token) => Some(memory_told(rt, shared, token)),
            Err(seat) => {
                seat.leave();
                None
            }
        }
    }
}

/// The events of memory and the counts after them.
fn memory_told<K: Naming, R: Wait>(rt: &R, shared: &Shared<K>, token: Finished) -> MemoryTold {
    shared.signals().issuing.await_change(true);
    shared.signals().memory.await_read(true);
    let stored = accept_and_store(rt, shared, token);
    let after = told(shared);
    let returned = shared.return_load(rt, 1);
    (stored, after, returned, told(shared))
}

/// A raise for one unit raises the signal of its worker alone; the end raises all signals.
#[test]
fn the_end_is_told_to_all(rt: HostRuntime) -> Result<(), Fail> {
    let machine = booted(rt.alloc(), &[])?;
    let counts = play(&rt, rt.alloc(), machine, &RaisedAndEnded)?;
    let before = ([0, 0, 1, 0, 0, 0, 0], (0, 0, 0));
    let after = ([1, 1, 2, 1, 1, 1, 1], (1, 1, 1));
    assert_eq!(rt; counts, [before, after]);
    Ok(())
}

/// The outcome is the counts of the workers and of the other threads, before the end and after it.
struct RaisedAndEnded;

impl Scenario for RaisedAndEnded {
    type Outcome = [([u64; 7], Counts); 2];

    fn play<K: Naming, R: Wait>(
        &self,
        rt: &R,
        shared: &Shared<K>,
        seats: [Seat; 7],
        _seen: &mut Seen<K>,
    ) -> [([u64; 7], Counts); 2] {
        leave_all(seats);
        shared.signals().worker(Unit::Shift).raise();
        let before = (sent(shared), told(shared));
        shared.end(rt);
        [before, (sent(shared), told(shared))]
    }
}

/// The end is recorded before it is told: while another thread holds the lock, `end` raises no signal.
#[test]
fn the_end_is_told_late(rt: HostRuntime) -> Result<(), Fail> {
    let machine = booted(rt.alloc(), &[])?;
    let ground = Ground::new(rt.alloc())?;
    let counts = end_of_held::<Brand, _>(&rt, rt.alloc(), ground, machine)?;
    assert_eq!(rt; counts, (0, 1));
    Ok(())
}

/// Opens a machine that no thread serves, and ends it while another thread holds its lock.
fn end_of_held<K: Naming + Send + Sync, R: Threads + Wait + Sync>(
    rt: &R,
    alloc: Global,
    ground: Ground,
    machine: Machine,
) -> Result<(u64, u64), Refusal>
    requires { ground ≡ K.table }
{
    let (shared, seats, _) = Shared::<K>::open(alloc, ground, machine)?;
    leave_all(seats);
    Ok(counts_of_the_end(rt, &shared))
}

/// The counts of the asking thread's signal while the lock is held, and after the end.
fn counts_of_the_end<K: Naming + Send + Sync, R: Threads + Wait + Sync>(
    rt: &R,
    shared: &Shared<K>,
) -> (u64, u64) {
    let (held, ()) = join(
        rt,
        || count_while_held(rt, shared),
        || end_when_held(rt, shared),
    );
    (held, shared.signals().requests.count())
}

/// Holds the lock for some milliseconds. Returns the count of the asking thread's signal at the end of the hold.
fn count_while_held<K: Naming, R: Wait>(rt: &R, shared: &Shared<K>) -> u64 {
    let machine = shared.lock(rt);
    let signals = shared.signals();
    signals.memory.raise();
    for _ in 0..20u32 {
        signals.requests.sleep(rt, 0);
    }
    let count = signals.requests.count();
    shared.release(machine);
    count
}

/// Tells the machine's users to end, once another thread holds the lock.
fn end_when_held<K: Naming, R: Wait>(rt: &R, shared: &Shared<K>) {
    let _ = next_count(rt, shared.signals(), 0);
    shared.end(rt);
}

/// A signal is raised by a change that its thread waits for, and by nothing else.
#[test]
fn waiting_threads_are_told(rt: HostRuntime) -> Result<(), Fail> {
    let machine = booted(rt.alloc(), &[])?;
    let counts = play(&rt, rt.alloc(), machine, &WaitingByTurns)?;
    assert_eq!(rt; counts, [0, 1, 1, 2]);
    Ok(())
}

/// The outcome is the counts of a signal after a change and a read: if its thread waits for nothing, for a change, for
/// nothing again, and for a read.
struct WaitingByTurns;

impl Scenario for WaitingByTurns {
    type Outcome = [u64; 4];

    fn play<K: Naming, R: Wait>(
        &self,
        _rt: &R,
        shared: &Shared<K>,
        seats: [Seat; 7],
        _seen: &mut Seen<K>,
    ) -> [u64; 4] {
        leave_all(seats);
        let signal = &shared.signals().memory;
        let changed = Wakeups {
            changed: true,
            ..Wakeups::default()
        };
        let read = Wakeups {
            read: true,
            ..Wakeups::default()
        };
        let mut counts = [0; 4];
        for (turn, waits) in [(false, false), (true, false), (false, false), (false, true)]
            .iter()
            .enumerate()
        {
            signal.await_change(waits.0);
            signal.await_read(waits.1);
            signal.wake(&changed);
            signal.wake(&read);
            counts[turn] = signal.count();
        }
        counts
    }
}

/// A wait ends if its signal is raised, and also if it isn't; then the wait can be repeated.
#[test]
fn waits_end(rt: HostRuntime) -> Result<(), Fail> {
    let machine = booted(rt.alloc(), &[])?;
    let ground = Ground::new(rt.alloc())?;
    let counts = wait_and_raise::<Brand, _>(&rt, rt.alloc(), ground, machine)?;
    assert_eq!(rt; counts, [0, 1, 1, 2]);
    Ok(())
}

/// Opens a machine that no thread serves, and waits for one of its signals.
fn wait_and_raise<K: Naming, R: Threads + Wait + Sync>(
    rt: &R,
    alloc: Global,
    ground: Ground,
    machine: Machine,
) -> Result<[u64; 4], Refusal>
    requires { ground ≡ K.table }
{
    let (shared, seats, _) = Shared::<K>::open(alloc, ground, machine)?;
    leave_all(seats);
    Ok(counts_of_waits(rt, shared.signals()))
}

/// The counts of a signal after a fruitless wait, after a wait that another thread ended, after many fruitless waits,
/// and after one more wait that another thread ended.
fn counts_of_waits<R: Threads + Wait + Sync>(rt: &R, signals: &Signals) -> [u64; 4] {
    let signal = &signals.memory;
    let mut wait = signals.waiting();
    wait.until_raised(rt, signal, 0);
    let in_vain = signal.count();
    let (raised, ()) = join(rt, || next_count(rt, signals, 0), || signal.raise());
    for _ in 0..70 {
        wait.until_raised(rt, signal, 1);
    }
    let unchanged = signal.count();
    let (again, ()) = join(rt, || next_count(rt, signals, 1), || signal.raise());
    [in_vain, raised, unchanged, again]
}

/// Waits until the count of the storage worker's signal is no longer this one, and returns it.
fn next_count<R: Wait>(rt: &R, signals: &Signals, count: u64) -> u64 {
    let mut wait = signals.waiting();
    for _ in rt.forever() {
        if signals.memory.count() != count {
            return signals.memory.count();
        }
        wait.until_raised(rt, &signals.memory, count);
    }
    unreachable!()
}

/// Sleeps until a signal was raised, and returns its count.
fn woken<R: Wait>(rt: &R, signal: &Signal) -> u64 {
    for _ in rt.forever() {
        let count = signal.count();
        if count != 0 {
            return count;
        }
        signal.sleep(rt, count);
    }
    unreachable!()
}

/// A sleep ends both if its signal is raised and if it isn't.
#[test]
fn sleeps_end(rt: HostRuntime) -> Result<(), Fail> {
    let machine = booted(rt.alloc(), &[])?;
    let ground = Ground::new(rt.alloc())?;
    let count = sleep_and_wake::<Brand, _>(&rt, rt.alloc(), ground, machine)?;
    assert_eq!(rt; count, 1);
    Ok(())
}

/// Opens a machine that no thread serves, and sleeps until one of its signals is raised.
fn sleep_and_wake<K: Naming, R: Threads + Wait + Sync>(
    rt: &R,
    alloc: Global,
    ground: Ground,
    machine: Machine,
) -> Result<u64, Refusal>
    requires { ground ≡ K.table }
{
    let (shared, seats, _) = Shared::<K>::open(alloc, ground, machine)?;
    leave_all(seats);
    Ok(count_of_sleeps(rt, &shared.signals().requests))
}

/// The count of the signal that ended the second sleep.
fn count_of_sleeps<R: Threads + Wait + Sync>(rt: &R, requests: &Signal) -> u64 {
    requests.sleep(rt, 0);
    let (count, ()) = join(rt, || woken(rt, requests), || requests.raise());
    count
}

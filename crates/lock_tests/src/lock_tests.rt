//! A machine under its lock: seats and tokens, threads that drive it, and its callers' knowledge of the log.

ghost use Rattle.std.specs.Prelude.{◌≡◌, IfOk};
ghost use Rattle.machine_lock.specs.CallerKnowledge.{StartsWith};

use crate::fixtures::{
    FIRST, Issued, SECOND, booted, is_empty, leave, leave_all, note, of_increments, word, x,
};
use crate::scenario::{Scenario, play};
use instructions::{Refusal, Unit};
use machine::{Computed, Finished, Loaded, Machine, Reserved, Seat};
use machine_lock::{Ground, Naming, Seen, Shared};
use program_order::{Event, Note, Snapshot};
use sequential::Entry;
use std::alloc::Global;
use std::marker::Brand;
use std::sync::Wait;
use std::test::Fail;
use std::thread::{Threads, join};

/// SX1 B0+5, with stops after it.
const FIVE: &str = "71100000050000000000";

/// Four passes.
const PASSES: &str = "46000460004600046000";

/// The answer of an issue for an instruction that has a unit.
pub(crate) fn issued(unit: Unit, number: u64) -> Issued {
    Ok(Some(note(unit, number)))
}

/// Asks for the exchange with the package at 40 (octal), and makes it.
pub(crate) fn start<K: Naming, R: Wait>(
    rt: &R,
    shared: &Shared<K>,
    seen: &mut Seen<K>,
) -> Result<(), Refusal> {
    shared.ask(rt, seen, 0o40)?;
    shared.exchange(rt, seen)
}

/// Claims a reservation. Returns the seat if the claim is refused.
fn claim<K: Naming, R: Wait>(
    rt: &R,
    shared: &Shared<K>,
    seat: Seat,
    note: Note,
) -> Result<Reserved, Seat> {
    match shared.claim(rt, seat, note) {
        Err((_, seat)) => Err(seat),
        Ok(reserved) => Ok(reserved),
    }
}

/// Reads the operands. Returns the seat if the read is refused.
fn read<K: Naming, R: Wait>(rt: &R, shared: &Shared<K>, token: Reserved) -> Result<Loaded, Seat> {
    match shared.read(rt, token) {
        Err((_, reserved)) => Err(reserved.abandon()),
        Ok(loaded) => Ok(loaded),
    }
}

/// Finishes a reservation. Returns the seat if the finish is refused.
fn finish<K: Naming, R: Wait>(
    rt: &R,
    shared: &Shared<K>,
    token: Computed,
) -> Result<Finished, Seat> {
    match shared.finish(rt, token) {
        Err((_, computed)) => Err(computed.abandon()),
        Ok(finished) => Ok(finished),
    }
}

/// Stores a result, and returns whether the store was accepted.
fn store<K: Naming, R: Wait>(rt: &R, shared: &Shared<K>, token: Finished) -> (Seat, bool) {
    match shared.store(rt, token) {
        Err((_, finished)) => (finished.abandon(), false),
        Ok(seat) => (seat, true),
    }
}

/// Makes the steps from read to finish. Returns the seat if a step is refused.
fn work<K: Naming, R: Wait>(rt: &R, shared: &Shared<K>, token: Reserved) -> Result<Finished, Seat> {
    let computed = read(rt, shared, token)?.compute();
    finish(rt, shared, computed)
}

/// Makes the steps from read to store. Returns whether all steps were accepted.
fn carry_out<K: Naming, R: Wait>(rt: &R, shared: &Shared<K>, token: Reserved) -> (Seat, bool) {
    match work(rt, shared, token) {
        Err(seat) => (seat, false),
        Ok(finished) => store(rt, shared, finished),
    }
}

/// Makes the steps from claim to store. Returns whether all steps were accepted.
pub(crate) fn serve<K: Naming, R: Wait>(
    rt: &R,
    shared: &Shared<K>,
    seat: Seat,
    note: Note,
) -> (Seat, bool) {
    match claim(rt, shared, seat, note) {
        Err(seat) => (seat, false),
        Ok(reserved) => carry_out(rt, shared, reserved),
    }
}

/// Whether a snapshot shows these words in X1 and X2, and in the log the exchange followed by this many instructions.
fn shows<K: Naming, R: Wait>(
    rt: &R,
    shared: &Shared<K>,
    seen: &mut Seen<K>,
    x1: &str,
    x2: &str,
    issues: u64,
) -> bool {
    let Ok(snapshot) = shared.snapshot(rt, seen) else {
        return false;
    };
    let registers = &snapshot.state().registers;
    registers.get(x(1)) == word(x1)
        && registers.get(x(2)) == word(x2)
        && snapshot.log().entries() == [Entry::Exchange(0o40), Entry::Issued(issues)].as_slice()
}

/// The outcome is the unit and the count of each seat. All seats are given up.
struct AllSeats;

impl Scenario for AllSeats {
    type Outcome = [(Unit, u64); 7];

    fn play<K: Naming, R: Wait>(
        &self,
        _rt: &R,
        _shared: &Shared<K>,
        seats: [Seat; 7],
        _seen: &mut Seen<K>,
    ) -> [(Unit, u64); 7] {
        leave_all(seats)
    }
}

/// A machine under its lock that no thread serves: all seats are given up.
fn unserved<K: Naming>(
    alloc: Global,
    ground: Ground,
    machine: Machine,
) -> Result<Shared<K>, Refusal>
    requires { ground ≡ K.table }
{
    let (shared, seats, _) = Shared::<K>::open(alloc, ground, machine)?;
    leave_all(seats);
    Ok(shared)
}

/// Whether the machine gives out its seats, which are given up.
fn gives_seats(machine: &mut Machine) -> bool {
    match machine.seats() {
        Some(seats) => {
            leave_all(seats);
            true
        }
        None => false,
    }
}

/// A fresh machine is opened with a seat for each unit. A machine whose seats were given out before is refused.
#[test]
fn opening(rt: HostRuntime) -> Result<(), Fail> {
    let fresh = booted(rt.alloc(), &[])?;
    let mut given = booted(rt.alloc(), &[])?;
    let units = [
        (Unit::Branch, 0),
        (Unit::Boolean, 0),
        (Unit::Shift, 0),
        (Unit::LongAdd, 0),
        (Unit::Divide, 0),
        (Unit::Increment1, 0),
        (Unit::Increment2, 0),
    ];
    let opened = play(&rt, rt.alloc(), fresh, &AllSeats);
    let was_given = gives_seats(&mut given);
    let again = play(&rt, rt.alloc(), given, &AllSeats);
    assert!(rt; opened == Ok(units) && was_given && again == Err(Refusal::Nothing));
    Ok(())
}

/// A machine that has issued SX1 B0+5.
fn issuing(alloc: Global) -> Result<Machine, Refusal> {
    let mut machine = booted(alloc, &[(0o100, FIVE)])?;
    for event in [Event::Ask(0o40), Event::Exchange, Event::Issue] {
        let _ = machine.apply(event)?;
    }
    Ok(machine)
}

/// Whether the machine was drained. All seats are given up.
struct IsDrained;

impl Scenario for IsDrained {
    type Outcome = bool;

    fn play<K: Naming, R: Wait>(
        &self,
        rt: &R,
        shared: &Shared<K>,
        seats: [Seat; 7],
        _seen: &mut Seen<K>,
    ) -> bool {
        leave_all(seats);
        shared.drained(rt)
    }
}

/// An instruction that is pending when its machine is put under the lock is still pending.
#[test]
fn opens_with_an_instruction_pending(rt: HostRuntime) -> Result<(), Fail> {
    let machine = issuing(rt.alloc())?;
    let is_drained = play(&rt, rt.alloc(), machine, &IsDrained);
    assert!(rt; is_drained == Ok(false));
    Ok(())
}

/// The seat after a claim, with the refusal; `None` if the claim was accepted.
fn refused_claim<K: Naming, R: Wait>(
    rt: &R,
    shared: &Shared<K>,
    seat: Seat,
    note: Note,
) -> (Seat, Option<Refusal>) {
    match shared.claim(rt, seat, note) {
        Ok(reserved) => (reserved.abandon(), None),
        Err((refusal, seat)) => (seat, Some(refusal)),
    }
}

/// How many claims of these notes with the seat are a stranger's.
fn strange_claims<K: Naming, R: Wait>(
    rt: &R,
    shared: &Shared<K>,
    seat: Seat,
    notes: &[Note],
) -> (Seat, u64) {
    let mut at = seat;
    let mut strange = 0u64;
    for note in notes {
        let (back, refusal) = refused_claim(rt, shared, at, *note);
        at = back;
        if refusal == Some(Refusal::Stranger) {
            strange = strange.saturating_add(1);
        }
    }
    (at, strange)
}

/// A claim is a stranger's with a note that was stored already, with number 0, with the greatest number or with another
/// unit's note. The other unit's seat then serves that note.
#[test]
fn claims_of_strangers(rt: HostRuntime) -> Result<(), Fail> {
    let machine = booted(rt.alloc(), &[(0o100, FIRST), (0o101, SECOND)])?;
    let claimed = play(&rt, rt.alloc(), machine, &ClaimsOfStrangers)?;
    let notes = [issued(Unit::Increment1, 1), issued(Unit::Increment2, 2)];
    let counts = [(Unit::Increment1, 1), (Unit::Increment2, 1)];
    assert_eq!(rt;
        claimed,
        (Ok(()), notes, [3, 2], [true, true], counts, true)
    );
    Ok(())
}

/// The answers of the start and the two issues, and how many claims were a stranger's before and after the first note
/// was stored. Then which notes were stored, the units and counts of the seats, and whether the snapshot shows both
/// results.
type Claimed = (
    Result<(), Refusal>,
    [Issued; 2],
    [u64; 2],
    [bool; 2],
    [(Unit, u64); 2],
    bool,
);

/// Strangers' claims with the seat of Increment1, before and after its own note is stored.
struct ClaimsOfStrangers;

impl Scenario for ClaimsOfStrangers {
    type Outcome = Claimed;

    fn play<K: Naming, R: Wait>(
        &self,
        rt: &R,
        shared: &Shared<K>,
        seats: [Seat; 7],
        seen: &mut Seen<K>,
    ) -> Claimed {
        let (increment1, increment2) = of_increments(seats);
        let started = start(rt, shared, seen);
        let issues = [shared.issue(rt, seen), shared.issue(rt, seen)];
        let own = note(Unit::Increment1, 1);
        let other = note(Unit::Increment2, 2);
        let never = [
            note(Unit::Increment1, 0),
            note(Unit::Increment1, u64::MAX),
            other,
        ];
        let (increment1, never) = strange_claims(rt, shared, increment1, &never);
        let (increment1, is_first_stored) = serve(rt, shared, increment1, own);
        let (increment1, stored) = strange_claims(rt, shared, increment1, &[own, other]);
        let (increment2, is_second_stored) = serve(rt, shared, increment2, other);
        let counts = [leave(increment1), leave(increment2)];
        let shown = shows(rt, shared, seen, "5", "3", 2);
        let are_stored = [is_first_stored, is_second_stored];
        (started, issues, [never, stored], are_stored, counts, shown)
    }
}

/// The token, if its read is refused as a stranger's; otherwise the seat.
fn strange_read<K: Naming, R: Wait>(
    rt: &R,
    shared: &Shared<K>,
    token: Reserved,
) -> Result<Reserved, Seat> {
    match shared.read(rt, token) {
        Err((Refusal::Stranger, reserved)) => Ok(reserved),
        Err((_, reserved)) => Err(reserved.abandon()),
        Ok(loaded) => Err(loaded.abandon()),
    }
}

/// The same for a finish.
fn strange_finish<K: Naming, R: Wait>(
    rt: &R,
    shared: &Shared<K>,
    token: Computed,
) -> Result<Computed, Seat> {
    match shared.finish(rt, token) {
        Err((Refusal::Stranger, computed)) => Ok(computed),
        Err((_, computed)) => Err(computed.abandon()),
        Ok(finished) => Err(finished.abandon()),
    }
}

/// The same for a store.
fn strange_store<K: Naming, R: Wait>(
    rt: &R,
    shared: &Shared<K>,
    token: Finished,
) -> Result<Finished, Seat> {
    match shared.store(rt, token) {
        Err((Refusal::Stranger, finished)) => Ok(finished),
        Err((_, finished)) => Err(finished.abandon()),
        Ok(seat) => Err(seat),
    }
}

/// Takes a reservation from claim to finish on its own machine. Each of its tokens is offered to another machine first,
/// which refuses it as a stranger's. Returns the seat if anything else happens.
fn finish_beside<K: Naming, J: Naming, R: Wait>(
    rt: &R,
    own: &Shared<K>,
    other: &Shared<J>,
    seat: Seat,
    note: Note,
) -> Result<Finished, Seat> {
    let reserved = claim(rt, own, seat, note)?;
    let reserved = strange_read(rt, other, reserved)?;
    let computed = read(rt, own, reserved)?.compute();
    let computed = strange_finish(rt, other, computed)?;
    let finished = finish(rt, own, computed)?;
    strange_store(rt, other, finished)
}

/// The same, followed by the store. Returns whether everything was as expected.
fn serve_beside<K: Naming, J: Naming, R: Wait>(
    rt: &R,
    own: &Shared<K>,
    other: &Shared<J>,
    seat: Seat,
    note: Note,
) -> (Seat, bool) {
    match finish_beside(rt, own, other, seat, note) {
        Err(seat) => (seat, false),
        Ok(finished) => store(rt, own, finished),
    }
}

/// A claim of a number that was never given out is a stranger's, and so are tokens on a machine that has issued
/// nothing. With what comes back, the reservation is taken to its end.
#[test]
fn strangers(rt: HostRuntime) -> Result<(), Fail> {
    let (own, ground) = five(rt.alloc())?;
    let (idle, other_ground) = five(rt.alloc())?;
    let strange = strangers_of::<Brand, _>(&rt, rt.alloc(), ground, own, other_ground, idle)?;
    let first = issued(Unit::Increment1, 1);
    assert!(rt; strange == (Ok(()), first, Some(Refusal::Stranger), true, 1, true));
    Ok(())
}

/// The answers of the start and the issue, the refusal of the claim, whether the reservation was stored, the seat's
/// count, and whether the snapshot shows the result.
type Strange = (
    Result<(), Refusal>,
    Issued,
    Option<Refusal>,
    bool,
    u64,
    bool,
);

/// A machine that begins with `FIVE`, and its progress word.
fn five(alloc: Global) -> Result<(Machine, Ground), Refusal> {
    let machine = booted(alloc, &[(0o100, FIVE)])?;
    let ground = Ground::new(alloc)?;
    Ok((machine, ground))
}

/// The first machine has the progress word that K names. The second one is to issue nothing.
fn strangers_of<K: Naming, R: Wait>(
    rt: &R,
    alloc: Global,
    ground: Ground,
    machine: Machine,
    other_ground: Ground,
    idle: Machine,
) -> Result<Strange, Refusal>
    requires { ground ≡ K.table }
{
    let (own, seats, mut seen) = Shared::<K>::open(alloc, ground, machine)?;
    strangers_beside::<K, Brand, _>(rt, alloc, &own, seats, &mut seen, other_ground, idle)
}

/// The second machine has the progress word that J names.
fn strangers_beside<K: Naming, J: Naming, R: Wait>(
    rt: &R,
    alloc: Global,
    own: &Shared<K>,
    seats: [Seat; 7],
    seen: &mut Seen<K>,
    ground: Ground,
    idle: Machine,
) -> Result<Strange, Refusal>
    requires { ground ≡ J.table }
{
    let (increment1, increment2) = of_increments(seats);
    increment2.leave();
    match unserved::<J>(alloc, ground, idle) {
        Ok(other) => Ok(strange_to(rt, own, &other, increment1, seen)),
        Err(refusal) => {
            increment1.leave();
            Err(refusal)
        }
    }
}

/// The calls on the first machine, with the second one beside it.
fn strange_to<K: Naming, J: Naming, R: Wait>(
    rt: &R,
    own: &Shared<K>,
    other: &Shared<J>,
    increment1: Seat,
    seen: &mut Seen<K>,
) -> Strange {
    let started = start(rt, own, seen);
    let first = own.issue(rt, seen);
    let never = note(Unit::Increment1, 2);
    let (seat, refusal) = refused_claim(rt, own, increment1, never);
    let given = note(Unit::Increment1, 1);
    let (seat, is_stored) = serve_beside(rt, own, other, seat, given);
    let stored = seat.leave();
    let shown = shows(rt, own, seen, "5", "0", 1);
    (started, first, refusal, is_stored, stored, shown)
}

/// `end` tells the machine's users to end; before that they aren't told. A pending instruction stays pending.
#[test]
fn ending(rt: HostRuntime) -> Result<(), Fail> {
    let machine = issuing(rt.alloc())?;
    let ended = play(&rt, rt.alloc(), machine, &ToldToEnd)?;
    assert_eq!(rt; ended, [(false, false), (true, false)]);
    Ok(())
}

/// The outcome is whether the users were told to end and whether the machine is drained, before the call and after it.
struct ToldToEnd;

impl Scenario for ToldToEnd {
    type Outcome = [(bool, bool); 2];

    fn play<K: Naming, R: Wait>(
        &self,
        rt: &R,
        shared: &Shared<K>,
        seats: [Seat; 7],
        _seen: &mut Seen<K>,
    ) -> [(bool, bool); 2] {
        leave_all(seats);
        let before = (shared.ended(rt), shared.drained(rt));
        shared.end(rt);
        [before, (shared.ended(rt), shared.drained(rt))]
    }
}

/// Takes the seat out of a holder and serves a reservation with it. Returns how many reservations were stored with the
/// seat, which is given up, and whether all steps were accepted.
fn serve_from<K: Naming, R: Wait>(
    rt: &R,
    shared: &Shared<K>,
    holder: &mut Option<Seat>,
    note: Note,
) -> (u64, bool) {
    match holder.take() {
        None => (0, false),
        Some(seat) => {
            let (seat, is_served) = serve(rt, shared, seat, note);
            (seat.leave(), is_served)
        }
    }
}

/// Serves a reservation of each Increment unit, each in a thread of its own. Returns how many reservations were stored
/// with each seat; `None` if anything was refused.
fn serve_both<K: Naming + Send + Sync, R: Threads + Wait + Sync>(
    rt: &R,
    shared: &Shared<K>,
    increment1: Seat,
    increment2: Seat,
) -> Option<(u64, u64)> {
    let mut first = Some(increment1);
    let mut second = Some(increment2);
    let (five, three) = join(
        rt,
        || serve_from(rt, shared, &mut first, note(Unit::Increment1, 1)),
        || serve_from(rt, shared, &mut second, note(Unit::Increment2, 2)),
    );
    let was_first = is_empty(first);
    let was_second = is_empty(second);
    if was_first && was_second && five.1 && three.1 {
        Some((five.0, three.0))
    } else {
        None
    }
}

/// Two threads, each with the seat of a unit, each serve a reservation at the same time.
#[test]
fn two_threads(rt: HostRuntime) -> Result<(), Fail> {
    let machine = booted(rt.alloc(), &[(0o100, FIRST), (0o101, SECOND)])?;
    let ground = Ground::new(rt.alloc())?;
    let served = two_threads_of::<Brand, _>(&rt, rt.alloc(), ground, machine)?;
    let notes = [issued(Unit::Increment1, 1), issued(Unit::Increment2, 2)];
    assert_eq!(rt; served, (Ok(()), notes, Some((1, 1)), [false, true], true));
    Ok(())
}

/// The answers of the start and the two issues, and how many reservations were stored with each seat. Then whether the
/// machine is drained before and after, and whether the snapshot shows both results.
type ServedByTwo = (
    Result<(), Refusal>,
    [Issued; 2],
    Option<(u64, u64)>,
    [bool; 2],
    bool,
);

fn two_threads_of<K: Naming + Send + Sync, R: Threads + Wait + Sync>(
    rt: &R,
    alloc: Global,
    ground: Ground,
    machine: Machine,
) -> Result<ServedByTwo, Refusal>
    requires { ground ≡ K.table }
{
    let (shared, seats, mut seen) = Shared::<K>::open(alloc, ground, machine)?;
    Ok(served_by_two(rt, &shared, seats, &mut seen))
}

/// The calls of both threads, and those before and after them.
fn served_by_two<K: Naming + Send + Sync, R: Threads + Wait + Sync>(
    rt: &R,
    shared: &Shared<K>,
    seats: [Seat; 7],
    seen: &mut Seen<K>,
) -> ServedByTwo {
    let (increment1, increment2) = of_increments(seats);
    let started = start(rt, shared, seen);
    let issues = [shared.issue(rt, seen), shared.issue(rt, seen)];
    let was_drained = shared.drained(rt);
    let stored = serve_both(rt, shared, increment1, increment2);
    let drained = [was_drained, shared.drained(rt)];
    let shown = shows(rt, shared, seen, "5", "3", 2);
    (started, issues, stored, drained, shown)
}

/// Whether the log of a snapshot is the exchange followed by this many instructions.
fn has_log(snapshot: &Snapshot, issues: u64) -> bool {
    snapshot.log().entries() == [Entry::Exchange(0o40), Entry::Issued(issues)].as_slice()
}

/// After the meeting the second holder has seen everything that the first had seen.
fn share<K: Naming>(shared: &Shared<K>, first: &mut Seen<K>, second: &mut Seen<K>)
    ensures { StartsWith second.new.log first.old.log }
{
    shared.meet(first, second);
}

/// Takes a snapshot for the second holder after the two have met. It has everything that the first holder had seen.
/// Without the meeting this clause has no proof; at run time a meeting changes nothing.
fn met<K: Naming, R: Wait>(
    rt: &R,
    shared: &Shared<K>,
    first: &mut Seen<K>,
    second: &mut Seen<K>,
) -> Result<Snapshot, Refusal>
    ensures { IfOk result (λ snapshot. StartsWith snapshot.log first.old.log) }
{
    share(shared, first, second);
    shared.snapshot(rt, second)
}

/// The issuing thread, after the first exchange and four issues, meets a second holder that knows the exchange alone.
/// The second holder's next snapshot has the four issues, and an issue of its own is the next step.
#[test]
fn meeting(rt: HostRuntime) -> Result<(), Fail> {
    let machine = booted(rt.alloc(), &[(0o100, PASSES), (0o101, FIVE)])?;
    let met = play(&rt, rt.alloc(), machine, &MetAfterFour)?;
    let passes = [Ok(None), Ok(None), Ok(None), Ok(None)];
    let fifth = issued(Unit::Increment1, 1);
    assert_eq!(rt;
        met,
        Ok((Ok(()), passes, true, fifth, Some(Refusal::NotDrained)))
    );
    Ok(())
}

/// The answers of the start and of four issues, whether the second holder's snapshot has them, the answer of its own
/// issue, and why there is no snapshot after that.
type Met = (
    Result<(), Refusal>,
    [Issued; 4],
    bool,
    Issued,
    Option<Refusal>,
);

/// A second holder meets the issuing thread, which has issued four times.
struct MetAfterFour;

impl Scenario for MetAfterFour {
    type Outcome = Result<Met, Refusal>;

    fn play<K: Naming, R: Wait>(
        &self,
        rt: &R,
        shared: &Shared<K>,
        seats: [Seat; 7],
        seen: &mut Seen<K>,
    ) -> Result<Met, Refusal> {
        leave_all(seats);
        let started = start(rt, shared, seen);
        let mut other = seen.split()?;
        Ok(met_after(rt, shared, started, seen, &mut other))
    }
}

/// The issues, the meetings and the snapshots after the start.
fn met_after<K: Naming, R: Wait>(
    rt: &R,
    shared: &Shared<K>,
    started: Result<(), Refusal>,
    seen: &mut Seen<K>,
    other: &mut Seen<K>,
) -> Met {
    let issues = [
        shared.issue(rt, seen),
        shared.issue(rt, seen),
        shared.issue(rt, seen),
        shared.issue(rt, seen),
    ];
    let is_known = knows_four(rt, shared, seen, other);
    let fifth = shared.issue(rt, other);
    shared.meet(other, seen);
    let pending = shared.snapshot(rt, seen).err();
    (started, issues, is_known, fifth, pending)
}

/// Whether the second holder's snapshot has four issues after the two have met.
fn knows_four<K: Naming, R: Wait>(
    rt: &R,
    shared: &Shared<K>,
    seen: &mut Seen<K>,
    other: &mut Seen<K>,
) -> bool {
    match met(rt, shared, seen, other) {
        Ok(snapshot) => has_log(&snapshot, 4),
        Err(_) => false,
    }
}

/// An exchange with a request for the next one: when none was asked for, which asks for none either; with a package in
/// memory next; with one that isn't in memory next; and when none was asked for again. Two exchanges are made.
#[test]
fn exchanges_in_a_row(rt: HostRuntime) -> Result<(), Fail> {
    let machine = booted(rt.alloc(), &[])?;
    let exchanges = play(&rt, rt.alloc(), machine, &ExchangesInARow)?;
    let wanted = [
        Err(Refusal::Nothing),
        Ok(Ok(())),
        Ok(Err(Refusal::PackageRange)),
        Err(Refusal::Nothing),
    ];
    assert!(rt; exchanges == (Ok(()), wanted, true));
    Ok(())
}

/// The answer to an exchange and, if it was made, to the request after it.
type Followed = Result<Result<(), Refusal>, Refusal>;

/// Makes the exchange, and asks for the next one.
fn followed<K: Naming, R: Wait>(
    rt: &R,
    shared: &Shared<K>,
    seen: &mut Seen<K>,
    next: Option<u32>,
) -> Followed {
    shared.exchange_and_ask(rt, seen, next)
}

/// The outcome is the answer of the request after the first exchange, the answers of the exchanges, and whether the log
/// has the two that were made.
struct ExchangesInARow;

impl Scenario for ExchangesInARow {
    type Outcome = (Result<(), Refusal>, [Followed; 4], bool);

    fn play<K: Naming, R: Wait>(
        &self,
        rt: &R,
        shared: &Shared<K>,
        seats: [Seat; 7],
        seen: &mut Seen<K>,
    ) -> (Result<(), Refusal>, [Followed; 4], bool) {
        leave_all(seats);
        let none = followed(rt, shared, seen, Some(0o60));
        let asked = shared.ask(rt, seen, 0o40);
        let answers = [
            none,
            followed(rt, shared, seen, Some(0o60)),
            followed(rt, shared, seen, Some(0o1000)),
            followed(rt, shared, seen, None),
        ];
        (asked, answers, has_two_exchanges(rt, shared, seen))
    }
}

/// Whether a snapshot has both exchanges in its log, and nothing else.
fn has_two_exchanges<K: Naming, R: Wait>(rt: &R, shared: &Shared<K>, seen: &mut Seen<K>) -> bool {
    let made = [Entry::Exchange(0o40), Entry::Exchange(0o60)];
    match shared.snapshot(rt, seen) {
        Ok(snapshot) => snapshot.log().entries() == made.as_slice(),
        Err(_) => false,
    }
}

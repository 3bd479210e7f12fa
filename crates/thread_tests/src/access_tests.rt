//! Two peripheral processors, each in a thread of its own, write and read one word while two units are at work.

ghost use Rattle.std.specs.Prelude.{◌≡◌, IfOk};
ghost use Rattle.machine_lock.specs.CallerKnowledge.{IsWordOf};

use crate::thread_tests::{BOTH, Hold, NOTES, REGISTERS, Started, of_boolean_and_shift, start};
use instructions::{Refusal, Unit};
use lock_tests::fixtures::{Wanted, are, booted_over, is_empty, leave_all, note, word, x};
use machine::{Machine, Seat};
use machine_lock::{Ground, Naming, Seen, Shared};
use program_order::{Note, Snapshot};
use std::alloc::Global;
use std::marker::Brand;
use std::sync::Wait;
use std::test::Fail;
use std::thread::{Threads, join};
use word60::Word60;
use worker_loops::{Gate, serve};

/// The address of the word.
const AT: u32 = 0o210;

/// The answer to a peripheral processor's read; `None` before it has read.
type WordRead = Option<Result<Word60, Refusal>>;

/// The work of a peripheral processor: it writes its word, and then reads the word at that address. The word that it
/// reads is that of the replay of the steps that it has seen.
fn write_and_read<K: Naming, R: Wait>(
    rt: &R,
    shared: &Shared<K>,
    seen: &mut Seen<K>,
    at: u32,
    word: Word60,
) -> Result<Word60, Refusal>
    ensures { IfOk result (λ read. IsWordOf seen.new at read) }
{
    if let Err(refusal) = shared.pp_write(rt, seen, at, word) {
        return Err(refusal);
    }
    shared.pp_read(rt, seen, at)
}

/// A gate at which a peripheral processor does its work, before the unit computes. After that the reservation may be
/// held.
#[derive(Drop)]
struct Accessing<'r, 's, 'h, K: Naming, R: Wait> {
    rt: &'r R,
    shared: &'s Shared<K>,
    hold: &'h Hold,
    seen: Seen<K>,
    word: Word60,
    read: WordRead,
}

impl<K: Naming, R: Wait> Gate for Accessing<'_, '_, '_, K, R> {
    fn before(&mut self, unit: Unit, number: u64) {
        self.read = Some(write_and_read(self.rt, self.shared, &mut self.seen, AT, self.word));
        self.hold.before(unit, number);
    }

    fn stored(&mut self, unit: Unit, number: u64) {
        self.hold.stored(unit, number);
    }
}

/// The work of one thread: it serves a reservation with the seat of a holder, and writes and reads the word at its
/// gate. Returns what it has seen, what it read, and whether the reservation was stored.
fn serve_and_access<K: Naming, R: Wait>(
    rt: &R,
    shared: &Shared<K>,
    hold: &Hold,
    holder: &mut Option<Seat>,
    note: Note,
    seen: Seen<K>,
    word: Word60,
) -> (Seen<K>, WordRead, bool) {
    let mut gate = Accessing {
        rt,
        shared,
        hold,
        seen,
        word,
        read: None,
    };
    let Some(seat) = holder.take() else {
        return (gate.seen, None, false);
    };
    let (seat, is_stored) = serve(rt, shared, note, seat, &mut gate);
    seat.leave();
    (gate.seen, gate.read, is_stored)
}

/// The first thread's word, and the second's.
const ONE: Wanted = Wanted::PpWrite(AT, 1);

const TWO: Wanted = Wanted::PpWrite(AT, 2);

const READ: Wanted = Wanted::PpRead(AT);

/// The exchange with the package at 40, and the instructions issued before and after the accesses.
const START: Wanted = Wanted::Exchange(0o40);

const TWO_ISSUES: Wanted = Wanted::Issued(2);

/// The possible logs, each with the words that the first and the second thread read.
const LOGS: [([Wanted; 7], [u64; 2]); 4] = [
    (
        [START, TWO_ISSUES, ONE, READ, TWO, READ, TWO_ISSUES],
        [1, 2],
    ),
    (
        [START, TWO_ISSUES, TWO, READ, ONE, READ, TWO_ISSUES],
        [1, 2],
    ),
    (
        [START, TWO_ISSUES, ONE, TWO, READ, READ, TWO_ISSUES],
        [2, 2],
    ),
    (
        [START, TWO_ISSUES, TWO, ONE, READ, READ, TWO_ISSUES],
        [1, 1],
    ),
];

/// The number that was read, if any was.
fn number_of(read: WordRead) -> Option<u64> {
    match read {
        Some(Ok(word)) => Some(word.get()),
        _ => None,
    }
}

/// Whether the log is one of `LOGS`, and these are the words that the threads read in it.
fn is_as_logged(snapshot: &Snapshot, first: WordRead, second: WordRead) -> bool {
    for (log, words) in &LOGS {
        if are(snapshot.log().entries(), log.as_slice()) {
            return number_of(first) == Some(words[0]) && number_of(second) == Some(words[1]);
        }
    }
    false
}

/// Whether a snapshot has the values of both units in X1 and X3, and its log agrees with the words that were read.
fn shows<K: Naming, R: Wait>(
    rt: &R,
    shared: &Shared<K>,
    seen: &mut Seen<K>,
    first: WordRead,
    second: WordRead,
) -> bool {
    let Ok(snapshot) = shared.snapshot(rt, seen) else {
        return false;
    };
    let registers = &snapshot.state().registers;
    registers.get(x(1)) == word("6")
        && registers.get(x(3)) == word("10")
        && is_as_logged(&snapshot, first, second)
}

/// The answer of the start; whether both reservations were stored, Boolean's after Shift's; the answers of two further
/// issues; and whether the snapshot then has the values, and the log agrees with the words read.
type Accessed = (Started, bool, [Result<Option<Note>, Refusal>; 2], bool);

/// Boolean's reservation 1 isn't computed until Shift's reservation 2 is stored. A thread of its own serves each of
/// them, and writes and reads the word before it computes.
fn accesses_beside<K: Naming + Send + Sync, R: Threads + Wait + Sync>(
    rt: &R,
    alloc: Global,
    ground: Ground,
    machine: Machine,
) -> Result<Accessed, Refusal>
    requires { ground ≡ K.table }
{
    let (shared, seats, mut seen) = Shared::<K>::open(alloc, ground, machine)?;
    match seen.split() {
        Ok(other) => Ok(accesses(rt, &shared, seats, seen, other)),
        Err(refusal) => {
            leave_all(seats);
            Err(refusal)
        }
    }
}

/// The calls of both threads, and those before and after them.
fn accesses<K: Naming + Send + Sync, R: Threads + Wait + Sync>(
    rt: &R,
    shared: &Shared<K>,
    seats: [Seat; 7],
    mut seen: Seen<K>,
    other: Seen<K>,
) -> Accessed {
    let started = start(rt, shared, &mut seen);
    let (boolean, shift) = of_boolean_and_shift(seats);
    let mut of_boolean = Some(boolean);
    let mut of_shift = Some(shift);
    let held = note(Unit::Boolean, 1);
    let until = note(Unit::Shift, 2);
    let hold = Hold::new(held, until);
    let one = Word60::from_bits(1);
    let two = Word60::from_bits(2);
    let ((mut seen, first, is_first), (other, second, is_second)) = join(
        rt,
        || serve_and_access(rt, shared, &hold, &mut of_boolean, held, seen, one),
        || serve_and_access(rt, shared, &hold, &mut of_shift, until, other, two),
    );
    drop(other);
    let was_taken = is_empty(of_boolean);
    let are_stored = is_empty(of_shift) && was_taken && is_first && is_second;
    let issues = [shared.issue(rt, &mut seen), shared.issue(rt, &mut seen)];
    let is_shown = shows(rt, shared, &mut seen, first, second);
    (started, are_stored && hold.is_released(), issues, is_shown)
}

#[test]
fn two_peripheral_processors(rt: HostRuntime) -> Result<(), Fail> {
    let machine = booted_over(rt.alloc(), &REGISTERS, &BOTH)?;
    let ground = Ground::new(rt.alloc())?;
    let accessed = accesses_beside::<Brand, _>(&rt, rt.alloc(), ground, machine)?;
    assert_eq!(rt; accessed, (NOTES, true, [Ok(None), Ok(None)], true));
    Ok(())
}

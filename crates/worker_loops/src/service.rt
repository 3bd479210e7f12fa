//! The service of one reservation by its unit, from its note to its store.
ghost use Rattle.std.specs.Prelude.{◌≡◌, suc, IfOk, IfErr, MatchBool, MatchResult};
ghost use Rattle.machine.specs.Tokens.{one_more};

use crate::gate::Gate;
use instructions::{Refusal, Unit};
use machine::{Computed, Loaded, Seat};
use machine_lock::{Naming, Shared};
use program_order::Note;
use signals::Waiting;
use std::sync::Wait;

/// Claims a reservation and reads its operands in one hold of the lock. While an operand is awaited, the thread waits
/// for a change by another thread and tries again.
///
/// # Errors
/// The seat, unchanged, if the claim or the read is refused as a stranger's.
fn load<K: Naming, R: Wait>(
    rt: &R,
    shared: &Shared<K>,
    seat: Seat,
    note: Note,
    wait: &mut Waiting<'_>,
) -> Result<Loaded, Seat>
    ensures loaded { IfOk result (λ loaded. (loaded.seat ≡ seat) × (loaded.number ≡ note.number)) }
    ensures given_back { IfErr result (λ back. back ≡ seat) }
{
    let signal = shared.signals().worker(note.unit);
    let mut machine = shared.lock(rt);
    let mut token = match machine.claim(seat, note) {
        Ok(token) => token,
        Err((_, seat)) => return Err(seat),
    };
    for _ in rt.forever() {
        let count = signal.count();
        match machine.read(token) {
            Ok(loaded) => {
                shared.release(machine);
                signal.await_nothing();
                return Ok(loaded);
            }
            Err((Refusal::Stranger, back)) => return Err(back.abandon()),
            Err((_, back)) => token = back,
        }
        signal.await_change(true);
        shared.release(machine);
        wait.until_raised(rt, signal, count);
        machine = shared.lock(rt);
    }
    unreachable!()
}

/// Gives the machine a computed value and stores the result, in one hold of the lock. If the store makes a reference,
/// the release of the lock wakes the storage worker. If the result is held, the reference isn't in turn or the hopper
/// is full, the thread waits for another thread's event and tries again.
///
/// # Errors
/// The seat, unchanged, if the value or the store is refused as a stranger's.
fn store<K: Naming, R: Wait>(
    rt: &R,
    shared: &Shared<K>,
    unit: Unit,
    computed: Computed,
    wait: &mut Waiting<'_>,
) -> Result<Seat, Seat>
    ensures { MatchResult result
        (λ seat. seat ≡ one_more (record { seat = computed.seat; number = computed.number }))
        (λ back. back ≡ computed.seat) }
{
    let signal = shared.signals().worker(unit);
    let has_reference = computed.has_reference();
    let mut machine = shared.lock(rt);
    let mut token = match machine.finish(computed) {
        Ok(token) => token,
        Err((_, computed)) => return Err(computed.abandon()),
    };
    for _ in rt.forever() {
        let count = signal.count();
        match machine.store(token) {
            Ok(seat) => {
                if has_reference {
                    machine.leave_to_memory();
                }
                shared.release(machine);
                signal.await_nothing();
                return Ok(seat);
            }
            Err((Refusal::Stranger, back)) => return Err(back.abandon()),
            Err((_, back)) => token = back,
        }
        signal.await_change(true);
        signal.await_read(true);
        shared.release(machine);
        wait.until_raised(rt, signal, count);
        machine = shared.lock(rt);
    }
    unreachable!()
}

/// Serves a reservation as `serve` does, for a thread that has other waits too.
pub(crate) fn serve_with<K: Naming, G: Gate, R: Wait>(
    rt: &R,
    shared: &Shared<K>,
    note: Note,
    seat: Seat,
    gate: &mut G,
    wait: &mut Waiting<'_>,
) -> (Seat, bool)
    ensures { MatchBool result.1 (result.0 ≡ record seat { stored = suc seat.stored; last = note.number })
        (result.0 ≡ seat) }
{
    let loaded = match load(rt, shared, seat, note, wait) {
        Ok(loaded) => loaded,
        Err(seat) => return (seat, false),
    };
    gate.before(note.unit, note.number);
    match store(rt, shared, note.unit, loaded.compute(), wait) {
        Ok(seat) => {
            gate.stored(note.unit, note.number);
            (seat, true)
        }
        Err(seat) => (seat, false),
    }
}

/// Takes a reservation through its unit, from claim to store, and returns the seat. Its reference to memory, if it makes
/// one, is left to `storage_worker`. The `bool` says whether the result was stored. It is `false` only if the claim or a
/// later step was refused as a stranger's, and the reservation is then given up. The gate is called before the
/// computation, which takes no lock, and after the store.
pub fn serve<K: Naming, G: Gate, R: Wait>(
    rt: &R,
    shared: &Shared<K>,
    note: Note,
    seat: Seat,
    gate: &mut G,
) -> (Seat, bool)
    ensures { MatchBool result.1 (result.0 ≡ record seat { stored = suc seat.stored; last = note.number })
        (result.0 ≡ seat) }
{
    let mut wait = shared.signals().waiting();
    serve_with(rt, shared, note, seat, gate, &mut wait)
}

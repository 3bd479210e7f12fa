//! The worker of a unit.
ghost use Rattle.std.specs.Prelude.{◌≡◌, ◌+◌};
ghost use Rattle.worker_loops.specs.Tallies.{Served};

use crate::gate::Gate;
use crate::service::serve_with;
use crate::tally::Tally;
use machine::Seat;
use machine_lock::{Naming, Shared};
use std::snapshot::Snapshot as GhostCopy;
use std::sync::Wait;
use unit_queue::{Item, Lane, TakePass};

/// Adds one to a number. At the largest number, which no worker reaches, it never returns.
fn one_more<R: Wait>(rt: &R, number: u64) -> u64
    ensures { result ≡ number + 1 }
{
    if let Some(more) = number.checked_add(1) {
        return more;
    }
    for _ in rt.forever() {}
    unreachable!()
}

/// Serves the notes of a lane until it is closed, and gives up the seat. Each note is either stored or strange; a
/// stranger's reservation is given up. The seat's count grows by the number of notes that were stored. The pass has to
/// be this lane's.
pub fn worker<K: Naming, G: Gate, R: Wait>(
    rt: &R,
    shared: &Shared<K>,
    lane: &Lane,
    pass: TakePass,
    seat: Seat,
    gate: &mut G,
) -> Tally
    requires { pass.id ≡ lane.now.id }
    ensures unit { result.unit ≡ seat.unit }
    ensures lane { result.pass.id ≡ lane.now.id }
    ensures notes { Served pass.got result.pass.got result.stored result.strange }
    ensures counted { result.left.value.stored ≡ seat.stored + result.stored }
{
    let unit = seat.unit();
    let signal = shared.signals().worker(unit);
    let mut wait = shared.signals().waiting();
    let (mut at, mut from, mut stored, mut strange) = (seat, pass, 0, 0);
    for _ in rt.forever() {
        let count = signal.count();
        match lane.take(rt, &mut from) {
            Some(Item::Work(note)) => {
                let (back, is_stored) = serve_with(rt, shared, note, at, gate, &mut wait);
                at = back;
                if is_stored {
                    stored = one_more(rt, stored);
                } else {
                    strange = one_more(rt, strange);
                }
            }
            Some(Item::Closed) => {
                let left = GhostCopy::of(&at);
                let _ = at.leave();
                return Tally {
                    unit,
                    stored,
                    strange,
                    pass: from,
                    left,
                };
            }
            None => wait.until_raised(rt, signal, count),
        }
    }
    unreachable!()
}

//! The storage worker. It does the work of the 6600's stunt box and storage (Thornton, stunt box): it accepts
//! references, frees banks and returns loads.

use hopper::PLACES;
use instructions::{FIRST_CHANNEL, PAST_CHANNELS, Refusal};
use machine_lock::{LockedMachine, Naming, Shared};
use std::sync::Wait;

/// The outcome of a sweep through the places of the hopper and the load channels.
#[derive(Clone, Copy, Drop)]
struct Swept {
    /// Whether a reference was accepted or a load returned.
    has_worked: bool,
    /// Whether a reference was refused because an older one to its address was still in a later place.
    has_older: bool,
    /// Whether a load waits until a unit has read the old value of its register.
    has_held: bool,
}

impl Swept {
    /// A sweep that has found nothing yet.
    fn new() -> Swept {
        Swept {
            has_worked: false,
            has_older: false,
            has_held: false,
        }
    }

    /// Records the answer for one place or one channel.
    fn note(&mut self, answer: Result<(), Refusal>) {
        match answer {
            Ok(()) => self.has_worked = true,
            Err(Refusal::OlderAtAddress) => self.has_older = true,
            Err(Refusal::ResultHeld(_)) => self.has_held = true,
            Err(_) => {}
        }
    }
}

/// Accepts the references in the hopper that may be accepted. If the bank of a reference is busy, the bank is freed
/// first.
fn accept_all<K: Naming>(machine: &mut LockedMachine<K>, swept: &mut Swept) {
    for place in 0..PLACES as u8 {
        let mut answer = machine.accept(place);
        if let Err(Refusal::BankBusy(bank)) = answer {
            let _ = machine.bank_free(bank);
            answer = machine.accept(place);
        }
        swept.note(answer);
    }
}

/// Returns the loads that may be returned.
fn return_all<K: Naming>(machine: &mut LockedMachine<K>, swept: &mut Swept) {
    for channel in FIRST_CHANNEL..PAST_CHANNELS {
        swept.note(machine.return_load(channel));
    }
}

/// Takes references as far through memory as possible, in one hold of the lock.
fn sweep<K: Naming, R: Wait>(rt: &R, shared: &Shared<K>) -> Swept {
    let mut machine = shared.lock(rt);
    let mut swept = Swept::new();
    accept_all(&mut machine, &mut swept);
    return_all(&mut machine, &mut swept);
    shared.signals().memory.await_read(swept.has_held);
    shared.release(machine);
    swept
}

/// Accepts references, frees the banks that they wait for, and returns loads, until the machine's users have been told
/// to end and the machine is drained. After a sweep it waits, unless another sweep may accept more.
pub fn storage_worker<K: Naming, R: Wait>(rt: &R, shared: &Shared<K>) {
    let signal = &shared.signals().memory;
    let mut wait = shared.signals().waiting();
    for _ in rt.forever() {
        let count = signal.count();
        let swept = sweep(rt, shared);
        if swept.has_worked && swept.has_older {
            continue;
        }
        if !swept.has_worked && shared.ended(rt) && shared.drained(rt) {
            return;
        }
        wait.until_raised(rt, signal, count);
    }
    unreachable!()
}

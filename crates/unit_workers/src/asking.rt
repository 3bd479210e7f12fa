//! The thread that makes the requests for exchanges that may be made at any time.

use instructions::Refusal;
use machine_lock::{Naming, Seen, Shared};
use signals::Waiting;
use std::sync::Wait;
use std::sync::atomic::{AtomicU64, Ordering};

/// Requests that may be made at any time, and how many of them are still to be made.
#[derive(Drop)]
pub struct FreeRequests<'a> {
    /// The absolute addresses of the packages, in the order in which they are asked for.
    packages: &'a [u32],
    /// How many requests are still to be made. A run waits until this is 0. Nothing is proved about it.
    left: AtomicU64,
}

impl<'a> FreeRequests<'a> {
    /// Requests for these packages, none of them made yet.
    pub fn new(packages: &'a [u32]) -> FreeRequests<'a> {
        FreeRequests {
            packages,
            left: AtomicU64::new(packages.len() as u64),
        }
    }

    /// Whether any requests are still to be made.
    pub fn are_left(&self) -> bool {
        self.left.load(Ordering::SeqCst) != 0
    }
}

/// Asks for an exchange as soon as no other request waits. Returns `true` if it asked, and `false` if the machine's
/// users were told to end first.
///
/// # Errors
/// Any refusal other than that another request waits.
fn ask_in_turn<K: Naming, R: Wait>(
    rt: &R,
    shared: &Shared<K>,
    seen: &mut Seen<K>,
    at: u32,
    wait: &mut Waiting<'_>,
) -> Result<bool, Refusal> {
    let exchanges = &shared.signals().requests;
    for _ in rt.forever() {
        let count = exchanges.count();
        match shared.ask(rt, seen, at) {
            Err(Refusal::ExchangeBusy) => {}
            asked => return asked.map(|()| true),
        }
        if shared.ended(rt) {
            return Ok(false);
        }
        wait.until_raised(rt, exchanges, count);
    }
    unreachable!()
}

/// Makes the requests one after another, until the machine's users are told to end.
///
/// # Errors
/// Any refusal that the events of other threads can't resolve.
fn ask_each<K: Naming, R: Wait>(
    rt: &R,
    shared: &Shared<K>,
    seen: &mut Seen<K>,
    free: &FreeRequests<'_>,
) -> Result<(), Refusal> {
    let mut wait = shared.signals().waiting();
    for at in free.packages {
        if !ask_in_turn(rt, shared, seen, *at, &mut wait)? {
            break;
        }
        free.left.fetch_sub(1, Ordering::SeqCst);
    }
    Ok(())
}

/// Waits until the machine's users are told to end.
fn wait_for_end<K: Naming, R: Wait>(rt: &R, shared: &Shared<K>) {
    let exchanges = &shared.signals().requests;
    let mut wait = shared.signals().waiting();
    for _ in rt.forever() {
        let count = exchanges.count();
        if shared.ended(rt) {
            return;
        }
        wait.until_raised(rt, exchanges, count);
    }
    unreachable!()
}

/// Makes the requests one after another, after which none counts as left, even if some were not made. Then waits for
/// the end of the run, and returns what the thread has seen.
///
/// # Errors
/// Any refusal that the events of other threads can't resolve.
pub fn ask_all<K: Naming, R: Wait>(
    rt: &R,
    shared: &Shared<K>,
    mut seen: Seen<K>,
    free: &FreeRequests<'_>,
) -> Result<Seen<K>, Refusal> {
    let asked = ask_each(rt, shared, &mut seen, free);
    free.left.store(0, Ordering::SeqCst);
    shared.signals().issuing.raise();
    wait_for_end(rt, shared);
    asked.and(Ok(seen))
}

//! A count that wakes its thread.

use crate::wakeups::Wakeups;
use crossbeam_utils::CachePadded;
use std::sync::Wait;
use std::sync::atomic::{AtomicBool, AtomicU64, Ordering};
use std::time::Duration;

/// The part of a signal that the other threads write.
#[derive(Drop)]
struct Raises {
    count: AtomicU64,
    /// How many threads sleep until the count is raised.
    sleepers: AtomicU64,
}

/// The changes that the signal's thread waits for. Only that thread writes them.
#[derive(Drop)]
struct Awaited {
    change: AtomicBool,
    read: AtomicBool,
}

/// A count that other threads raise after a change that its thread waits for. Many threads look at both parts, so each
/// part has a cache line of its own.
#[derive(Drop)]
pub struct Signal {
    raises: CachePadded<Raises>,
    awaited: CachePadded<Awaited>,
}

/// Sets a flag that only this thread sets. A flag that has the value already isn't written, so that the other threads
/// keep their copies of its cache line.
fn set(flag: &AtomicBool, value: bool) {
    if flag.load(Ordering::SeqCst) != value {
        flag.store(value, Ordering::SeqCst);
    }
}

impl Signal {
    pub(crate) fn new() -> Signal {
        Signal {
            raises: CachePadded::new(Raises {
                count: AtomicU64::new(0),
                sleepers: AtomicU64::new(0),
            }),
            awaited: CachePadded::new(Awaited {
                change: AtomicBool::new(false),
                read: AtomicBool::new(false),
            }),
        }
    }

    /// How often the signal was raised.
    pub fn count(&self) -> u64 {
        self.raises.count.load(Ordering::SeqCst)
    }

    /// Raises the count by one and wakes the threads that sleep on it.
    pub fn raise(&self) {
        self.raises.count.fetch_add(1, Ordering::SeqCst);
        if self.raises.sleepers.load(Ordering::SeqCst) != 0 {
            self.raises.count.wake_all();
        }
    }

    /// Registers whether its thread waits for a change: a store, an acceptance or a return. A thread whose event is
    /// refused registers before it releases the lock, so that no later change is missed.
    pub fn await_change(&self, waits: bool) {
        set(&self.awaited.change, waits);
    }

    /// Registers whether its thread waits until a unit reads its operands.
    pub fn await_read(&self, waits: bool) {
        set(&self.awaited.read, waits);
    }

    /// Registers that its thread waits for nothing.
    pub fn await_nothing(&self) {
        self.await_change(false);
        self.await_read(false);
    }

    /// Raises the count if its thread waits for one of these changes.
    pub fn wake(&self, wakeups: &Wakeups) {
        if wakeups.changed && self.awaited.change.load(Ordering::SeqCst)
            || wakeups.read && self.awaited.read.load(Ordering::SeqCst)
        {
            self.raise();
        }
    }

    /// Sleeps while the count is `seen`, for a millisecond at most.
    pub fn sleep<R: Wait>(&self, rt: &R, seen: u64) {
        // A thread that raises the count after this line finds the sleeper and wakes it. A thread that raised it before
        // has changed the count, so this thread doesn't fall asleep.
        self.raises.sleepers.fetch_add(1, Ordering::SeqCst);
        let low = seen % (1 << 32);
        self.raises
            .count
            .park_timeout(rt, low as u32, Duration::from_millis(1));
        self.raises.sleepers.fetch_sub(1, Ordering::SeqCst);
    }
}

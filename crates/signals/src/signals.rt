//! A signal for each thread of a run.

use crate::signal::Signal;
use crate::waiting::Waiting;
use crate::wakeups::Wakeups;
use crossbeam_utils::CachePadded;
use instructions::{PerUnit, Unit};
use std::sync::atomic::{AtomicU32, Ordering};

/// The looks of a wait if the number of processors isn't known.
const FEW_LOOKS: u32 = 8;

/// The signals of the threads that drive a machine.
#[derive(Drop)]
pub struct Signals {
    /// For the issuing thread: the cause of the last refusal may be gone, or an exchange was asked for.
    pub issuing: Signal,
    /// For the asking thread, which makes the free requests: an exchange was made.
    pub requests: Signal,
    /// For the storage worker: a reference was made, or the operands were read that hold up a load's return.
    pub memory: Signal,
    workers: PerUnit<Signal>,
    /// How often a waiting thread looks before it sleeps. Every thread reads it, and `Pace` writes it.
    looks: CachePadded<AtomicU32>,
}

impl Signals {
    /// Signals that nobody has raised yet.
    pub fn new() -> Signals {
        Signals {
            issuing: Signal::new(),
            requests: Signal::new(),
            memory: Signal::new(),
            workers: PerUnit::units().map(|_| Signal::new()),
            looks: CachePadded::new(AtomicU32::new(FEW_LOOKS)),
        }
    }

    /// How often a waiting thread looks before it sleeps.
    pub(crate) fn looks(&self) -> u32 {
        self.looks.load(Ordering::SeqCst)
    }

    /// Sets how often a waiting thread looks before it sleeps.
    pub(crate) fn set_looks(&self, looks: u32) {
        self.looks.store(looks, Ordering::SeqCst);
    }

    /// The waits of a thread of the run.
    pub fn waiting(&self) -> Waiting<'_> {
        Waiting::new(self)
    }

    /// For the worker of this unit: a note was sent to it, or the cause of the last refusal may be gone. Units that are
    /// never reserved share the signal of Branch.
    pub fn worker(&self, unit: Unit) -> &Signal {
        self.workers.get(unit).unwrap_or(&self.workers.branch)
    }

    /// Wakes the threads that wait for these events.
    pub fn wake(&self, wakeups: &Wakeups) {
        if wakeups.changed || wakeups.read {
            for signal in self.workers.as_array() {
                signal.wake(wakeups);
            }
            self.issuing.wake(wakeups);
            self.memory.wake(wakeups);
        }
        if wakeups.referred {
            self.memory.raise();
        }
        if wakeups.asked {
            self.issuing.raise();
        }
        if wakeups.exchanged {
            self.requests.raise();
        }
    }

    /// Wakes all threads.
    pub fn raise_all(&self) {
        for signal in self.workers.as_array() {
            signal.raise();
        }
        self.issuing.raise();
        self.requests.raise();
        self.memory.raise();
    }
}

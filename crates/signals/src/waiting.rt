//! The waits of one thread.

use crate::signal::Signal;
use crate::signals::Signals;
use crossbeam_utils::Backoff;
use std::sync::Wait;

/// The waits of one thread. A waiting thread holds no lock.
#[derive(Drop)]
pub struct Waiting<'a> {
    signals: &'a Signals,
    /// Never reset: after the first seven pauses, each pause yields the processor.
    backoff: Backoff,
    /// The looks since the thread's signal was last raised.
    looks: u32,
}

impl<'a> Waiting<'a> {
    /// The waits of a thread that hasn't waited yet.
    pub(crate) fn new(signals: &'a Signals) -> Waiting<'a> {
        Waiting {
            signals,
            backoff: Backoff::new(),
            looks: 0,
        }
    }

    /// Looks and pauses until the count of a signal is no longer `count`, or until the looks are used up.
    fn look(&mut self, signal: &Signal, count: u64) {
        for look in self.looks..self.signals.looks() {
            if signal.count() != count {
                return;
            }
            self.backoff.snooze();
            self.looks = look + 1;
        }
    }

    /// Waits until the count of a signal is no longer `count`. It may return earlier.
    pub fn until_raised<R: Wait>(&mut self, rt: &R, signal: &Signal, count: u64) {
        self.look(signal, count);
        if signal.count() == count {
            signal.sleep(rt, count);
        }
        if signal.count() != count {
            self.looks = 0;
        }
    }
}

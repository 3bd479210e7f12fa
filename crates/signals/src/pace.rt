//! How often the threads of a run look before they sleep.

use crate::signals::Signals;
use std::mem;
use std::num::NonZeroUsize;
use std::time::{Clock, Duration};

/// The looks of a wait on one processor. On N processors a wait has N times N as many, up to `MOST_LOOKS`: with fewer
/// threads to a processor a look holds up less, and a wake-up on another processor takes longer.
const LOOKS: usize = 8;

/// The most looks of a wait.
const MOST_LOOKS: usize = 128;

/// A wait of more than this many milliseconds is long: another process had the processor. Most waits take microseconds.
const LONG: u64 = 1;

/// Two long waits among this many show that other processes want the processors. A single long wait shows nothing.
const SOON: u32 = 64;

/// After that, no thread looks for this many waits of the issuing thread.
const HURRIED_WAITS: u32 = 2048;

/// How often the threads of a run look before they sleep. The issuing thread owns the pace, because it waits for each
/// of the other threads. Its clock shows when yields have become expensive.
#[derive(Drop)]
pub struct Pace<'a> {
    signals: &'a Signals,
    /// The looks of a wait if only this run wants the processors.
    looks: u32,
    /// When the last wait ended, if the clock could be read.
    ended: Option<Duration>,
    /// The waits since the last long one.
    calm: u32,
    /// The waits that are left until the threads look again.
    hurried: u32,
}

impl<'a> Pace<'a> {
    /// The pace of threads on this many processors, if that is known.
    pub fn new(signals: &'a Signals, processors: Option<NonZeroUsize>) -> Pace<'a> {
        let processors = match processors {
            Some(processors) => processors.get(),
            None => 1,
        };
        let looks = processors
            .saturating_mul(processors)
            .saturating_mul(LOOKS)
            .min(MOST_LOOKS) as u32;
        signals.set_looks(looks);
        Pace {
            signals,
            looks,
            ended: None,
            calm: SOON,
            hurried: 0,
        }
    }

    /// Whether the wait that has just ended was long. The work between two waits takes microseconds, so the time since
    /// the last wait ended is used as the length of this one.
    fn is_long<C: Clock>(&mut self, clock: &C) -> bool {
        let now = clock.monotonic().ok();
        match (mem::replace(&mut self.ended, now), now) {
            (Some(ended), Some(now)) => now.saturating_sub(ended) > Duration::from_millis(LONG),
            _ => false,
        }
    }

    /// Makes the threads sleep at once for some waits, if this wait and another one shortly before were long.
    fn judge(&mut self, is_long: bool) {
        if is_long && self.calm < SOON {
            self.hurried = HURRIED_WAITS;
            self.signals.set_looks(0);
        }
        self.calm = if is_long {
            0
        } else {
            self.calm.saturating_add(1)
        };
    }

    /// Records that a wait of the issuing thread has ended.
    pub fn waited<C: Clock>(&mut self, clock: &C) {
        let is_long = self.is_long(clock);
        if self.hurried == 0 {
            self.judge(is_long);
        } else {
            self.hurried -= 1;
            if self.hurried == 0 {
                self.signals.set_looks(self.looks);
            }
        }
    }
}

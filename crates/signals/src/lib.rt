//! How the threads of a run wake each other without taking the machine's lock. These are hints: nothing is proved about
//! them, and no result depends on them.
//!
//! Each thread has a `Signal`, which is a count. A thread that can't continue notes its count, registers the changes
//! that it waits for, and waits until another thread raises the count:
//!
//! - It looks at the count, and between two looks it calls `Backoff::snooze` of `crossbeam_utils`. After seven calls,
//!   each call yields the processor: a run has more threads than most machines have processors, and a spinning thread
//!   holds up the thread that it waits for. So a thread never resets its `Backoff`.
//! - After a number of looks without success it sleeps until its signal is raised, for a millisecond at most. A sleep
//!   and its wake-up cost more than two yields, and more than ten if the threads are on two processors.
//! - If other processes want the processors, a yield returns only after milliseconds. The clock of the issuing thread
//!   shows that (`Pace`), and then no thread looks for a while: each sleeps at once.
//!
//! Callers rely on `Waiting::until_raised` to return. `Wakeups` has the events that a thread reports. Its tests are in
//! `crates/lock_tests/src/signal_tests.rt`. Begin with `Signals`.
#![tactic(auto)]

mod pace;
mod signal;
mod signals;
mod waiting;
mod wakeups;

pub use pace::Pace;
pub use signal::Signal;
pub use signals::Signals;
pub use waiting::Waiting;
pub use wakeups::Wakeups;

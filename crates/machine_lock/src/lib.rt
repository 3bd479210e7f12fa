//! The machine under one lock, for several threads, with a word that counts the steps of its log. A thread holds the
//! lock while it makes an event; a unit computes without the lock.
//!
//! Callers rely on `Shared::snapshot`: the state that it returns is the replay of the snapshot's own log on the boot
//! memory. That log begins with the steps that the caller had seen. Every other call that takes a `Seen` updates it
//! with what the caller has then seen of the log.
//!
//! `locked_machine` defines the machine while its lock is held, and the invariant of the lock.
//!
//! `word` has the progress word, which counts the steps of the log. Each pass to the word knows a beginning of one log.
//! The machine's pass knows the whole log: the holder of the lock records each step there (`Word::record`). A caller's
//! pass knows the steps that the caller has seen, and the positions of the caller's own steps; a caller keeps it in a
//! `Seen`. The word holds the log's length. So a caller that loads the word again (`Word::compare`) learns a log that
//! begins with what it knew, without the lock. Two callers that meet have no step in common. `rule` has the steps that
//! the word's rule allows.
//!
//! docs/work/threads.md has an example. The tests are in `crates/lock_tests/src/lock_tests.rt` and
//! `crates/lock_tests/src/guard_tests.rt`. Begin with `Shared` in `shared`, then `Word` in `word`.
#![tactic(auto)]

mod locked_machine;
mod rule;
mod seen;
mod shared;
mod word;

pub use locked_machine::{LockedMachine, MachineGuard};
pub use rule::Naming;
pub use seen::Seen;
pub use shared::{Ground, Shared};
pub use signals::{Signal, Signals, Wakeups};

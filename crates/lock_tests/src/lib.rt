//! Tests of the machine under its lock and of the signals of its threads. This crate may start threads. It exports
//! `fixtures` alone, which the tests of the workers use too.
//!
//! `lock_tests` checks what callers of the lock have seen, `guard_tests` several events in one hold of the lock, and
//! `signal_tests` how threads wake each other. `example_tests` is the example of docs/work/threads.md. Most tests open
//! their machine by `play` in `scenario`. Begin with `two_threads` in `lock_tests`.
#![tactic(auto)]

#[cfg(test)]
mod example_tests;
pub mod fixtures;
#[cfg(test)]
mod guard_tests;
#[cfg(test)]
mod lock_tests;
#[cfg(test)]
mod scenario;
#[cfg(test)]
mod signal_tests;

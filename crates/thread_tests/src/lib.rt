//! Tests of the crates that run threads: the lanes and the workers. This crate may start threads, and has no public
//! items.
//!
//! `queue_tests` checks the lanes, and `access_tests` two peripheral processors. Begin with `RUNS` in `thread_tests`:
//! one program in each row, and what the machine shows after the threads have run it.
#![tactic(auto)]

#[cfg(test)]
mod access_tests;
#[cfg(test)]
mod queue_tests;
#[cfg(test)]
mod thread_tests;

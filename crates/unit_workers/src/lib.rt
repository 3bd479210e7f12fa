//! Ten threads that drive a machine under its lock: one for each of the seven units, one for memory, one that makes the
//! requests that may be made at any time, and the calling thread, which issues. So units compute at the same time, as
//! those of the 6600 did (Thornton, functional units). How the work is divided among threads is this project's choice.
//!
//! Callers rely on `run_threads`: it returns a snapshot of the machine that it was given. The snapshot has that
//! machine's boot memory and budget, and its log begins with that machine's log and keeps to the budget. Nothing
//! promises that a run ends. `issuing` issues, `worker_lanes` starts the workers of the units, and `asking` makes the
//! requests that may be made at any time. `worker_loops` serves the reservations. Its tests are in
//! `crates/thread_tests/src/thread_tests.rt`. Begin with `run_threads` in `threaded_run`.
#![tactic(auto)]

mod asking;
mod issuing;
mod threaded_run;
mod worker_lanes;

pub use threaded_run::{Ended, Orders, run_threads};
pub use worker_loops::{Gate, Gates, Open, Tally, serve, storage_worker, worker};

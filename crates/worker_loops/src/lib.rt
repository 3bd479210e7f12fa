//! The work of the threads that serve a machine's units and its memory. Each thread makes its events under the
//! machine's lock and computes without the lock.
//!
//! Callers rely on `serve`, which takes one reservation from its note to its store, and on `worker`, whose tally
//! accounts for the notes that it took. `unit_worker` serves the notes of a lane, `tally` is its account, and
//! `memory_worker` takes references through memory. A worker calls its `gate` before it computes and after it has
//! stored. Its tests are in `crates/thread_tests/src/thread_tests.rt`. Begin with `serve` in `service`.
#![tactic(auto)]

mod gate;
mod memory_worker;
mod service;
mod tally;
mod unit_worker;

pub use gate::{Gate, Gates, Open};
pub use memory_worker::storage_worker;
pub use service::serve;
pub use tally::Tally;
pub use unit_worker::worker;

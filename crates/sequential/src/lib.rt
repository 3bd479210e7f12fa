//! The machine that executes one instruction at a time: its state, its step, the exchange and the log.
//!
//! This machine defines the correct results of the machine whose units work in parallel. The theorem compares that
//! machine, when drained, with the state that `replay` reaches with its log.
//!
//! Callers rely on `step` and `replay`: they leave exactly the state that `specs/Step` and `specs/Replay` define.
//! `fetching` has what an instruction does before a unit works, `work` has the effects of its value, and `log` records
//! the steps. The tests are in `crates/core_tests/src/sequential_tests.rt`. Begin with `step` in `stepping`.
#![tactic(auto)]

mod fetching;
mod instances;
mod log;
mod position;
mod replaying;
mod state;
mod stepping;
mod work;

pub use fetching::Fetched;
pub use instances::{
    an_access_stays_after_the_instruction, an_exchange_stays_after_the_instruction,
};
pub use instructions::ParcelNumber;
pub use log::{Entry, Log};
pub use position::ProgramPosition;
pub use replaying::replay;
pub use state::State;
pub use stepping::step;
pub use work::{ProgramReference, Work, operands};

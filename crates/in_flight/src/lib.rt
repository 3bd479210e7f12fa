//! The instructions in flight: those that were issued and have an effect still to come. `InFlight` keeps each of them
//! in its unit, its place of the hopper or its load channel, together with the scoreboard and the hopper, which judge
//! them.
//!
//! Callers rely on `InFlight::reserve`, `read`, `may_store`, `accept` and `return_load`: each refuses exactly for the
//! first conflict that `specs/Tests` finds in the list of pending instructions, and leaves exactly the list that
//! `specs/Flight` defines. `pending` has the stages and phases of an instruction. Its tests are in
//! `crates/machine_tests/src/flight_tests.rt`. Begin with `InFlight` in `flight`.
#![tactic(auto)]

mod flight;
mod instances;
mod pending;
mod referring;
mod slots;

pub use flight::InFlight;
pub use instances::{
    a_fetch_waits_for_a_store_to_come, a_load_to_return_is_pending,
    a_result_waits_for_its_earlier_reader,
};
pub use pending::{Arrival, Outstanding, Pending, Phase, Stage};
pub use referring::Relocated;
pub use slots::{Located, SLOTS};

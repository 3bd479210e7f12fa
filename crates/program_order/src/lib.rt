//! The machine with instructions in flight, as an architect sees it: its events, their refusals and effects, and the
//! theorem that its results are those of executing the program in order, one instruction at a time.
//!
//! `specs` has the definitions, which don't depend on how a machine keeps its fields. Callers rely on the law
//! `what_is_reached_is_faithful`: whatever led from boot to a machine, its log is what was done. If the machine is
//! drained, its state is the replay of that log.
//!
//! `snapshot` has a state with the log that leads to it. Its tests are in `crates/machine_tests/src/event_tests.rt` and
//! `crates/machine_tests/src/reached_tests.rt`. Begin with `Event` in `event` and the four theorems in `law`, then read
//! `specs/Events`.
#![tactic(auto)]

mod event;
mod law;
mod snapshot;

pub use event::{Answer, Done, Event, Note};
pub use law::{
    a_drained_machine_goes_on, a_fault_stops_the_program, references_that_pass_commute,
    what_is_reached_is_faithful,
};
pub use snapshot::Snapshot;

//! Tests of `in_flight` and of the machine, through their public items. This crate has no public items of its own.
//!
//! `list_machine` is the machine a second time, as a plain list that is scanned for each conflict. `list_machine_tests`
//! gives both machines the same generated events. In `reached_tests`, callers know by contracts alone what led to their
//! machine. `token_tests` has the calls with tokens. Begin with `PAST_ALL` in `event_tests`: one event in each row,
//! with its answer.
#![tactic(auto)]

#[cfg(test)]
mod event_tests;
#[cfg(test)]
mod fixtures;
#[cfg(test)]
mod flight_calls;
#[cfg(test)]
mod flight_tests;
#[cfg(test)]
mod list_machine;
#[cfg(test)]
mod list_machine_tests;
#[cfg(test)]
mod reached_tests;
#[cfg(test)]
mod token_tests;

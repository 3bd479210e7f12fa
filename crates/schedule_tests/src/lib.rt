//! Worked schedules: lists of events from boot on, each event with its answer, and the final state of the machine. This
//! crate exports nothing.
//!
//! Each schedule is made in every way of making events: as the lines of a session, one by one, as one list, and by the
//! calls of a machine under its lock. `schedule` defines a row, and `schedule_tests` makes each row. `tools/check
//! decks` gives the same rows to the program. Each kind of event is in one of them; other schedules are sessions in
//! `decks/sessions`, which cost no proof. Begin with the table `SCHEDULES` in `register_schedules`.
#![tactic(auto)]

#[cfg(test)]
mod dump;
#[cfg(test)]
mod reference_schedules;
#[cfg(test)]
mod register_schedules;
#[cfg(test)]
mod schedule;
#[cfg(test)]
mod schedule_tests;
#[cfg(test)]
mod seat_holder;

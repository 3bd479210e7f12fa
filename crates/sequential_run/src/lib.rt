//! The requests for exchanges that a run makes, and a whole run of the machine, one instruction at a time, without
//! threads and without a lock. All of this is this project's choice; the exchange jump and the effects of instructions
//! are the 6600's (Control Data 60100000).
//!
//! # Requests
//!
//! A counted request is made after a number of instructions. A free request may be made at any time. These rules say in
//! which order any run asks for exchanges, and whether a log fulfils the run's requests: every request has its exchange,
//! in its turn and in time, and no exchange is without a request.
//!
//! - Counted requests come in the order of `requests`, and free requests in the order in which they were given.
//! - A counted request after K instructions is made once K were issued. Its exchange is made at the end of the word, so
//!   at most three instructions later. If another request is waiting then, the counted request is made together with
//!   the exchange of that request, and its own exchange follows at once.
//! - A free request is made at some moment when no other request waits and none is late.
//! - At the end no free request is left, and no counted request that is due. But a machine that is out of budget may
//!   stop in the middle of a word, where no exchange can be made. Then a request may wait, and others with it.
//!
//! The log doesn't say which request an exchange was made for. So a log fulfils the requests if there is a way to
//! assign every exchange to a request by these rules. Callers rely on `Requests::take_due`, which returns the counted
//! request that is due, each only once, and on `are_fulfilled`, which judges a log in a time that grows with its
//! exchanges, not with its instructions. `in_order` returns all counted requests of a run as a list. `judging` finds the
//! request that an exchange was made for.
//!
//! # A run of one instruction at a time
//!
//! Its result follows from memory, requests and budget alone.
//!
//! - A counted request is made after the number of instructions that it names and before the next one, while no other
//!   request waits for its exchange.
//! - A free request is made as soon as no other request waits and none is due.
//! - An exchange is made at the first moment that allows it, so never in the middle of a word of a program that runs
//!   without a fault.
//! - The run ends when the machine is halted or faulted or its budget is used up, no exchange can be made, and no
//!   request is due.
//!
//! Callers rely on `run`: its log and its final state are those of `IsSequentialRun` in `specs/Run`, which reads like
//! this list. Two laws are exported for their contracts alone. `a_run_has_one_result`: there is only one such log and
//! one such state. `a_run_by_one_is_made_by_events`: the machine with instructions in flight can make that log, so the
//! theorem applies to this run too.
//!
//! The tests are in `crates/text_tests/src/requests_tests.rt`, `crates/text_tests/src/fulfilled_requests_tests.rt` and
//! `crates/text_tests/src/sequential_run_tests.rt`. Begin with `Requests::take_due`, then `Course::turn` in `course`.
#![tactic(auto)]

mod course;
mod exchanges;
mod fulfilling;
mod judging;
mod law;
mod requests;
mod running;
mod stepping;

pub use fulfilling::are_fulfilled;
pub use law::{a_run_by_one_is_made_by_events, a_run_has_one_result};
pub use requests::{Ask, Requests, in_order};
pub use running::{CompletedRun, run};
pub use stepping::is_in_mid_word;

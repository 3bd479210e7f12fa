//! Tests of the crates that read and print texts: `device_text`, `deck`, `log_text`, `job_deck`, `contents_text` and
//! `operator_terms`, and of `sequential_run`, through their public items. This crate exports nothing.
//!
//! The decks, sessions and pages in `decks/` show what the program reads and prints; the tests here show the rest.
//! `session_tests` has sessions, lists, replays and runs with devices that fail. `device_tests`, `deck_tests` and
//! `following_log_tests` have what is read and what is left unread, and `refused_line_tests` the positions of faults.
//! `printing_tests` dumps a state and counts the entries of logs; `operator_terms_tests` has statuses and the texts of
//! faults. `contents_tests` has the contents of a machine's parts. `led_tests` has a caller that knows a session's
//! machine from the contract alone, and `sequential_run_tests` such callers of a run. `requests_tests` has the order of
//! a run's requests, and `fulfilled_requests_tests` compares logs with them. `fixtures` has devices that fail. Begin
//! with `JOBS` in `session_tests`: what is done with a deck, and what comes out.
#![tactic(auto)]

#[cfg(test)]
mod contents_tests;
#[cfg(test)]
mod deck_tests;
#[cfg(test)]
mod device_tests;
#[cfg(test)]
mod fixtures;
#[cfg(test)]
mod following_log_tests;
#[cfg(test)]
mod fulfilled_requests_tests;
#[cfg(test)]
mod led_tests;
#[cfg(test)]
mod operator_terms_tests;
#[cfg(test)]
mod printing_tests;
#[cfg(test)]
mod refused_line_tests;
#[cfg(test)]
mod requests_tests;
#[cfg(test)]
mod sequential_run_tests;
#[cfg(test)]
mod session_tests;

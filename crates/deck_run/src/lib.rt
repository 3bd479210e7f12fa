//! The commands `run` and `replay`. They read a deck, run it with threads or one instruction at a time, or replay a log
//! on it: a text, or the line after the deck. Then they print the machine's dump and return how the program ends.
//! docs/use/formats.md has the texts and the numbers.
//!
//! Callers rely on `run_deck` and `run_deck_sequentially`. Both print the dump of a state to which the dump's own log
//! leads from boot with the deck's memory. The log leads there one instruction at a time, and has no more instructions
//! than the budget. If a write fails they print a prefix of such a dump. `run_deck_sequentially` prints the only dump
//! that deck and budget give. `running` boots the machine and runs it with threads. Its tests are in
//! `crates/operator_main/src/command_tests.rt`. Begin with `run_deck` in `commands`.
#![tactic(auto)]

mod commands;
mod running;

pub use commands::{replay_following_log, replay_log, run_deck, run_deck_sequentially};

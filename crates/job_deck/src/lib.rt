//! The texts of the machine. This crate prints memory, machines and logs, replays logs, and runs decks sequentially. It
//! also runs sessions: a schedule says a machine's events line by line, and the session answers each line. All texts
//! are lines of bytes, in the formats of docs/use/formats.md. The crate re-exports the items for decks, logs and
//! devices of the crates below it.
//!
//! Callers rely on `events`: it answers each line as `program_order` allows, before it reads the next line. The events
//! of the lines and their printed answers lead from boot to the machine that `events` dumps. `dump` in `dumping` prints
//! a machine. `run_sequentially` prints the dump of the log and the state with which the sequential run of the deck
//! ends; both follow from deck and budget alone. The tests are in `crates/text_tests/src/session_tests.rt`,
//! `crates/text_tests/src/printing_tests.rt` and `crates/text_tests/src/sequential_run_tests.rt`. Begin with `events`
//! in `session`.
#![tactic(auto)]

mod answering;
mod dumping;
mod ending;
mod listing;
mod replaying;
mod running;
mod schedule;
mod schedule_reading;
mod session;

pub use answering::put_answer;
pub use deck::{AskLine, Deck, Image, LineList, Show, read_deck, read_deck_from, with_line_number};
pub use device_text::{
    CheckedBufReader, CheckedReader, CheckedWriter, Input, LineBuffer, Output, ReadFailed,
    WriteFailed,
};
pub use dumping::{dump, dump_to, put_log};
pub use listing::{list, list_to};
pub use log_text::{read_log, read_log_from};
pub use replaying::{replay, replay_following, replay_following_to, replay_to};
pub use running::{asks_after, run_sequentially, run_sequentially_to};
pub use schedule::{ScheduleLine, parse_schedule_line};
pub use session::{booted, events, events_to};

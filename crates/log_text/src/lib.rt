//! The text of a log, as a dump prints it: read from a text, or from the line after a deck.
//!
//! Callers rely on `read_log` and `read_log_from`. Both return the log that `LogText.antt` defines for the text, or
//! `None` if the text isn't that of a log. `read_log_from` reads the line entry by entry, so the line may be of any
//! length. Its tests are in `crates/text_tests/src/following_log_tests.rt` and
//! `crates/text_tests/src/printing_tests.rt`. Begin with `read_log` in `logs`; `following_log` has the line after a
//! deck.
#![tactic(auto)]

mod following_log;
mod logs;

pub use following_log::read_log_from;
pub use logs::read_log;

//! The contents of the parts of a machine as lines of text: its units, hopper, load channels and banks, its request for
//! an exchange, its next instruction, its reserved registers and its unread operands; and lines about an event: the
//! one that says it, and its judgement.
//!
//! Callers rely on `put_contents`, which writes the text that `Contents.antt` defines for a part of a machine, and on
//! `put_judgement`, which writes the text that `Holding.antt` defines for an event. `conflicts` has the lines of
//! registers, `events` the schedule line of an event. The calls of `embedding` hand these texts to callers in C. Its
//! tests are in `crates/text_tests/src/contents_tests.rt`; `tools/check embedding` compares the lines with those of a
//! second implementation of the rules, in Python. Begin with `put_contents`.
#![tactic(auto)]

mod conflicts;
mod contents;
mod events;
mod holding;

pub use contents::{Part, put_contents};
pub use events::put_event;
pub use holding::put_judgement;

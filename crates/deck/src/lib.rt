//! Decks. A deck gives the contents of memory, the package of the first exchange, the requests for later exchanges, and
//! the words to show. A deck is lines of bytes; docs/use/formats.md has the lines and their faults.
//!
//! Callers rely on `read_deck`. It returns exactly the deck in the bytes, or the first faulty line, and reads nothing
//! past the deck's end or that fault. `applying` has the effect of each line. Its tests are in
//! `crates/text_tests/src/deck_tests.rt`. Begin with `Deck` in `deck` and `read_deck` in `reading`.
#![tactic(auto)]

mod applying;
mod coding;
mod deck;
mod image;
mod line_list;
mod parsing;
mod reading;

pub use deck::{AskLine, Deck, Show};
pub use image::Image;
pub use line_list::LineList;
pub use reading::{MOST_LINES, read_deck, read_deck_from, with_line_number};

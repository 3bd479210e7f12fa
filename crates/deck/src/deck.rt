use crate::Image;
use crate::line_list::LineList;
use word60::Word18;

/// The addresses of words to show, from the first to the last, both included.
#[derive(Clone, Copy, Debug, Drop, PartialEq, Eq)]
pub struct Show {
    pub first: Word18,
    pub last: Word18,
}

/// A request for an exchange while the deck's program runs.
#[derive(Clone, Copy, Debug, Drop, PartialEq, Eq)]
pub struct AskLine {
    /// The absolute address of the package.
    pub at: u32,
    /// The number of instructions that are issued before the exchange is requested.
    pub after: u32,
}

/// A deck: the words of memory, the package of the first exchange, the requests for later exchanges, and the words to
/// show. `start` and `free` have the absolute addresses of packages. The packages of `free` are requested at any time.
#[derive(Drop)]
pub struct Deck {
    pub image: Image,
    pub start: u32,
    pub asks: LineList<AskLine>,
    pub free: LineList<u32>,
    pub shows: LineList<Show>,
}

/// A deck whose `end` line hasn't been read yet.
#[derive(Drop)]
pub struct Draft {
    pub image: Image,
    /// The address of the next word.
    pub next_address: u32,
    pub start: Option<u32>,
    pub asks: LineList<AskLine>,
    pub free: LineList<u32>,
    pub shows: LineList<Show>,
}

/// What follows an accepted line.
#[derive(Clone, Copy, Debug, Drop, PartialEq, Eq)]
pub enum Flow {
    /// Another line follows.
    Goes,
    /// Nothing follows, because the line was the `end` line. The first exchange package is at this address.
    Ends(u32),
}

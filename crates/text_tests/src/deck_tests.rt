//! Tests of what is left unread after a deck, and of decks with too many requests.

use crate::fixtures::{DECK, joined};
use deck::{Deck, read_deck, read_deck_from};
use device_text::{CheckedBufReader, LineBuffer};
use instructions::{DeckFault, Refusal};
use std::alloc::Global;
use std::test::Fail;

/// The address of the package that a deck starts with, or `None` if the deck is refused.
fn start_of(read: Result<Deck, Refusal>) -> Option<u32> {
    match read {
        Ok(deck) => Some(deck.start),
        Err(_) => None,
    }
}

/// The same, and the number of the deck's last line.
fn start_and_lines_of(read: Result<(Deck, u32), Refusal>) -> Option<(u32, u32)> {
    match read {
        Ok((deck, lines)) => Some((deck.start, lines)),
        Err(_) => None,
    }
}

/// Reads a deck from a plain reader and from a buffered one.
#[test]
fn reads_no_further(rt: HostRuntime) -> Result<(), Fail> {
    let text = joined(rt.alloc(), [DECK, "rest\n"].as_slice())?;
    let (mut plain, mut buffered) = (text.as_slice(), text.as_slice());
    let start = start_of(read_deck(rt.alloc(), &mut plain));
    let mut buffer = CheckedBufReader::new(&mut buffered);
    let ends = start_and_lines_of(read_deck_from(rt.alloc(), &mut buffer, &mut LineBuffer::new()));
    assert!(rt;
        start == Some(0o40)
            && ends == Some((0o40, 9))
            && plain == b"rest\n".as_slice()
            && buffered == b"rest\n".as_slice()
    );
    Ok(())
}

/// A line that follows 64 requests, and its fault.
const ASKS_TOO_MANY: [(&str, DeckFault); 7] = [
    ("end\n", DeckFault::NoStart),
    ("ask 40 after 3\n", DeckFault::Many),
    ("ask 361 after 3\n", DeckFault::Many),
    ("ask 361 after 10000001\n", DeckFault::Number),
    ("ask 40 free\n", DeckFault::Many),
    ("ask 361 free\n", DeckFault::Many),
    ("ask 8 free\n", DeckFault::Number),
];

const EIGHT_ASKS: &str = "\
    ask 40 after 3\n\
    ask 40 free\n\
    ask 40 after 3\n\
    ask 40 free\n\
    ask 40 after 3\n\
    ask 40 free\n\
    ask 40 after 3\n\
    ask 40 free\n";

/// The first line of a deck, and 64 requests.
const MOST_ASKS: [&str; 9] = [
    "core 256\n",
    EIGHT_ASKS,
    EIGHT_ASKS,
    EIGHT_ASKS,
    EIGHT_ASKS,
    EIGHT_ASKS,
    EIGHT_ASKS,
    EIGHT_ASKS,
    EIGHT_ASKS,
];

/// Whether the line after 64 requests is refused with this fault.
fn is_refused(alloc: Global, line: &str, fault: DeckFault) -> bool {
    let Ok(mut deck) = joined(alloc, MOST_ASKS.as_slice()) else {
        return false;
    };
    if deck.extend_from_slice(line.as_bytes()).is_err() {
        return false;
    }
    let mut input = deck.as_slice();
    match read_deck(alloc, &mut input) {
        Err(refusal) => refusal == Refusal::Deck { line: 66, fault },
        Ok(_) => false,
    }
}

#[test]
fn many_asks(rt: HostRuntime) -> Result<(), Fail> {
    for (line, fault) in &ASKS_TOO_MANY {
        assert!(rt; is_refused(rt.alloc(), line, *fault), "{line}");
    }
    Ok(())
}

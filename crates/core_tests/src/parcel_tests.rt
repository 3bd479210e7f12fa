//! The four parcels of a word, and a cursor over them.

use crate::fixtures::word;
use parcel::{Cursor, join, parcel_of, split};

const WORD: u64 = 0o12345_23456_34567_45670;

/// A word is split and joined again.
#[test]
fn takes_a_word_apart(rt: HostRuntime) {
    let parts = [0o12345, 0o23456, 0o34567, 0o45670];
    let found = (split(word(WORD)), parcel_of(word(WORD), 2), join(parts));
    assert_eq!(rt; found, (parts, 0o34567, word(WORD)));
}

/// A cursor takes one parcel or two, and none if too few are left.
#[test]
fn takes_parcels_in_order(rt: HostRuntime) {
    let mut cursor = Cursor {
        word: word(WORD),
        next: 0,
    };
    let first = cursor.take15();
    let pair = cursor.take30();
    let no_pair = cursor.take30();
    let last = cursor.take15();
    let none = cursor.take15();
    assert_eq!(rt; [first, last, none], [Some(0o12345), Some(0o45670), None]);
    assert_eq!(rt; [pair, no_pair], [Some(0o23456_34567), None]);
    assert_eq!(rt;
        cursor,
        Cursor {
            word: word(WORD),
            next: 4
        }
    );
}

//! Sums of words, indexes with and without their sign, and the least numbers that are too large.

use crate::fixtures::{index, word};
use word60::{Word18, Word60};

/// -0: ones in every bit.
const MINUS_ZERO: u64 = 0o77777_77777_77777_77777;

/// -0 and -0 make -0, and other sums of zeros +0. 2^60 isn't a word.
#[test]
fn makes_words(rt: HostRuntime) {
    let (zero, minus_zero, five) = (word(0), word(MINUS_ZERO), word(5));
    let sums = [
        minus_zero.add(minus_zero),
        minus_zero.add(zero),
        five.add(five.complement()),
    ];
    assert!(rt; sums == [minus_zero, zero, zero] && Word60::new(1 << 60).is_none());
}

/// Sums and complements of indexes, and words made of them with and without their sign. An index has at most 18 bits.
#[test]
fn makes_indexes(rt: HostRuntime) {
    let (one, two, minus_one) = (index(1), index(2), index(0o777776));
    let found = [
        index(0o377777).add(one),
        minus_one.add(two),
        one.sub(two),
        one.complement(),
        word(0o12345_67012_34567_01234).low18(),
    ];
    assert!(rt; found == [index(0o400000), one, minus_one, minus_one, index(0o701234)]);
    let widened = [minus_one.extend(), one.extend(), minus_one.widen()];
    assert!(rt; widened == [word(0o77777_77777_77777_77776), word(1), word(0o777776)]);
    assert!(rt; minus_one.get() == 0o777776 && Word18::new(0o1000000).is_none());
}

//! Values for each unit: found by unit, changed for one unit alone, and kept in the order of the units' numbers.

use instructions::{PerUnit, Unit};

/// The values in the tests, in the order of the units' numbers.
const KEPT: [u8; 7] = [10, 11, 12, 13, 14, 15, 16];

/// A unit, its value, and all values after 0 is written to it.
const FOUND: [(Unit, Option<u8>, [u8; 7]); 10] = [
    (Unit::Branch, Some(10), [0, 11, 12, 13, 14, 15, 16]),
    (Unit::Boolean, Some(11), [10, 0, 12, 13, 14, 15, 16]),
    (Unit::Shift, Some(12), [10, 11, 0, 13, 14, 15, 16]),
    (Unit::Add, None, KEPT),
    (Unit::LongAdd, Some(13), [10, 11, 12, 0, 14, 15, 16]),
    (Unit::Multiply1, None, KEPT),
    (Unit::Multiply2, None, KEPT),
    (Unit::Divide, Some(14), [10, 11, 12, 13, 0, 15, 16]),
    (Unit::Increment1, Some(15), [10, 11, 12, 13, 14, 0, 16]),
    (Unit::Increment2, Some(16), [10, 11, 12, 13, 14, 15, 0]),
];

/// Each unit in use finds its own value, and a change leaves the values of the other units alone.
#[test]
fn finds_and_changes_the_one_of_a_unit(rt: HostRuntime) {
    for (unit, found, changed) in FOUND.as_slice() {
        let mut all = PerUnit::from_array(KEPT);
        assert_eq!(rt; all.get(*unit).copied(), *found);
        if let Some(kept) = all.get_mut(*unit) {
            *kept = 0;
        }
        assert_eq!(rt; all.into_array(), *changed);
    }
}

/// `zip` keeps a unit together with its value.
#[test]
fn keeps_units_together(rt: HostRuntime) {
    let mut kept = PerUnit::from_array(KEPT);
    let lent = PerUnit::units().zip(kept.each_mut());
    let _ = lent.map(|(unit, one)| {
        if unit == Unit::Divide {
            *one = 0;
        }
    });
    let doubled = kept
        .each()
        .zip_with(PerUnit::from_array(KEPT), |one, other| *one == other);
    assert_eq!(rt;
        doubled.into_array(),
        [true, true, true, true, false, true, true]
    );
}

/// `as_array` refers to the values in the order of the units' numbers.
#[test]
fn refers_in_order(rt: HostRuntime) {
    let all = PerUnit::from_array(KEPT);
    assert_eq!(rt; all.as_array(), [&10, &11, &12, &13, &14, &15, &16]);
}

/// `unzip` splits the pairs that `zip` made.
#[test]
fn unzips(rt: HostRuntime) {
    let (units, kept) = PerUnit::units().zip(PerUnit::from_array(KEPT)).unzip();
    assert_eq!(rt; units.into_array(), PerUnit::units().into_array());
    assert_eq!(rt; kept.into_array(), KEPT);
}

/// `complete` succeeds if all values are there, and fails if one is missing.
#[test]
fn complete_or_not(rt: HostRuntime) {
    let mut all = PerUnit::from_array(KEPT).map(|kept| Some(kept));
    assert!(rt;
        PerUnit::from_array(KEPT)
            .map(|kept| Some(kept))
            .complete()
            .is_some()
    );
    all.shift = None;
    assert!(rt; all.complete().is_none());
}

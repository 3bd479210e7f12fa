//! The targets of branches. Instructions are given as text.

use crate::fixtures::{index, instruction, number_of, word};
use unit_ops::{Operands, branch_taken};

/// The target of an instruction of the word at 777777 with these operands.
fn branches_to(text: &str, first: u64, second: u64) -> Option<u32> {
    let operands = Operands {
        first: word(first),
        second: word(second),
        outgoing: word(0),
        place: index(0o777777),
    };
    number_of(branch_taken(&instruction(text), &operands))
}

/// Ones in every bit: -0.
const ONES: u64 = 0o77777_77777_77777_77777;

/// An instruction, its operands, and its target.
const TARGETS: [(&str, u64, u64, Option<u32>); 8] = [
    ("ZR X2,10", ONES, 0, Some(0o10)),
    ("ZR X2,10", 1, 0, None),
    ("EQ B0,B2,10", 0, 0o777777, None),
    ("GE B0,B2,10", 0, 0o777777, Some(0o10)),
    ("RJ 777777", 0, 0, Some(0)),
    ("PS", 0, 0, None),
    ("BX1 X2-X3", 0, 0, None),
    ("SA1 B2+10", 0, 0, None),
];

/// -0 is a zero for `ZR`, but differs from +0 for `EQ`. A return jump continues at the word after the one that it
/// stores; 0 follows 777777. An instruction that isn't a branch goes nowhere.
#[test]
fn takes_branches(rt: HostRuntime) {
    for (text, first, second, wanted) in TARGETS.as_slice() {
        assert_eq!(rt;
            branches_to(text, *first, *second),
            *wanted,
            "{text} at {first}"
        );
    }
}

//! The texts and the opcodes of instructions. The pages in `decks/` show patterns of parcels with their instructions.

use crate::fixtures::{digit, instruction};
use instruction_table::{opcode, read_text, text};
use instructions::{Instr, Op};
use std::test::Fail;

/// An instruction is written as a text, and read from it.
#[test]
fn gives_texts(rt: HostRuntime) -> Result<(), Fail> {
    let copy = Instr::Copy {
        i: digit(6),
        j: digit(5),
    };
    let made = text(rt.alloc(), &copy)?;
    assert!(rt; made.as_str() == "BX6 X5" && read_text("BX6 X5") == Some(copy));
    Ok(())
}

/// The opcodes of a branch and of an increment.
#[test]
fn names_opcodes(rt: HostRuntime) {
    let extended = Op::Extended(digit(0), digit(3), digit(1));
    let found = [
        opcode(&instruction("NZ X4,0")),
        opcode(&instruction("SX1 B0+10")),
    ];
    assert_eq!(rt; found, [extended, Op::Plain(digit(7), digit(1))]);
}

/// Texts that aren't instructions.
const OTHERS: [&str; 17] = [
    "",
    "NO ",
    " NO",
    "no",
    "N",
    "XX1 X2",
    "sx1 B0+5",
    "SX1 B0+05",
    "SX1  B0+5",
    "SX1 B0+1000000",
    "SX1 B0+8",
    "SX1 B0+",
    "SX8 B0+1",
    "SX1 X2-B3",
    "LX1 100",
    "BX1 X2*",
    "BX1 X2*X3 ",
];

/// Other spellings, numbers that are too large and registers that don't exist are refused.
#[test]
fn refuses_other_texts(rt: HostRuntime) {
    for line in OTHERS.as_slice() {
        assert_eq!(rt; read_text(line), None, "at {line}");
    }
}

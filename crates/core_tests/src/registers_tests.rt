//! The operating registers, written and read.

use crate::fixtures::{digit, index, word};
use instructions::Reg;
use registers::RegisterFile;

/// A word whose low 18 bits are 107654.
const WORD: u64 = 0o76543_21076_54321_07654;

/// A and B registers take the low 18 bits and are read without their sign; B0 takes none and is read as +0. Other
/// registers don't change.
#[test]
fn writes_registers(rt: HostRuntime) {
    let (first, last, full) = (digit(0), digit(7), word(WORD));
    let written = [
        Reg::X(first),
        Reg::X(last),
        Reg::A(first),
        Reg::A(last),
        Reg::B(first),
        Reg::B(last),
    ];
    let mut registers = RegisterFile::default();
    for register in written.as_slice() {
        registers.set(*register, full);
    }
    let read = written.map(|register| registers.get(register));
    let (zero, low, rest) = (word(0), index(0o107654), index(0));
    let wanted = RegisterFile {
        x: [full, zero, zero, zero, zero, zero, zero, full],
        a: [low, rest, rest, rest, rest, rest, rest, low],
        b: [rest, rest, rest, rest, rest, rest, low],
    };
    let number = word(0o107654);
    assert!(rt; registers == wanted && read == [full, full, number, number, zero, number]);
}

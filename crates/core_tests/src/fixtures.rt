//! Words, registers and instructions, in forms that constants can hold.

use instruction_table::read_text;
use instructions::{Digit, Instr, Reg};
use word60::{Word18, Word60};

/// A register by its number, 0 to 7.
#[derive(Clone, Copy, Drop, PartialEq, Eq)]
pub(crate) enum Register {
    A(u8),
    B(u8),
    X(u8),
}

impl Register {
    pub(crate) fn of(register: Reg) -> Register {
        match register {
            Reg::A(digit) => Register::A(digit.get()),
            Reg::B(digit) => Register::B(digit.get()),
            Reg::X(digit) => Register::X(digit.get()),
        }
    }

    pub(crate) fn reg(self) -> Reg {
        match self {
            Register::A(number) => Reg::A(digit(number)),
            Register::B(number) => Reg::B(digit(number)),
            Register::X(number) => Reg::X(digit(number)),
        }
    }
}

/// The digit with this number, 0 to 7.
pub(crate) fn digit(number: u8) -> Digit {
    Digit::low(u16::from(number))
}

/// The word with this number, or +0 if the number has more than 60 bits.
pub(crate) fn word(number: u64) -> Word60 {
    Word60::new(number).unwrap_or_default()
}

/// The index with this number, or +0 if the number has more than 18 bits.
pub(crate) fn index(number: u32) -> Word18 {
    Word18::new(number).unwrap_or_default()
}

/// The instruction with this text, or a stop if there is none.
pub(crate) fn instruction(text: &str) -> Instr {
    match read_text(text) {
        Some(instr) => instr,
        None => Instr::Stop,
    }
}

/// The number of an index, if there is one.
pub(crate) fn number_of(index: Option<Word18>) -> Option<u32> {
    match index {
        Some(index) => Some(index.get()),
        None => None,
    }
}

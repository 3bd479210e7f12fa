//! The instruction table: how instructions are decoded from parcels, encoded into parcels and written as text. The
//! crate also exports the instructions themselves, from `instructions`.
//!
//! An instruction of 15 bits has the octal digits f, m, i, j and k, three bits each from the top. An instruction of 30
//! bits has f, m, i and j, then the 18 bits of K. The table is the machine's (Control Data 6400/6600 Reference Manual,
//! publication 60100000), without its floating-point instructions. A comment says so if something is this project's
//! choice.
//!
//! Callers rely on `decode`: it decodes each pattern exactly as `specs/Table` says, and it decodes the parcels of an
//! instruction as that instruction, at any position. The tests are in
//! `crates/core_tests/src/instruction_table_tests.rt`. Begin with `decode` in `decoding`.
#![tactic(auto)]

mod codes;
mod decoding;
mod encoding;
mod reading;
mod spelling;

pub use codes::opcode;
pub use decoding::{Decoded, decode, decode_as, first_digits};
pub use encoding::encode;
pub use instructions::{
    Addends, Addition, BTest, Base, DeckFault, Digit, Direction, Halt, Instr, Logic, MemoryUse, Op,
    OperandRegisters, Pair, ParcelNumber, PerUnit, Refusal, Reg, SixBits, Target, Unit, UnitKind,
    XTest, operand_registers, results, sources, unit_kind,
};
pub use reading::{read_bytes, read_text};
pub use spelling::{InstrText, spell, text};

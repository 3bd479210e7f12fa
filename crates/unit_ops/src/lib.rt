//! The computations of the functional units: the value of an instruction as a function of its operands alone, and the
//! target of a branch.
//!
//! The operations are the machine's (Control Data 6400/6600 Reference Manual, publication 60100000). This project chose
//! the order of `GE` and `LT` and the equality of `EQ` and `NE` (`BTest` of `instructions`). It also chose that a
//! nominal shift to the right by more than 63 bits leaves +0, and it chose the zeros of sums and the long shifts and
//! masks (`word60`).
//!
//! Callers rely on `value`: for each instruction that has a unit it returns exactly `value_of` of `specs/Values`. The
//! tests are in `crates/core_tests/src/unit_ops_tests.rt`. Begin with `value` in `compute`, next to that definition.
#![tactic(auto)]

mod compute;

pub use compute::{branch_taken, value};
use word60::{Word18, Word60};

/// The inputs of a unit. An operand of 18 bits is in bits 17 to 0, and the bits above it don't count. An operand that
/// the instruction doesn't have doesn't count either; callers pass 0.
#[derive(Clone, Copy, Debug, PartialEq, Eq)]
pub struct Operands {
    /// The left operand, or the only one.
    pub first: Word60,
    /// The right operand.
    pub second: Word60,
    /// The word that SA6 or SA7 stores.
    pub outgoing: Word60,
    /// The address of the instruction's word.
    pub place: Word18,
}

/// The value that a unit computes. The variant says what the machine does with it.
#[derive(Clone, Copy, Debug, PartialEq, Eq)]
pub enum UnitValue {
    /// The new Xi.
    Word(Word60),
    /// The new A0 or Bi.
    Index(Word18),
    /// The new Ai, which is also the address to load Xi from.
    Load(Word18),
    /// The new Ai, which is also the address to store at, and the word to store.
    Store(Word18, Word60),
    /// The target of a branch, or `None` if the branch isn't taken.
    Jump(Option<Word18>),
    /// A return jump: stores a jump to `back` at the address `at`, and continues at `at` + 1. `back` is the address of
    /// the word after the return jump's. Both sums wrap from 777777 to 0.
    Link { at: Word18, back: Word18 },
}

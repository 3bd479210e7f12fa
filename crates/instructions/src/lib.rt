//! Instructions and their static properties: the registers an instruction reads and sets, its kind of unit, and whether
//! it branches or refers to memory. `instruction_table` has how instructions are encoded and written as text.
//!
//! The instructions are the machine's (Control Data 6400/6600 Reference Manual, publication 60100000), without its
//! floating-point instructions. A comment says so if something is this project's choice.
//!
//! Callers rely on `operand_registers`, `results` and `unit_kind`: they return exactly what the instruction's row of
//! `uses` in `specs/Operands` says. `shape` says which instructions refer to memory. `refusal` lists the reasons for a
//! halt and every refusal, and `limits` how much a machine may do. `PerUnit` holds one value for each unit in use. The
//! tests are in `crates/core_tests/src/instructions_tests.rt` and `crates/core_tests/src/per_unit_tests.rt`. Begin with
//! `Instr` in `instr`, then `registers`.
#![tactic(auto)]

mod below;
mod instr;
mod limits;
mod operations;
mod per_unit;
mod refusal;
mod registers;
mod shape;

pub use below::{Below, Digit, ParcelNumber, SixBits};
pub use instr::{
    Addends, Addition, BTest, Base, Direction, Instr, Logic, Op, Pair, Reg, Target, Unit, UnitKind,
    XTest,
};
pub use limits::{
    FIRST_CHANNEL, MOST_ACCESSES, MOST_ISSUES, MOST_REQUESTS, PAST_CHANNELS,
    limits_have_their_values,
};
pub use per_unit::PerUnit;
pub use refusal::{DeckFault, Halt, Refusal};
pub use registers::{OperandRegisters, operand_registers, results, sources, unit_kind};
pub use shape::MemoryUse;

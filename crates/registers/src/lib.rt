//! The operating registers: X0 to X7 of 60 bits, A0 to A7 and B0 to B7 of 18 bits (Control Data 60100000).
//!
//! `RegisterFile` is a map from registers to words. Callers rely on `RegisterFile::set`: it changes the named register
//! and no other, it stores the low 18 bits of the word in an A or B register, and B0 stays +0. `specs/Registers`
//! defines the map. The tests are in `crates/core_tests/src/registers_tests.rt`. Begin with `RegisterFile` in `file`.
#![tactic(auto)]

mod file;

pub use file::RegisterFile;

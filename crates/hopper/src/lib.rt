//! The hopper: the references that wait for their banks, and the banks that are busy (Thornton, stunt box; Control Data
//! 60100000, central memory).
//!
//! Callers rely on `Hopper::accept`: memory takes a reference only if its bank is free and the reference keeps the
//! order of references to one address. That is, no older reference to the address waits if one of the two stores. The
//! result is exactly what `specs/Queue` says of the list of waiting references. `Reference::keeps_order` in `reference`
//! is the rule for two references. The tests are in `crates/core_tests/src/hopper_tests.rt`. Begin with `Hopper` in
//! `hopper`.
#![tactic(auto)]

mod entered;
mod hopper;
mod reference;

pub use entered::Entered;
pub use hopper::Hopper;
pub use reference::{PLACES, Reference, bank_of};

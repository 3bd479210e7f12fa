//! The terms between the program and its operator: the budgets that the command line may have, the faults that the
//! program reports, and its exit statuses. All of this is this project's choice; docs/use/formats.md has the texts and
//! the numbers.
//!
//! Callers rely on `end_status`. It returns exactly the status that `specs/Status` gives to a machine's fault and halt,
//! where a fault wins over a halt. `fault` has the reasons why the program may end without its output. Its tests are in
//! `crates/text_tests/src/operator_terms_tests.rt`. Begin with `Status` in `status`.
#![tactic(auto)]

mod budget;
mod fault;
mod status;

pub use budget::Budget;
pub use fault::ProgramFault;
pub use status::{Status, end_status};

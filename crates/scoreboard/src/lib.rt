//! The scoreboard: the registers that issued instructions have yet to read and to write, and the units that they hold
//! (Thornton, scoreboard; Control Data 60100000, register and unit conflicts).
//!
//! `Reservation` is one issued instruction by itself. `Board` keeps all of them in fixed fields, by unit, register and
//! load channel, and judges the three orders of conflict (docs/machine/rules.md).
//!
//! Callers rely on `Board::try_reserve`, `may_read`, `may_store` and `may_return`: each refuses exactly if
//! `specs/Conflicts` finds a conflict in the list of the issued instructions. `fields` has the board's queries of its
//! fields. The tests are in `crates/core_tests/src/board_tests.rt` and `crates/core_tests/src/reservation_tests.rt`.
//! Begin with `Board` in `board`.
#![tactic(auto)]

mod board;
mod fields;
mod instances;
mod issued;
mod reservation;
mod units;
mod writer;
mod writers;

pub use board::Board;
pub use instances::{a_reserved_result_is_refused, an_instruction_does_not_wait_for_itself};
pub use issued::Issued;
pub use reservation::{Occupancy, Reservation};
pub use units::{is_same_unit, unit_number};
pub use writer::Writer;
pub use writers::Writers;

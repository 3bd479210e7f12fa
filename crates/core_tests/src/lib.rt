//! Tests of the crates below `in_flight`, through their public items. This crate exports nothing.
//!
//! They cover cases that no deck, session or page in `decks/` can show: calls that the program doesn't make, values
//! that no text contains, and refusals that change nothing. There is a file for each crate or subject. `fixtures` has
//! words, registers and instructions in forms that constants can hold. The first table is `RESERVES_A_FREE_UNIT`: calls
//! to a new scoreboard, one a row, with the result of each. Begin with that table, in `board_tests`.
#![tactic(auto)]

#[cfg(test)]
mod board_tests;
#[cfg(test)]
mod exchange_package_tests;
#[cfg(test)]
mod fixtures;
#[cfg(test)]
mod hopper_tests;
#[cfg(test)]
mod instruction_table_tests;
#[cfg(test)]
mod instructions_tests;
#[cfg(test)]
mod parcel_tests;
#[cfg(test)]
mod per_unit_tests;
#[cfg(test)]
mod registers_tests;
#[cfg(test)]
mod relocation_tests;
#[cfg(test)]
mod reservation_tests;
#[cfg(test)]
mod sequential_tests;
#[cfg(test)]
mod unit_ops_tests;
#[cfg(test)]
mod word60_tests;

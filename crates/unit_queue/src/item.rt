//! The items that a lane carries.

use program_order::Note;

/// An item that a lane carries.
#[derive(Clone, Copy, Debug, Drop, PartialEq, Eq)]
pub enum Item {
    /// A reservation to serve.
    Work(Note),
    /// No more reservations come.
    Closed,
}

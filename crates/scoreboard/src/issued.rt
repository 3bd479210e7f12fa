use crate::Reservation;

/// An issued instruction with the number of its reservation.
#[derive(Clone, Copy, Debug, Drop, PartialEq, Eq)]
pub struct Issued {
    /// The number of the reservation, from 1 in issue order. No two are the same.
    pub number: u64,
    /// The instruction, its unit, and its progress.
    pub reservation: Reservation,
}

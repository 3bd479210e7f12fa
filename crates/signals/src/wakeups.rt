//! The events of one hold of the lock that other threads may wait for.

/// The kinds of event that a thread has made while it held the lock.
#[derive(Clone, Copy, Debug, Default, Drop, PartialEq, Eq)]
pub struct Wakeups {
    /// A store, an acceptance or a return: a unit, a register or a place of the hopper may be free.
    pub changed: bool,
    /// A read of operands: a result that was held for this reader may be stored or returned.
    pub read: bool,
    /// A store with a reference to memory, which the storage worker has to accept or to return.
    pub referred: bool,
    /// A request for an exchange.
    pub asked: bool,
    /// An exchange was made: another may be asked for.
    pub exchanged: bool,
}

//! The account of a unit's worker.
ghost use Rattle.std.specs.Prelude.{◌≡◌, true};
ghost use Rattle.unit_queue.specs.Lanes.{is_closed};

use instructions::Unit;
use machine::Seat;
use std::snapshot::Snapshot as GhostCopy;
use std::sync::Wait;
use unit_queue::{Lane, SendPass, TakePass};

/// The account of a unit's worker: the items that it took from its lane, which the lane's taking end remembers, and how
/// many of the notes among them were stored or strange.
#[derive(Drop)]
pub struct Tally {
    pub(crate) unit: Unit,
    pub(crate) stored: u64,
    pub(crate) strange: u64,
    pub(crate) pass: TakePass,
    /// The seat as it was given up, for contracts alone.
    pub(crate) left: GhostCopy<Seat>,
    ghost ended: { is_closed pass.got ≡ true },
}

impl Tally {
    /// The unit whose notes were served.
    pub fn unit(&self) -> Unit
        ensures { result ≡ self.now.unit }
    {
        self.unit
    }

    /// How many reservations were stored. The seat's count grew by as many.
    pub fn stored(&self) -> u64
        ensures { result ≡ self.now.stored }
    {
        self.stored
    }

    /// How many notes were strange: their claim or a later step was refused as `Stranger`.
    pub fn strange(&self) -> u64
        ensures { result ≡ self.now.strange }
    {
        self.strange
    }

    /// Ends the sending end of the lane: the notes taken are then the notes sent, each once, in order. Both passes have
    /// to be this lane's.
    pub fn settle<R: Wait>(&mut self, rt: &R, lane: &Lane, ended: SendPass)
        requires { (self.old.pass.id ≡ lane.now.id) × (ended.id ≡ lane.now.id) }
        ensures same { self.new ≡ self.old }
        ensures all { self.new.pass.got ≡ ended.sent }
    {
        lane.settle(rt, &mut self.pass, ended);
    }
}

//! The calls that a worker makes at two moments of each reservation.

ghost use Rattle.std.specs.Prelude.{◌≡◌, ◌∷◌, []};
ghost use Rattle.instructions.specs.PerUnit.{in_order};

use instructions::{PerUnit, Unit};

/// A hook that a unit's worker calls at two moments of each reservation, with the reservation's unit and number: before
/// it computes, and after it has stored. The worker holds no lock then, so a gate may wait for others.
pub trait Gate: Drop {
    /// Called before the worker computes, when it has read the operands.
    fn before(&mut self, unit: Unit, number: u64);

    /// Called after the result was stored.
    fn stored(&mut self, unit: Unit, number: u64);
}

/// A gate that never waits.
#[derive(Clone, Copy, Debug, Drop)]
pub struct Open;

impl Gate for Open {
    fn before(&mut self, _unit: Unit, _number: u64) {}

    fn stored(&mut self, _unit: Unit, _number: u64) {}
}

/// One gate for the worker of each unit.
#[derive(Drop)]
pub struct Gates<G: Gate> {
    pub branch: G,
    pub boolean: G,
    pub shift: G,
    pub long_add: G,
    pub divide: G,
    pub increment1: G,
    pub increment2: G,
}

impl<G: Gate> Gates<G> {
    /// The gates by unit.
    pub fn into_each(self) -> PerUnit<G>
        ensures { in_order result ≡ self.branch ∷ self.boolean ∷ self.shift ∷ self.long_add ∷ self.divide
            ∷ self.increment1 ∷ self.increment2 ∷ [] }
    {
        PerUnit {
            branch: self.branch,
            boolean: self.boolean,
            shift: self.shift,
            long_add: self.long_add,
            divide: self.divide,
            increment1: self.increment1,
            increment2: self.increment2,
        }
    }
}

ghost use Rattle.std.specs.Prelude.{◌≡◌};
ghost use Rattle.in_flight.specs.Flight.{relocated};

use relocation::{Access, Area, relocate};
use sequential::ProgramReference;

/// A reference by absolute address, before it enters the hopper.
#[derive(Clone, Copy, Debug, Drop, PartialEq, Eq)]
pub struct Relocated {
    /// The absolute address; `None` if it is out of range.
    pub address: Option<u32>,
    /// The access to the word there.
    pub access: Access,
}

impl Relocated {
    /// Relocates a reference, if there is one, to its absolute address in a memory of `size` words.
    #[tactic(auto, unfolding(crate::specs::Flight::relocated, sequential::specs::State::absolute))]
    pub fn of(area: &Area, size: u32, reference: &Option<ProgramReference>) -> Option<Relocated>
        ensures { result ≡ relocated (record { area = area.now; size = size }) reference.now }
    {
        match reference {
            None => None,
            Some(reference) => Some(Relocated {
                address: relocate(reference.address, area.ra, area.fl, size),
                access: reference.access,
            }),
        }
    }
}

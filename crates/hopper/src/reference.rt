ghost use Rattle.std.specs.Prelude.{◌≡◌, ◌<◌};
ghost use Rattle.hopper.specs.Hopper.{bank_of, keep_order, stores_to};

use relocation::{Access, BANKS};

/// The number of references that can wait at once (Thornton, stunt box). Places are numbered from 0.
pub const PLACES: usize = 4;

/// A reference to a word of memory.
#[derive(Clone, Copy, Debug, Drop, PartialEq, Eq)]
pub struct Reference {
    /// The absolute address.
    pub address: u32,
    /// The load or store at that address.
    pub access: Access,
}

/// The bank of an absolute address: its low five bits.
#[tactic(auto, unfolding(crate::specs::Hopper::bank_of))]
pub fn bank_of(address: u32) -> u8
    ensures value { result ≡ bank_of address }
    ensures range { result < 32 }
{
    (address % BANKS) as u8
}

impl Reference {
    /// Whether memory must take the two references in the order in which they entered: both are to the same absolute
    /// address, and at least one of them stores.
    #[tactic(auto, unfolding(crate::specs::Hopper::keep_order, crate::specs::Hopper::is_store))]
    pub fn keeps_order(&self, other: &Reference) -> bool
        ensures { result ≡ keep_order other.now.address other.now.access self.now.address self.now.access }
    {
        let is_store = |access: &Access| matches!(access, Access::Store(_));
        (is_store(&other.access) || is_store(&self.access)) && self.address == other.address
    }

    /// Whether the reference stores to an absolute address.
    #[tactic(auto, unfolding(crate::specs::Hopper::stores_to))]
    pub fn stores_to(&self, address: u32) -> bool
        ensures { result ≡ stores_to address self.now.address self.now.access }
    {
        match self.access {
            Access::Load(_) => false,
            Access::Store(_) => self.address == address,
        }
    }
}

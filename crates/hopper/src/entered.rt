ghost use Rattle.std.specs.Prelude.{◌≡◌};

use crate::Reference;
use instructions::Digit;
use relocation::Access;

/// A reference in its place of the hopper.
#[derive(Clone, Copy, Debug, Drop, PartialEq, Eq)]
pub struct Entered {
    /// The number of the place, 0 to 3.
    pub place: u8,
    /// The reference that waits there.
    pub reference: Reference,
}

/// A load from address 0 in place 0. It fills the unused positions of a list with fixed room.
impl Default for Entered {
    ghost use Rattle.relocation.specs.declared.area.Access.TheVariants.{Load};

    ghost is_default = { λ e. e ≡ record { place = 0; reference = record { address = 0; access = Load 0 } } };

    fn default() -> Entered {
        Entered {
            place: 0,
            reference: Reference {
                address: 0,
                access: Access::Load(Digit::default()),
            },
        }
    }
}

ghost use Rattle.std.specs.Prelude.{◌≡◌, ◌<◌};
ghost use Rattle.scoreboard.specs.Units.{unit_number, same_unit};

use instructions::Unit;

/// The number of a unit, 0 for Branch to 9 for Increment2 (this project's choice).
pub fn unit_number(unit: Unit) -> usize
    ensures value { result ≡ unit_number unit }
    ensures range { result < 10 }
{
    unit as usize
}

/// Whether the two are the same unit.
#[tactic(auto, unfolding(crate::specs::Units::same_unit))]
pub fn is_same_unit(unit: Unit, other: Unit) -> bool
    ensures { result ≡ same_unit unit other }
{
    unit == other
}

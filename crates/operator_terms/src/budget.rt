ghost use Rattle.std.specs.Prelude.{◌≡◌, ◌≤◌, SomeIff};

use instructions::MOST_ISSUES;
use std::marker::Model;

/// The largest number of instructions that a machine may issue: 1 to `MOST_ISSUES`.
#[derive(Clone, Copy, Debug, Drop, PartialEq, Eq)]
pub struct Budget {
    instructions: u64,
}

impl Model for Budget {
    ghost use Rattle.std.specs.Prelude.{ℕ, ◌≤◌};

    ghost Value = { ℕ };

    ghost view = { λ b. b.instructions };

    ghost invariant = { λ b. b.instructions ≤ 10000000 };

    ghost inverse = { λ n. record { instructions = n } };
}

impl Budget {
    /// The budget of this many instructions, or `None` if the number is 0 or above `MOST_ISSUES`.
    pub fn new(instructions: u64) -> Option<Budget>
        ensures { SomeIff result ((1 ≤ instructions) × (instructions ≤ 10000000)) instructions }
    {
        if instructions == 0 || instructions > MOST_ISSUES {
            return None;
        }
        Some(Budget { instructions })
    }

    /// The number of instructions.
    pub fn get(self) -> u64
        ensures value { result ≡ self }
        ensures range { result ≤ 10000000 }
    {
        self.instructions
    }
}

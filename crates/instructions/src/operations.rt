//! The opcode digit of each operation, for the instructions that cover several opcodes.

ghost use Rattle.std.specs.Prelude.{◌≡◌, ◌<◌};
ghost use Rattle.instructions.specs.Operations.{x_code, b_code, logic_code, direction_code, addition_code, target_code};
ghost use Rattle.instructions.specs.Operations.{base_code, pair_code};

use crate::{Addition, BTest, Base, Direction, Logic, Pair, Target, XTest};

impl XTest {
    /// The digit i of 030 to 037.
    pub fn code(self) -> u8
        ensures value { result ≡ x_code self }
        ensures range { result < 8 }
    {
        self as u8
    }
}

impl BTest {
    /// The digit m of 04 to 07.
    pub fn code(self) -> u8
        ensures value { result ≡ b_code self }
        ensures range { result < 8 }
    {
        match self {
            BTest::Equal => 4,
            BTest::NotEqual => 5,
            BTest::GreaterOrEqual => 6,
            BTest::Less => 7,
        }
    }
}

impl Logic {
    /// The digit m of 11 to 13 and 15 to 17.
    pub fn code(self) -> u8
        ensures value { result ≡ logic_code self }
        ensures range { result < 8 }
    {
        match self {
            Logic::And => 1,
            Logic::Or => 2,
            Logic::Xor => 3,
            Logic::AndNot => 5,
            Logic::OrNot => 6,
            Logic::XorNot => 7,
        }
    }
}

impl Direction {
    /// The digit m of 20 and 21. For 22 and 23, m is this plus 2.
    pub fn code(self) -> u8
        ensures value { result ≡ direction_code self }
        ensures range { result < 2 }
    {
        match self {
            Direction::Left => 0,
            Direction::Right => 1,
        }
    }
}

impl Addition {
    /// The digit m of 36 and 37.
    pub fn code(self) -> u8
        ensures value { result ≡ addition_code self }
        ensures range { result < 8 }
    {
        match self {
            Addition::Sum => 6,
            Addition::Difference => 7,
        }
    }
}

impl Target {
    /// The digit f of 50 to 77.
    pub fn code(self) -> u8
        ensures value { result ≡ target_code self }
        ensures range { result < 8 }
    {
        match self {
            Target::A => 5,
            Target::B => 6,
            Target::X => 7,
        }
    }
}

impl Base {
    /// The digit m of an increment that adds K to a register.
    pub fn code(self) -> u8
        ensures value { result ≡ base_code self }
        ensures range { result < 8 }
    {
        match self {
            Base::A => 0,
            Base::B => 1,
            Base::X => 2,
        }
    }
}

impl Pair {
    /// The digit m of an increment that adds or subtracts two registers.
    pub fn code(self) -> u8
        ensures value { result ≡ pair_code self }
        ensures range { result < 8 }
    {
        match self {
            Pair::XPlusB => 3,
            Pair::APlusB => 4,
            Pair::AMinusB => 5,
            Pair::BPlusB => 6,
            Pair::BMinusB => 7,
        }
    }
}

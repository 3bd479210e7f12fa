ghost use Rattle.std.specs.Prelude.{◌≡◌};
ghost use Rattle.scoreboard.specs.Reservations.{returning_to, to_come, reads, comes, reads_it, holds};
ghost use Rattle.scoreboard.specs.Reservations.{is_branch, has_turn, has_store_turn, is_reserved};
ghost use Rattle.instructions.specs.Operands.{reg_eq};
ghost use Rattle.instructions.specs.RegisterLists.{is_in};

use arrayvec::ArrayVec;
use instructions::{Digit, Instr, Reg, Unit, results, sources};

/// The progress of an issued instruction, as the scoreboard sees it.
#[derive(Clone, Copy, Debug, Drop, PartialEq, Eq)]
pub enum Occupancy {
    /// The instruction holds its unit.
    Reserved {
        /// Whether the instruction has read its operands.
        has_read: bool,
    },
    /// The instruction has had its store event and left its unit.
    Left {
        /// The number of the X register that its load is still to write, if it is a load.
        returning: Option<Digit>,
    },
}

/// An issued instruction as the scoreboard sees it.
#[derive(Clone, Copy, Debug, Drop, PartialEq, Eq)]
pub struct Reservation {
    /// The instruction.
    pub instr: Instr,
    /// The unit that the instruction was issued to.
    pub unit: Unit,
    /// The instruction's progress.
    pub occupancy: Occupancy,
}

/// The X register of this number as a list, empty if there is no number.
#[tactic(auto, unfolding(crate::specs::Reservations::returning_to))]
fn returning_to(number: Option<Digit>) -> ArrayVec<Reg, 2>
    ensures { result.items ≡ returning_to number }
{
    let mut registers = ArrayVec::new();
    if let Some(number) = number {
        registers.push(Reg::X(number));
    }
    registers
}

/// Whether the register is in the list.
#[tactic(auto, unfolding(instructions::specs::RegisterLists::is_in))]
fn is_among(registers: &[Reg], register: &Reg) -> bool
    ensures { result ≡ is_in registers.now register.now }
{
    registers.iter().any(
        |other|
            ensures { result ≡ reg_eq register.entry.now other.now }
        { register == other },
    )
}

impl Reservation {
    /// Whether the instruction holds a unit.
    #[tactic(auto, unfolding(crate::specs::Reservations::is_reserved))]
    fn is_reserved(&self) -> bool
        ensures { result ≡ is_reserved self.now.occupancy }
    {
        match self.occupancy {
            Occupancy::Reserved { .. } => true,
            Occupancy::Left { .. } => false,
        }
    }

    /// The results still to come of the instruction.
    #[tactic(auto, unfolding(crate::specs::Reservations::to_come, crate::specs::Reservations::to_come_in))]
    pub fn to_come(&self) -> ArrayVec<Reg, 2>
        ensures { result.items ≡ to_come self.now }
    {
        match self.occupancy {
            Occupancy::Reserved { .. } => results(&self.instr),
            Occupancy::Left { returning } => returning_to(returning),
        }
    }

    /// The sources that the instruction has yet to read.
    #[tactic(auto, unfolding(crate::specs::Reservations::reads, crate::specs::Reservations::reads_in))]
    pub fn reads(&self) -> ArrayVec<Reg, 3>
        ensures { result.items ≡ reads self.now }
    {
        match self.occupancy {
            Occupancy::Reserved { has_read: false } => sources(&self.instr),
            Occupancy::Reserved { has_read: true } => ArrayVec::new(),
            Occupancy::Left { .. } => ArrayVec::new(),
        }
    }

    /// Whether the register is a result still to come of the instruction.
    #[tactic(auto, unfolding(crate::specs::Reservations::comes))]
    pub fn has_to_come(&self, register: &Reg) -> bool
        ensures { result ≡ comes register.now self.now }
    {
        is_among(self.to_come().as_slice(), register)
    }

    /// Whether the register is a source that the instruction has yet to read.
    #[tactic(auto, unfolding(crate::specs::Reservations::reads_it))]
    pub fn has_to_read(&self, register: &Reg) -> bool
        ensures { result ≡ reads_it register.now self.now }
    {
        is_among(self.reads().as_slice(), register)
    }

    /// Whether the instruction holds the unit.
    #[tactic(auto, unfolding(crate::specs::Reservations::holds, crate::specs::Units::same_unit))]
    pub fn holds(&self, unit: Unit) -> bool
        ensures { result ≡ holds unit self.now }
    {
        self.unit == unit && self.is_reserved()
    }

    /// Whether the instruction is a branch that holds its unit.
    #[tactic(auto, unfolding(crate::specs::Reservations::is_branch))]
    pub fn is_branch(&self) -> bool
        ensures { result ≡ is_branch self.now }
    {
        self.is_reserved() && self.instr.is_branch()
    }

    /// Whether the instruction makes a reference that has yet to have its store event.
    #[tactic(auto, unfolding(crate::specs::Reservations::has_turn))]
    pub fn has_turn(&self) -> bool
        ensures { result ≡ has_turn self.now }
    {
        self.is_reserved() && self.instr.has_reference()
    }

    /// Whether the instruction is an SA6 or SA7 that has yet to have its store event.
    #[tactic(auto, unfolding(crate::specs::Reservations::has_store_turn))]
    pub fn has_store_turn(&self) -> bool
        ensures { result ≡ has_store_turn self.now }
    {
        self.is_reserved() && self.instr.has_store() && !self.instr.is_branch()
    }
}

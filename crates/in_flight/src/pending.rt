ghost use Rattle.std.specs.Prelude.{◌≡◌};
ghost use Rattle.in_flight.specs.Lookup.{stage_at, arrival_at, entry_at};
ghost use Rattle.in_flight.specs.Pending.{delays_access, delays_fetch, has_read, holds_back, is_before, is_entered};
ghost use Rattle.in_flight.specs.Pending.{occupancy_of, reservation_of, returning, stores_in, waits_in};

use hopper::Reference;
use instructions::{Digit, Instr, Unit};
use relocation::Access;
use scoreboard::{Occupancy, Reservation};
use unit_ops::{Operands, UnitValue};
use word60::{Word18, Word60};

/// The stage of an instruction in its unit.
#[derive(Clone, Copy, Debug, Drop, PartialEq, Eq)]
pub enum Stage {
    /// Its operands are still to be read.
    Unread,
    /// Its operands were read.
    Read(Operands),
    /// It has its value.
    Finished(UnitValue),
}

/// The rest of an instruction after its store event.
#[derive(Clone, Copy, Debug, Drop, PartialEq, Eq)]
pub enum Outstanding {
    /// A reference that waits in a place of the hopper (0 to 3): the place, the absolute address and the access to the
    /// word there.
    Entered(u8, u32, Access),
    /// A load that waits in its channel (1 to 5, the number of its X register) with its word.
    Accepted(Digit, Word60),
}

/// The phase of an instruction: before or after its store event.
#[derive(Clone, Copy, Debug, Drop, PartialEq, Eq)]
pub enum Phase {
    /// It holds its unit.
    Before(Stage),
    /// It has made its store event and left its unit.
    After(Outstanding),
}

/// An issued instruction with an effect still to come.
#[derive(Clone, Copy, Debug, Drop, PartialEq, Eq)]
pub struct Pending {
    pub instr: Instr,
    /// The address of the instruction's word.
    pub at: Word18,
    /// The number of its reservation, counted from 1 since boot.
    pub number: u64,
    pub unit: Unit,
    pub phase: Phase,
}

/// A load that waits in its channel.
#[derive(Clone, Copy, Debug, Drop, PartialEq, Eq)]
pub struct Arrival {
    /// The channel, which is the number of the X register.
    pub channel: Digit,
    pub word: Word60,
}

/// A pass that was never issued, with the number 0. It fills the empty elements of lists of a fixed size.
impl Default for Pending {
    ghost use Rattle.instructions.specs.declared.instr.Instr.TheVariants.{Pass};
    ghost use Rattle.instructions.specs.declared.instr.Unit.TheVariants.{Branch};
    ghost use Rattle.in_flight.specs.declared.pending.Stage.TheVariants.{Unread};
    ghost use Rattle.in_flight.specs.declared.pending.Phase.TheVariants.{Before};

    ghost is_default = { λ p. p ≡ record { instr = Pass; at = 0; number = 0; unit = Branch; phase = Before Unread } };

    fn default() -> Pending {
        Pending {
            instr: Instr::Pass,
            at: Word18::default(),
            number: 0,
            unit: Unit::Branch,
            phase: Phase::Before(Stage::Unread),
        }
    }
}

impl Stage {
    /// Whether the instruction has read its operands.
    #[tactic(auto, unfolding(crate::specs::Pending::has_read))]
    fn has_read(&self) -> bool
        ensures { result ≡ has_read self.now }
    {
        match self {
            Stage::Unread => false,
            Stage::Read(_) => true,
            Stage::Finished(_) => true,
        }
    }
}

impl Outstanding {
    /// The number of the X register that the load is still to write. `None` for a store.
    #[tactic(auto, unfolding(crate::specs::Pending::returning))]
    fn returning(&self) -> Option<Digit>
        ensures { result ≡ returning self.now }
    {
        match *self {
            Outstanding::Entered(_, _, Access::Load(number)) => Some(number),
            Outstanding::Entered(_, _, Access::Store(_)) => None,
            Outstanding::Accepted(number, _) => Some(number),
        }
    }
}

impl Phase {
    /// The phase as the scoreboard sees it.
    #[tactic(auto, unfolding(crate::specs::Pending::occupancy_of))]
    fn occupancy(&self) -> Occupancy
        ensures { result ≡ occupancy_of self.now }
    {
        match self {
            Phase::Before(stage) => Occupancy::Reserved {
                has_read: stage.has_read(),
            },
            Phase::After(left) => Occupancy::Left {
                returning: left.returning(),
            },
        }
    }

    /// Whether a reference to this absolute address waits in the hopper.
    #[tactic(auto, unfolding(crate::specs::Pending::waits_in))]
    fn waits_for(&self, given: u32) -> bool
        ensures { result ≡ waits_in given self.now }
    {
        match *self {
            Phase::Before(_) => false,
            Phase::After(Outstanding::Entered(_, address, _)) => address == given,
            Phase::After(Outstanding::Accepted(_, _)) => false,
        }
    }

    /// Whether a store to this absolute address waits in the hopper.
    #[tactic(auto, unfolding(crate::specs::Pending::stores_in))]
    fn stores_to(&self, given: u32) -> bool
        ensures { result ≡ stores_in given self.now }
    {
        match *self {
            Phase::Before(_) => false,
            Phase::After(Outstanding::Entered(_, address, access)) => {
                Reference { address, access }.stores_to(given)
            }
            Phase::After(Outstanding::Accepted(_, _)) => false,
        }
    }
}

impl Pending {
    /// The instruction as the scoreboard sees it.
    #[tactic(auto, unfolding(crate::specs::Pending::reservation_of))]
    pub fn reservation(&self) -> Reservation
        ensures { result ≡ reservation_of self.now }
    {
        Reservation {
            instr: self.instr,
            unit: self.unit,
            occupancy: self.phase.occupancy(),
        }
    }

    /// Whether the instruction was issued before the reservation with this number.
    #[tactic(auto, unfolding(crate::specs::Pending::is_before))]
    pub fn is_before(&self, number: u64) -> bool
        ensures { result ≡ is_before number self.now }
    {
        self.number < number
    }

    /// Whether the instruction's reference waits in the hopper.
    #[tactic(auto, unfolding(crate::specs::Pending::is_entered, crate::specs::Pending::entered_in))]
    pub fn is_entered(&self) -> bool
        ensures { result ≡ is_entered self.now }
    {
        match self.phase {
            Phase::Before(_) => false,
            Phase::After(Outstanding::Entered(_, _, _)) => true,
            Phase::After(Outstanding::Accepted(_, _)) => false,
        }
    }

    /// Whether the instruction's reference waits in the hopper and holds back this later one.
    #[tactic(auto, unfolding(crate::specs::Pending::holds_back, crate::specs::Pending::holds_back_in))]
    pub fn holds_back(&self, later: &Reference) -> bool
        ensures { result ≡ holds_back later.now.address later.now.access self.now }
    {
        match self.phase {
            Phase::Before(_) => false,
            Phase::After(Outstanding::Entered(_, address, access)) => {
                Reference { address, access }.keeps_order(later)
            }
            Phase::After(Outstanding::Accepted(_, _)) => false,
        }
    }

    /// Whether a fetch of the word at the absolute address waits for the instruction.
    #[tactic(auto, unfolding(crate::specs::Pending::delays_fetch))]
    pub fn delays_fetch(&self, address: u32) -> bool
        ensures { result ≡ delays_fetch address self.now }
    {
        self.reservation().has_store_turn() || self.phase.stores_to(address)
    }

    /// Whether a peripheral access to the word at the absolute address waits for the instruction.
    #[tactic(auto, unfolding(crate::specs::Pending::delays_access))]
    pub fn delays_access(&self, address: u32) -> bool
        ensures { result ≡ delays_access address self.now }
    {
        self.reservation().has_turn() || self.phase.waits_for(address)
    }

    /// The reference that waits in this place of the hopper, if this is the instruction's.
    #[tactic(auto, unfolding(crate::specs::Lookup::entry_at, crate::specs::Lookup::entry_in))]
    pub(crate) fn entry_in(&self, given: u8) -> Option<Reference>
        ensures { result ≡ entry_at given self.now }
    {
        match self.phase {
            Phase::Before(_) => None,
            Phase::After(Outstanding::Accepted(_, _)) => None,
            Phase::After(Outstanding::Entered(place, address, access)) => if place == given {
                Some(Reference { address, access })
            } else {
                None
            },
        }
    }

    /// The load that waits in this channel, if this is the instruction's.
    #[tactic(auto, unfolding(crate::specs::Lookup::arrival_at, crate::specs::Lookup::arrival_in))]
    pub(crate) fn arrival_in(&self, given: u8) -> Option<Arrival>
        ensures { result ≡ arrival_at given self.now }
    {
        match self.phase {
            Phase::Before(_) => None,
            Phase::After(Outstanding::Entered(_, _, _)) => None,
            Phase::After(Outstanding::Accepted(channel, word)) => if channel.get() == given {
                Some(Arrival { channel, word })
            } else {
                None
            },
        }
    }
}

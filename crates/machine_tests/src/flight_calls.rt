//! Calls on the instructions in flight, with the answer of each, for the tests.

ghost use Rattle.std.specs.Prelude.{◌≡◌};
ghost use Rattle.instructions.specs.Shape.{shape_of};
ghost use Rattle.in_flight.specs.Flight.{IsRestOf};

use hopper::Reference;
use in_flight::{Arrival, InFlight, Pending, Phase, Relocated, Stage};
use instruction_table::read_text;
use instructions::{Addends, Digit, Instr, Pair, Refusal, Reg, Unit};
use registers::RegisterFile;
use relocation::{Access, Storage};
use std::marker::Model;
use unit_ops::{Operands, UnitValue};
use word60::{Word18, Word60};

/// A reference that would enter the hopper.
fn in_range() -> Option<Relocated> {
    Some(Relocated {
        address: Some(0),
        access: Access::Store(Word60::default()),
    })
}

/// A call. An instruction is given as text.
#[derive(Clone, Copy, Drop)]
pub enum Call {
    Reserve(&'static str),
    Read(Unit),
    /// Gives the unit the value 5, if its instruction has read its operands.
    Finish(Unit),
    MayStore(Unit),
    BankFree(u8),
    IsEmpty,
    IsBranchHeld,
    DelaysFetch(u32),
    IsBankBusy(u8),
    Find(Unit),
    Oldest,
}

#[derive(Clone, Copy, Drop, PartialEq, Eq)]
pub enum Answer {
    /// The event may be made, or the call is done.
    Fine,
    Reserved(Unit, u64),
    Refused(Refusal),
    Truth(bool),
    /// The number of the reservation that was found, and the stage of its instruction.
    At(u64, Stage),
    /// The number of the oldest reservation.
    Number(u64),
    /// Nothing was found.
    Free,
    /// The text is not an instruction.
    NoText,
}

pub const FINE: Answer = Answer::Fine;

pub const YES: Answer = Answer::Truth(true);

pub const NO: Answer = Answer::Truth(false);

/// Reserving a unit for the instruction with this text returns this unit and number.
pub fn reserves(text: &'static str, unit: Unit, number: u64) -> (Call, Answer) {
    (Call::Reserve(text), Answer::Reserved(unit, number))
}

pub fn refused(call: Call, refusal: Refusal) -> (Call, Answer) {
    (call, Answer::Refused(refusal))
}

pub fn x(number: u16) -> Reg {
    Reg::X(Digit::low(number))
}

/// B0+B0.
pub fn no_addends() -> Addends {
    Addends::Registers {
        pair: Pair::BPlusB,
        j: Digit::default(),
        k: Digit::default(),
    }
}

/// The value that every unit finishes with.
pub fn five() -> UnitValue {
    UnitValue::Word(Word60::from_bits(5))
}

/// Registers with 3 in X1, 4 in X2 and +0 in the others.
pub fn registers() -> RegisterFile {
    let mut file = RegisterFile::default();
    file.set(x(1), Word60::from_bits(3));
    file.set(x(2), Word60::from_bits(4));
    file
}

/// The operands that IX3 X1+X2, in the word at this address, reads from those registers.
pub fn three_and_four(at: Word18) -> Operands {
    Operands {
        first: Word60::from_bits(3),
        second: Word60::from_bits(4),
        outgoing: Word60::default(),
        place: at,
    }
}

/// The answer of an acceptance with nothing in flight.
pub fn accept_at_boot(place: u8, memory: &Storage) -> Result<Reference, Refusal> {
    let mut flight = InFlight::new();
    flight.accept(place, memory)
}

/// The answer of a return with nothing in flight.
pub fn return_at_boot(channel: u8) -> Result<Arrival, Refusal> {
    let mut flight = InFlight::new();
    flight.return_load(channel)
}

/// Whether nothing is in flight after a free unit is left.
#[tactic(auto, unfolding(in_flight::proofs::Opened::leaving))]
pub fn is_empty_after_leave(unit: Unit) -> bool {
    let mut flight = InFlight::new();
    flight.leave(unit, &None);
    flight.is_empty()
}

/// The instructions in flight after a single instruction made its store event and left this.
pub fn left_alone(instr: &Instr, rest: &Option<Relocated>) -> Option<InFlight>
    requires { IsRestOf (shape_of instr.now) rest.now }
{
    let mut flight = InFlight::new();
    let unit = match flight.reserve(instr, Word18::default()) {
        Ok((unit, _)) => unit,
        Err(_) => return None,
    };
    flight.leave(unit, rest);
    Some(flight)
}

/// The first reservation after boot, of the instruction IX3 X1+X2 at this address.
pub fn first_add(instr: Instr, at: Word18, stage: Stage) -> Pending {
    Pending {
        instr,
        at,
        number: 1,
        unit: Unit::LongAdd,
        phase: Phase::Before(stage),
    }
}

/// The instructions in flight, and a bound on the number of reservations made.
#[derive(Drop)]
pub struct Counted {
    flight: InFlight,
    bound: u64,
}

impl Model for Counted {
    ghost use Rattle.std.specs.Prelude.{◌≤◌};
    ghost use Rattle.in_flight.specs.Flight.{Flight};

    ghost Value = { Flight };

    ghost view = { λ c. c.flight };

    ghost invariant = { λ c. c.flight.last ≤ c.bound };
}

/// The answer of a judgement.
fn judged(judgement: Result<(), Refusal>) -> Answer {
    match judgement {
        Ok(()) => Answer::Fine,
        Err(refusal) => Answer::Refused(refusal),
    }
}

/// Gives the unit the value 5, if its instruction has read its operands.
#[tactic(auto, unfolding(in_flight::specs::Pending::has_read))]
fn finish(flight: &mut InFlight, unit: Unit) -> Answer
    ensures { flight.new.last ≡ flight.old.last }
{
    let Some(found) = flight.find(unit) else {
        return Answer::Free;
    };
    let Stage::Read(_) = found.answer else {
        return Answer::Free;
    };
    flight.finish(unit, five());
    Answer::Fine
}

/// The number and the stage of the unit's instruction.
fn find(flight: &InFlight, unit: Unit) -> Answer {
    match flight.find(unit) {
        Some(found) => Answer::At(found.pending.number, found.answer),
        None => Answer::Free,
    }
}

/// The number of the oldest reservation.
fn oldest(flight: &InFlight) -> Answer {
    match flight.oldest() {
        Some(pending) => Answer::Number(pending.number),
        None => Answer::Free,
    }
}

impl Counted {
    fn new() -> Counted {
        Counted {
            flight: InFlight::new(),
            bound: 0,
        }
    }

    /// Reserves a unit for the instruction, of the word at +0.
    fn reserve(&mut self, instr: &Instr) -> Answer {
        if self.bound >= 1000 {
            return Answer::NoText;
        }
        self.bound += 1;
        match self.flight.reserve(instr, Word18::default()) {
            Ok((unit, number)) => Answer::Reserved(unit, number),
            Err(refusal) => Answer::Refused(refusal),
        }
    }

    fn reserve_text(&mut self, text: &str) -> Answer {
        match read_text(text) {
            Some(instr) => self.reserve(&instr),
            None => Answer::NoText,
        }
    }

    fn read(&mut self, unit: Unit) -> Answer {
        match self.flight.read(unit, &registers()) {
            Ok(_) => Answer::Fine,
            Err(refusal) => Answer::Refused(refusal),
        }
    }

    fn make(&mut self, call: Call) -> Answer {
        match call {
            Call::Reserve(text) => self.reserve_text(text),
            Call::Read(unit) => self.read(unit),
            Call::Finish(unit) => finish(&mut self.flight, unit),
            Call::MayStore(unit) => judged(self.flight.may_store(unit, &in_range())),
            Call::BankFree(bank) => judged(self.flight.bank_free(bank)),
            Call::IsEmpty => Answer::Truth(self.flight.is_empty()),
            Call::IsBranchHeld => Answer::Truth(self.flight.is_branch_held()),
            Call::DelaysFetch(address) => Answer::Truth(self.flight.delays_fetch(address)),
            Call::IsBankBusy(bank) => Answer::Truth(self.flight.is_bank_busy(bank)),
            Call::Find(unit) => find(&self.flight, unit),
            Call::Oldest => oldest(&self.flight),
        }
    }
}

/// Makes the calls with nothing in flight at first. Returns the index of the first call with another answer than the
/// expected one; `None` if there is no such call.
pub fn first_wrong(calls: &[(Call, Answer)]) -> Option<usize> {
    let mut counted = Counted::new();
    for index in 0..calls.len() {
        let (call, wanted) = calls[index];
        if counted.make(call) != wanted {
            return Some(index);
        }
    }
    None
}

ghost use Rattle.std.specs.Prelude.{◌≡◌, ◌<◌, ◌+◌, ◌^◌, suc, [], ◌∷◌, true, false, not, is_none, slice_index_or};
ghost use Rattle.std.specs.Prelude.{slice_set, replicate, length, IfOk, IfSome, MatchResult, unwrap_or, Some, None};
ghost use Rattle.std.specs.List.{list_any};
ghost use Rattle.instructions.specs.Each.{Pairs};
ghost use Rattle.instructions.specs.Shape.{shape_of};
ghost use Rattle.hopper.specs.Hopper.{bank_of};
ghost use Rattle.hopper.specs.Queue.{place_for as free_in};
ghost use Rattle.sequential.specs.declared.fetching.Fetched.TheVariants.{Taking};
ghost use Rattle.sequential.specs.declared.position.ProgramPosition.{ProgramPosition as SomePosition};
ghost use Rattle.sequential.specs.Work.{operands};
ghost use Rattle.in_flight.specs.declared.pending.Phase.TheVariants.{Before};
ghost use Rattle.in_flight.specs.declared.pending.Stage.{Stage as SomeStage};
ghost use Rattle.in_flight.specs.declared.pending.Stage.TheVariants.{Unread, Read, Finished};
ghost use Rattle.in_flight.specs.Tests.{refusal_in, store_conflicts, refusal_of, tests_found};
ghost use Rattle.in_flight.specs.Tests.{reservation_tests, read_tests};
ghost use Rattle.in_flight.specs.Tests.{accept_tests, return_tests, free_tests};
ghost use Rattle.in_flight.specs.Flight.{left_by, outstanding_of, IsRestOf, unit_taken, reserved_in, with_pending};
ghost use Rattle.in_flight.specs.Pending.{has_read, is_branch, delays_fetch, delays_access};
ghost use Rattle.in_flight.specs.Lookup.{first_of, located, stage_at, entry_at, arrival_at, in_phase, kept, enters};
ghost use Rattle.in_flight.specs.Lookup.{place_for, is_pending};
ghost use Rattle.instructions.specs.Finding.{replaced, Found, seek};
ghost use Rattle.in_flight.specs.inner.OwnSlots.{HasOwnSlots};
ghost use Rattle.in_flight.specs.Apart.{IsApart};

use crate::slots::{SLOTS, Slots};
use crate::{Arrival, Located, Outstanding, Pending, Phase, Relocated, Stage};
use arrayvec::ArrayVec;
use hopper::{Hopper, Reference};
use instructions::{Instr, Refusal, Unit};
use registers::RegisterFile;
use relocation::{Access, Storage};
use scoreboard::Board;
use sequential::operands;
use std::marker::Model;
use unit_ops::{Operands, UnitValue};
use word60::{Word18, Word60};

/// The instructions with an effect still to come, each in its unit, place or channel, together with the scoreboard and
/// the hopper, which judge them.
#[derive(Drop)]
pub struct InFlight {
    slots: Slots,
    board: Board,
    hopper: Hopper,
}

impl Model for InFlight {
    ghost use Rattle.in_flight.specs.Flight.{Flight, flight_of};
    ghost use Rattle.in_flight.specs.inner.Board.{IsTied};

    ghost Value = { Flight };

    ghost view = { λ f. flight_of f.slots f.hopper f.board };

    ghost invariant = { λ f. IsTied f.slots f.hopper f.board };
}

/// An instruction that waits, and the operands that it reads.
fn reading(pending: &Pending, registers: &RegisterFile) -> (Pending, Operands)
    ensures pending { result.0 ≡ pending.now }
    ensures operands { result.1 ≡ operands pending.now.instr pending.now.at registers.now }
{
    let read = operands(&pending.instr, pending.at, registers);
    (*pending, read)
}

impl InFlight {
    /// No instruction in flight, and all banks free.
    pub fn new() -> InFlight
        ensures { result ≡ record { pending = []; busy = replicate 32 false; last = 0 } }
    {
        InFlight {
            slots: Slots::new(),
            board: Board::new(),
            hopper: Hopper::new(),
        }
    }

    /// Whether nothing is pending.
    #[tactic(auto, using(crate::proofs::answering::Beside::nothing_pending))]
    pub fn is_empty(&self) -> bool
        ensures { result ≡ not (is_pending self.now.pending) }
    {
        self.slots.is_empty()
    }

    /// Whether an instruction holds Branch.
    #[tactic(auto, using(crate::proofs::answering::Beside::branch_held))]
    pub fn is_branch_held(&self) -> bool
        ensures { result ≡ list_any is_branch self.now.pending }
    {
        self.board.is_branch_held()
    }

    /// Whether a fetch of the word at the absolute address waits for a store.
    pub fn delays_fetch(&self, address: u32) -> bool
        ensures { result ≡ list_any (delays_fetch address) self.now.pending }
    {
        self.board.has_store_to_come() || self.hopper.store_for(address)
    }

    /// Whether a peripheral access to the word at the absolute address waits for a reference.
    pub fn delays_access(&self, address: u32) -> bool
        ensures { result ≡ list_any (delays_access address) self.now.pending }
    {
        self.board.has_reference_to_come() || self.hopper.waits_for(address)
    }

    /// Whether a bank is busy; `false` if there is no such bank.
    pub fn is_bank_busy(&self, bank: u8) -> bool
        ensures { result ≡ slice_index_or self.now.busy bank false }
    {
        self.hopper.is_bank_busy(bank)
    }

    /// The instruction that holds the unit, with its stage.
    pub fn find(&self, unit: Unit) -> Option<Located<Stage>>
        ensures { result ≡ located (seek (stage_at unit) self.now.pending) }
    {
        self.slots.find_stage(unit)
    }

    /// The instruction whose reference waits in a place of the hopper, with the reference. `None` if the place is free.
    pub fn find_entry(&self, place: u8) -> Option<Located<Reference>>
        requires { place < 4 }
        ensures { result ≡ located (seek (entry_at place) self.now.pending) }
    {
        self.slots.find_entry(place)
    }

    /// The instruction whose load waits in a load channel, with its word. `None` if no load waits there.
    pub fn find_arrival(&self, channel: u8) -> Option<Located<Arrival>>
        ensures { result ≡ located (seek (arrival_at channel) self.now.pending) }
    {
        self.slots.find_arrival(channel)
    }

    /// The oldest instruction in flight.
    pub fn oldest(&self) -> Option<Pending>
        ensures { result ≡ first_of self.now.pending }
    {
        self.slots.oldest()
    }

    /// The instructions in flight, in issue order.
    pub fn pending(&self) -> ArrayVec<Pending, SLOTS>
        ensures { result.items ≡ self.now.pending }
    {
        self.slots.pending()
    }

    /// First order: the unit that an issue of an instruction would reserve, and the number of that reservation.
    ///
    /// # Errors
    /// The first that applies: `UnitBusy` or `ResultReserved`.
    pub fn may_reserve(&self, instr: &Instr) -> Result<(Unit, u64), Refusal>
        requires number { self.now.last + 1 < 2 ^ 64 }
        ensures answer { (place : SomePosition)
            → refusal_of (reservation_tests self.now.pending (Taking instr.now place)) ≡ refusal_in result }
        ensures reservation { IfOk result
            (λ reserved. (reserved.0 ≡ unit_taken self.now instr.now) × (reserved.1 ≡ suc self.now.last)) }
    {
        self.board.may_reserve(instr)
    }

    /// First order: reserves a unit for an instruction of the word at `at`. Returns the unit and the reservation's
    /// number.
    ///
    /// # Errors
    /// The first that applies: `UnitBusy` or `ResultReserved`.
    pub fn reserve(&mut self, instr: &Instr, at: Word18) -> Result<(Unit, u64), Refusal>
        requires number { self.old.last + 1 < 2 ^ 64 }
        ensures answer { (place : SomePosition)
            → refusal_of (reservation_tests self.old.pending (Taking instr.now place)) ≡ refusal_in result }
        ensures reservation { IfOk result
            (λ reserved. (reserved.0 ≡ unit_taken self.old instr.now) × (reserved.1 ≡ suc self.old.last)) }
        ensures after { MatchResult result (λ reserved. self.new ≡ reserved_in self.old instr.now at)
            (λ refusal. self.new ≡ self.old) }
    {
        let reserved = self.board.try_reserve(instr);
        if let Ok((unit, number)) = reserved {
            self.slots.push(Pending {
                instr: *instr,
                at,
                number,
                unit,
                phase: Phase::Before(Stage::Unread),
            });
        }
        reserved
    }

    /// Second order: the instruction in the unit, if it may read its operands.
    ///
    /// # Errors
    /// The first that applies: `Nothing` or `OperandAwaited`.
    pub fn may_read(&self, unit: Unit) -> Result<Pending, Refusal>
        ensures answer { refusal_of (tests_found (seek (stage_at unit) self.now.pending)
            (λ f. read_tests f.answer f.earlier f.item.instr)) ≡ refusal_in result }
        ensures pending { IfOk result (λ pending. located (seek (stage_at unit) self.now.pending)
            ≡ Some (record { pending = pending; answer = Unread })) }
    {
        let Some(found) = self.slots.find_stage(unit) else {
            return Err(Refusal::Nothing);
        };
        let Stage::Unread = found.answer else {
            return Err(Refusal::Nothing);
        };
        self.board.may_read(unit)?;
        Ok(found.pending)
    }

    /// Second order: reads the operands of the unit's instruction. Returns the instruction as it waited, and the
    /// operands.
    ///
    /// # Errors
    /// The first that applies: `Nothing` or `OperandAwaited`.
    pub fn read(
        &mut self,
        unit: Unit,
        registers: &RegisterFile,
    ) -> Result<(Pending, Operands), Refusal>
        ensures answer { refusal_of (tests_found (seek (stage_at unit) self.old.pending)
            (λ f. read_tests f.answer f.earlier f.item.instr)) ≡ refusal_in result }
        ensures pending { IfOk result (λ read. located (seek (stage_at unit) self.old.pending)
            ≡ Some (record { pending = read.0; answer = Unread })) }
        ensures operands { IfOk result (λ read. read.1 ≡ operands read.0.instr read.0.at registers.now) }
        ensures after { MatchResult result
            (λ read. self.new ≡ with_pending self.old
            (replaced (seek (stage_at unit) self.old.pending) self.old.pending
            (λ m. in_phase m (Before (Read read.1)) ∷ [])))
            (λ refusal. self.new ≡ self.old) }
    {
        let pending = match self.may_read(unit) {
            Ok(pending) => pending,
            Err(refusal) => return Err(refusal),
        };
        let read = reading(&pending, registers);
        self.slots.set_stage(unit, Stage::Read(read.1));
        self.board.mark_read(unit);
        Ok(read)
    }

    /// Gives its value to the unit's instruction, which has read its operands.
    pub fn finish(&mut self, unit: Unit, value: UnitValue)
        requires { IfSome (located (seek (stage_at unit) self.old.pending)) (λ s. has_read s.answer ≡ true) }
        ensures { self.new ≡ with_pending self.old
            (replaced (seek (stage_at unit) self.old.pending) self.old.pending
            (λ m. in_phase m (Before (Finished value)) ∷ [])) }
    {
        self.slots.set_stage(unit, Stage::Finished(value));
    }

    /// Judges a store event by third order, the hopper's room for a reference that would enter, and the turn of
    /// references.
    ///
    /// # Errors
    /// The first that applies: `ResultHeld`, `HopperFull` or `OutOfTurn`.
    pub fn may_store(&self, unit: Unit, rest: &Option<Relocated>) -> Result<(), Refusal>
        ensures { (f : Found Pending SomeStage) → seek (stage_at unit) self.now.pending ≡ Some f
            → refusal_of (store_conflicts self.now.pending f.earlier f.item.instr (enters (outstanding_of 0 rest.now)))
            ≡ refusal_in result }
    {
        self.board.may_store(unit)?;
        match rest {
            Some(reference) if reference.address.is_some() && self.hopper.is_full() => {
                Err(Refusal::HopperFull)
            }
            _ => self.board.in_turn(unit),
        }
    }

    /// Takes the unit's instruction out of its unit. The rest of it waits: a reference in range in the lowest-numbered
    /// free place of the hopper, a load out of range with +0 in its channel. Nothing changes if no instruction holds the
    /// unit.
    pub fn leave(&mut self, unit: Unit, rest: &Option<Relocated>)
        requires apart { Pairs IsApart self.old.pending }
        requires rest { IfSome (located (seek (stage_at unit) self.old.pending))
            (λ s. IsRestOf (shape_of s.pending.instr) rest.now) }
        requires room { enters (outstanding_of 0 rest.now) ≡ true → is_none (place_for self.old.pending) ≡ false }
        ensures { self.new ≡ with_pending self.old
            (replaced (seek (stage_at unit) self.old.pending) self.old.pending
            (λ m. kept m (outstanding_of (unwrap_or (place_for self.old.pending) 0) rest.now))) }
    {
        if self.slots.find_stage(unit).is_none() {
            return;
        }
        let left = match rest {
            None => None,
            Some(reference) => match reference.address {
                Some(address) => match self.hopper.enter(Reference {
                    address,
                    access: reference.access,
                }) {
                    Ok(place) => Some(Outstanding::Entered(place, address, reference.access)),
                    Err(_) => None,
                },
                None => match &reference.access {
                    Access::Load(n) => Some(Outstanding::Accepted(*n, Word60::default())),
                    Access::Store(_) => None,
                },
            },
        };
        self.slots.leave(unit, &left);
        self.board.release(unit);
    }

    /// Whether memory may accept the reference in a place of the hopper.
    ///
    /// # Errors
    /// The first that applies: `Nothing`, `BankBusy` or `OlderAtAddress`.
    pub fn may_accept(&self, place: u8) -> Result<(), Refusal>
        ensures { refusal_of (tests_found (seek (entry_at place) self.now.pending)
            (λ f. accept_tests self.now.busy f.earlier f.answer)) ≡ refusal_in result }
    {
        match self.hopper.may_accept(place) {
            Ok(_) => Ok(()),
            Err(refusal) => Err(refusal),
        }
    }

    /// Accepts the reference in a place of the hopper, whose bank is then busy. A load then has its word in its
    /// channel, and of a store nothing is left. Returns the reference; a store is still to be written to memory.
    ///
    /// # Errors
    /// The first that applies: `Nothing`, `BankBusy` or `OlderAtAddress`.
    pub fn accept(&mut self, place: u8, memory: &Storage) -> Result<Reference, Refusal>
        requires apart { Pairs IsApart self.old.pending }
        requires own_slots { HasOwnSlots (length memory.now) self.old.pending }
        ensures answer { refusal_of (tests_found (seek (entry_at place) self.old.pending)
            (λ f. accept_tests self.old.busy f.earlier f.answer)) ≡ refusal_in result }
        ensures entry { IfOk result (λ reference. IfSome (seek (entry_at place) self.old.pending)
            (λ f. f.answer ≡ record { address = reference.address; access = reference.access })) }
        ensures after { MatchResult result
            (λ reference. self.new ≡ record self.old {
              pending = replaced (seek (entry_at place) self.old.pending) self.old.pending
                  (λ m. kept m (left_by memory.now reference.address reference.access));
              busy = slice_set self.old.busy (bank_of reference.address) true;
            })
            (λ refusal. self.new ≡ self.old) }
    {
        let accepted = self.hopper.accept(place);
        if let Ok(reference) = &accepted {
            let left = match &reference.access {
                Access::Load(n) => Some(Outstanding::Accepted(*n, memory.load(reference.address))),
                Access::Store(_) => None,
            };
            self.slots.accept(place, &left);
        }
        accepted
    }

    /// Third order: the load in a channel, with its instruction, if it may return.
    ///
    /// # Errors
    /// The first that applies: `Nothing` or `ResultHeld`.
    pub fn may_return(&self, channel: u8) -> Result<Located<Arrival>, Refusal>
        requires apart { Pairs IsApart self.now.pending }
        ensures answer { refusal_of (tests_found (seek (arrival_at channel) self.now.pending)
            (λ f. return_tests f.earlier f.answer)) ≡ refusal_in result }
        ensures found { IfOk result (λ found. located (seek (arrival_at channel) self.now.pending) ≡ Some found) }
        ensures range { IfOk result (λ found. channel < 8) }
    {
        let Some(found) = self.slots.find_arrival(channel) else {
            return Err(Refusal::Nothing);
        };
        self.board.may_return(channel)?;
        Ok(found)
    }

    /// Third order: completes the load in a channel. Returns the word and its register's number.
    ///
    /// # Errors
    /// The first that applies: `Nothing` or `ResultHeld`.
    pub fn return_load(&mut self, channel: u8) -> Result<Arrival, Refusal>
        requires apart { Pairs IsApart self.old.pending }
        ensures answer { refusal_of (tests_found (seek (arrival_at channel) self.old.pending)
            (λ f. return_tests f.earlier f.answer)) ≡ refusal_in result }
        ensures arrival { IfOk result
            (λ arrival. IfSome (seek (arrival_at channel) self.old.pending) (λ f. f.answer ≡ arrival)) }
        ensures after { MatchResult result
            (λ arrival. self.new ≡ with_pending self.old
            (replaced (seek (arrival_at channel) self.old.pending) self.old.pending (λ m. [])))
            (λ refusal. self.new ≡ self.old) }
    {
        let found = match self.may_return(channel) {
            Ok(found) => found,
            Err(refusal) => return Err(refusal),
        };
        self.slots.returned(channel);
        self.board.returned(channel);
        Ok(found.answer)
    }

    /// Frees a bank.
    ///
    /// # Errors
    /// `Nothing` if the bank isn't busy.
    #[tactic(auto, using(crate::proofs::answering::Beside::free_answered))]
    pub fn bank_free(&mut self, bank: u8) -> Result<(), Refusal>
        ensures answer { refusal_of (free_tests self.old.busy bank) ≡ refusal_in result }
        ensures after { MatchResult result
            (λ freed. self.new ≡ record self.old { busy = slice_set self.old.busy bank false })
            (λ refusal. self.new ≡ self.old) }
    {
        self.hopper.bank_free(bank)
    }
}

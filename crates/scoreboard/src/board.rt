//! The board: the reservations, the conflicts between them, and the updates of the fields.

ghost use Rattle.std.specs.Prelude.{◌≡◌, ◌<◌, ◌+◌, ◌^◌, [], is_some};
ghost use Rattle.std.specs.List.{list_any};
ghost use Rattle.instructions.specs.Finding.{seek, replaced};
ghost use Rattle.instructions.specs.Operands.{uses};
ghost use Rattle.scoreboard.specs.Reservations.{is_branch, has_turn, has_store_turn};
ghost use Rattle.scoreboard.specs.Issued.{reservation_of};
ghost use Rattle.scoreboard.specs.Conflicts.{unit_for};
ghost use Rattle.scoreboard.specs.inner.Fields.{slot_is};
ghost use Rattle.scoreboard.specs.Answers.{held_in, returning_by, read_answer, store_answer, return_answer};
ghost use Rattle.scoreboard.specs.Answers.{turn_answer, reserve_answer, reserved, read, left, gone, with_issued};

use crate::fields::{
    any_reference, first_unit, first_with_writer, forget_in_taken, has_earlier_reference,
    is_still_read,
};
use crate::{Issued, Occupancy, Reservation, Writer, Writers};
use instructions::{
    Digit, Instr, MemoryUse, Refusal, Reg, Unit, UnitKind, results, sources, unit_kind,
};
use std::marker::Model;

/// The instructions that hold a unit or have a load still to return, and the writer of each register (Thornton,
/// scoreboard). All of it is kept by unit, by register and by load channel; docs/machine/rules.md has the fields.
///
/// In contracts a board is the list of these instructions in issue order, with the number of the last reservation. A
/// call about a free unit, or about an empty channel, finds no conflict and changes nothing.
#[derive(Drop)]
pub struct Board {
    /// The instruction that holds each unit, by the number of the unit.
    units: [Option<Issued>; 10],
    /// By the number of the unit: the earlier instruction that is still to write each of the up to three sources of the
    /// unit's instruction. The entry of a free unit has no meaning.
    producers: [[Option<Writer>; 3]; 10],
    /// The load that has left its unit and has yet to return, by the number of its X register.
    channels: [Option<Issued>; 8],
    /// The writer of each register.
    writers: Writers,
    /// The number of the last reservation, 0 before the first. No number is used twice.
    last: u64,
}

impl Model for Board {
    ghost use Rattle.scoreboard.specs.Answers.{Standing};

    ghost Value = { Standing };

    ghost use Rattle.scoreboard.specs.inner.View.{standing_of, IsRight};

    ghost view = { λ b. standing_of b.units b.channels b.last };

    ghost invariant = { λ b. IsRight b.units b.channels b.producers b.writers b.last };
}

/// The number of a channel as a digit.
fn digit(channel: u8) -> Digit
    requires { channel < 8 }
    ensures { result ≡ channel }
{
    Digit::low(u16::from(channel))
}

impl Board {
    /// A board without reservations. The first reservation has the number 1.
    pub fn new() -> Board
        ensures { result ≡ record { issued = []; last = 0 } }
    {
        Board {
            units: [None; 10],
            producers: [
                [None; 3], [None; 3], [None; 3], [None; 3], [None; 3], [None; 3], [None; 3],
                [None; 3], [None; 3], [None; 3],
            ],
            channels: [None; 8],
            writers: Writers::new(),
            last: 0,
        }
    }

    /// First order: the lower-numbered free unit of the instruction's kind, which an issue of the instruction would
    /// reserve, and the number of that reservation, which is one more than the last (Control Data 60100000, unit and
    /// register conflicts; that the lower-numbered unit is taken is this project's choice).
    ///
    /// # Errors
    /// `UnitBusy` if no unit of the kind is free; it names the lower-numbered unit. Otherwise `ResultReserved` if an
    /// issued instruction is still to write one of the result registers; it names the first of them, A before X.
    pub fn may_reserve(&self, instr: &Instr) -> Result<(Unit, u64), Refusal>
        requires { self.now.last + 1 < 2 ^ 64 }
        ensures { result ≡ reserve_answer self.now instr.now
            (unit_for reservation_of self.now.issued (uses instr.now).unit) }
    {
        let Some(kind) = unit_kind(instr) else {
            return Err(Refusal::UnitBusy(first_unit(instr)));
        };
        let unit = match kind {
            UnitKind::Branch => Unit::Branch,
            UnitKind::Boolean => Unit::Boolean,
            UnitKind::Shift => Unit::Shift,
            UnitKind::LongAdd => Unit::LongAdd,
            UnitKind::Divide => Unit::Divide,
            UnitKind::Increment if self.units[Unit::Increment1 as usize].is_some() =>
                Unit::Increment2,
            UnitKind::Increment => Unit::Increment1,
        };
        if self.units[unit as usize].is_some() {
            return Err(Refusal::UnitBusy(first_unit(instr)));
        }
        let results = results(instr);
        let taken = self.writers.of(results.as_slice());
        match first_with_writer(results.as_slice(), &taken) {
            Some(register) => Err(Refusal::ResultReserved(register)),
            None => Ok((unit, self.last + 1)),
        }
    }

    /// First order: makes the reservation of `may_reserve`, and returns its unit and its number. A refusal changes
    /// nothing.
    ///
    /// # Errors
    /// Those of `may_reserve`.
    pub fn try_reserve(&mut self, instr: &Instr) -> Result<(Unit, u64), Refusal>
        requires { self.old.last + 1 < 2 ^ 64 }
        ensures answer { result ≡ reserve_answer self.old instr.now
            (unit_for reservation_of self.old.issued (uses instr.now).unit) }
        ensures after { self.new ≡ reserved self.old instr.now result }
    {
        let (unit, number) = match self.may_reserve(instr) {
            Ok(reservation) => reservation,
            Err(refusal) => return Err(refusal),
        };
        let index = unit as usize;
        let sources = sources(instr);
        self.producers[index] = self.writers.of(sources.as_slice());
        self.units[index] = Some(Issued {
            number,
            reservation: Reservation {
                instr: *instr,
                unit,
                occupancy: Occupancy::Reserved { has_read: false },
            },
        });
        let writers = &mut self.writers;
        // A load, SA1 to SA5, writes Xi when its channel returns.
        if let Instr::Increment { target, i, .. } = *instr
            && let Some(MemoryUse::Loads(_)) = target.memory(i)
        {
            writers.set(Some(Reg::X(i)), Some(Writer::OfChannel(i)));
        }
        writers.set(instr.sets(), Some(Writer::OfUnit(unit)));
        self.last = number;
        Ok((unit, number))
    }

    /// Second order: whether the instruction in the unit may read its operands, all at once (which is this project's
    /// choice). It waits only for earlier instructions, not for itself or for later instructions.
    ///
    /// # Errors
    /// `OperandAwaited` if a source is a result still to come of an earlier instruction. It names the first such source
    /// in the instruction table's order.
    pub fn may_read(&self, unit: Unit) -> Result<(), Refusal>
        ensures { result ≡ read_answer (seek (held_in unit) self.now.issued) }
    {
        let index = unit as usize;
        let slot = self.units[index];
        let Some(issued) = slot else {
            return Ok(());
        };
        let producers = &self.producers[..];
        let awaited = &producers[index];
        if !awaited.iter().any(
            |producer|
                ensures { result ≡ is_some producer.now }
            { producer.is_some() },
        ) {
            return Ok(());
        }
        // The sources themselves are needed only for a refusal.
        let sources = sources(&issued.reservation.instr);
        match first_with_writer(sources.as_slice(), awaited) {
            Some(register) => Err(Refusal::OperandAwaited(register)),
            None => Ok(()),
        }
    }

    /// Third order: whether the instruction in the unit may have its store event and write its result. A load's X
    /// register doesn't count, because the return of the load writes it.
    ///
    /// # Errors
    /// `ResultHeld` if an earlier instruction has yet to read a register that the store event writes. It names the
    /// first such register.
    pub fn may_store(&self, unit: Unit) -> Result<(), Refusal>
        ensures { result ≡ store_answer (seek (held_in unit) self.now.issued) }
    {
        let index = unit as usize;
        let slot = self.units[index];
        let Some(issued) = slot else {
            return Ok(());
        };
        let Some(register) = issued.reservation.instr.sets() else {
            return Ok(());
        };
        if is_still_read(&self.units, issued.number, &register) {
            Err(Refusal::ResultHeld(register))
        } else {
            Ok(())
        }
    }

    /// Third order for the load in a channel: whether it may return and write the X register of the channel's number, 0
    /// to 7 (loads use 1 to 5).
    ///
    /// # Errors
    /// `ResultHeld` with that register, if an earlier instruction has yet to read it.
    pub fn may_return(&self, channel: u8) -> Result<(), Refusal>
        requires { channel < 8 }
        ensures { result ≡ return_answer channel (seek (returning_by channel) self.now.issued) }
    {
        let slot = self.channels[usize::from(channel)];
        let Some(load) = slot else {
            return Ok(());
        };
        let register = Reg::X(digit(channel));
        if is_still_read(&self.units, load.number, &register) {
            Err(Refusal::ResultHeld(register))
        } else {
            Ok(())
        }
    }

    /// The turn of references: whether the instruction in the unit makes no reference, or all earlier references have
    /// had their store events. SA1 to SA7 and RJ make references. The turn is this project's choice.
    ///
    /// # Errors
    /// `OutOfTurn` if an earlier reference has not yet had its store event.
    pub fn in_turn(&self, unit: Unit) -> Result<(), Refusal>
        ensures { result ≡ turn_answer (seek (held_in unit) self.now.issued) }
    {
        let index = unit as usize;
        let slot = self.units[index];
        let Some(issued) = slot else {
            return Ok(());
        };
        if issued.reservation.instr.memory().is_none() {
            return Ok(());
        }
        if has_earlier_reference(&self.units, issued.number) {
            Err(Refusal::OutOfTurn)
        } else {
            Ok(())
        }
    }

    /// Whether an issued branch has yet to have its store event. While Branch is held, the caller issues nothing; that
    /// is this project's choice.
    pub fn is_branch_held(&self) -> bool
        ensures { result ≡ list_any (λ x. is_branch x.reservation) self.now.issued }
    {
        // Only branches are issued to Branch.
        self.units[Unit::Branch as usize].is_some()
    }

    /// Whether an issued reference has yet to have its store event.
    pub fn has_reference_to_come(&self) -> bool
        ensures { result ≡ list_any (λ x. has_turn x.reservation) self.now.issued }
    {
        any_reference(&self.units)
    }

    /// Whether an issued SA6 or SA7 has yet to have its store event. A return jump doesn't count: it holds Branch.
    #[tactic(auto, unfolding(crate::specs::inner::Fields::slot_is))]
    pub fn has_store_to_come(&self) -> bool
        ensures { result ≡ list_any (λ x. has_store_turn x.reservation) self.now.issued }
    {
        // Only the Increment units take SA6 and SA7.
        let has_store = |slot: &Option<Issued>|
            ensures { result ≡ slot_is has_store_turn slot.now }
        {
            match slot {
                Some(issued) => issued.reservation.has_store_turn(),
                None => false,
            }
        };
        has_store(&self.units[Unit::Increment1 as usize])
            || has_store(&self.units[Unit::Increment2 as usize])
    }

    /// Records that the instruction in the unit has read its operands. The caller first asks `may_read`.
    pub fn mark_read(&mut self, unit: Unit)
        ensures { self.new ≡ with_issued self.old
            (replaced (seek (held_in unit) self.old.issued) self.old.issued read) }
    {
        let index = unit as usize;
        if let Some(issued) = &mut self.units[index] {
            issued.reservation.occupancy = Occupancy::Reserved { has_read: true };
        }
    }

    /// Records the store event of the instruction in the unit. The unit is free then, and no instruction waits for it
    /// to write. A load moves to the channel of its X register. The caller first asks `may_store` and `in_turn`.
    pub fn release(&mut self, unit: Unit)
        ensures { self.new ≡ with_issued self.old
            (replaced (seek (held_in unit) self.old.issued) self.old.issued left) }
    {
        let index = unit as usize;
        let slot = self.units[index];
        let Some(issued) = slot else {
            return;
        };
        self.units[index] = None;
        let instr = &issued.reservation.instr;
        // The unit is the writer of no other register.
        self.writers.set(instr.sets(), None);
        if let Instr::Increment { target, i, .. } = *instr
            && let Some(MemoryUse::Loads(_)) = target.memory(i)
        {
            let mut load = issued;
            load.reservation.occupancy = Occupancy::Left { returning: Some(i) };
            self.channels[usize::from(i.get())] = Some(load);
        }
        // No instruction was issued after the last one, so none waits for it.
        if issued.number != self.last {
            forget_in_taken(&self.units, &mut self.producers, &Writer::OfUnit(unit));
        }
    }

    /// Records the return of the load in the channel. The channel is empty then, and no instruction waits for it to
    /// write. Channels have the numbers of their X registers, 0 to 7. The caller first asks `may_return`.
    pub fn returned(&mut self, channel: u8)
        requires { channel < 8 }
        ensures { self.new ≡ with_issued self.old
            (replaced (seek (returning_by channel) self.old.issued) self.old.issued gone) }
    {
        let index = usize::from(channel);
        let slot = self.channels[index];
        let Some(issued) = slot else {
            return;
        };
        let number = digit(channel);
        self.channels[index] = None;
        // The channel is the writer of no other register.
        self.writers.set(Some(Reg::X(number)), None);
        if issued.number != self.last {
            forget_in_taken(&self.units, &mut self.producers, &Writer::OfChannel(number));
        }
    }
}

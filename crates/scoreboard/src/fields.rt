//! The board's queries of its fields, and changes of the fields by a store event or a return. A slot is the field of
//! one unit.

ghost use Rattle.std.specs.Prelude.{◌≡◌, ◌≤◌, ◌||◌, length};
ghost use Rattle.instructions.specs.declared.instr.Unit.TheVariants.{Branch};
ghost use Rattle.instructions.specs.Operands.{uses};
ghost use Rattle.scoreboard.specs.Units.{first_unit};
ghost use Rattle.scoreboard.specs.Reservations.{has_turn};
ghost use Rattle.scoreboard.specs.inner.Fields.{slot_at, in_increment, slot_is};
ghost use Rattle.scoreboard.specs.inner.Fields.{forget_in_taken, slot_reads, slot_has_turn, first_produced};
ghost use Rattle.std.specs.List.{list_any};

use crate::writer::forget_in;
use crate::{Issued, Writer};
use instructions::{Instr, Reg, Unit, UnitKind, unit_kind};

/// Whether an issued reference has yet to have its store event. Only Branch and the Increment units take references.
#[tactic(auto, unfolding(crate::specs::inner::Fields::slot_is))]
pub(crate) fn any_reference(units: &[Option<Issued>]) -> bool
    requires { length units.now ≡ 10 }
    ensures { result ≡ (slot_is has_turn (slot_at units.now Branch) || in_increment (slot_is has_turn) units.now) }
{
    let refers = |slot: &Option<Issued>| match slot {
        Some(issued) => issued.reservation.has_turn(),
        None => false,
    };
    refers(&units[Unit::Branch as usize])
        || refers(&units[Unit::Increment1 as usize])
        || refers(&units[Unit::Increment2 as usize])
}

/// The first of the registers that has a writer. The writers are in the order of the registers.
pub(crate) fn first_with_writer(registers: &[Reg], writers: &[Option<Writer>]) -> Option<Reg>
    ensures { result ≡ first_produced registers.now writers.now }
{
    match registers
        .iter()
        .zip(writers)
        .find(|(_, writer)| writer.is_some())
    {
        Some((register, _)) => Some(*register),
        None => None,
    }
}

/// Whether an instruction with a lower number has yet to read the register.
#[tactic(auto, unfolding(crate::specs::inner::Fields::slot_reads))]
pub(crate) fn is_still_read(units: &[Option<Issued>], number: u64, register: &Reg) -> bool
    ensures { result ≡ list_any (slot_reads number register.now) units.now }
{
    units.iter().any(
        |slot|
            ensures { result ≡ slot_reads number register.entry.now slot.now }
        {
            match slot {
                Some(other) => other.number < number && other.reservation.has_to_read(register),
                None => false,
            }
        },
    )
}

/// Whether an instruction with a lower number makes a reference that has not yet had its store event.
#[tactic(auto, unfolding(crate::specs::inner::Fields::slot_has_turn))]
pub(crate) fn has_earlier_reference(units: &[Option<Issued>], number: u64) -> bool
    ensures { result ≡ list_any (slot_has_turn number) units.now }
{
    units.iter().any(
        |slot|
            ensures { result ≡ slot_has_turn number slot.now }
        {
            match slot {
                Some(other) => other.number < number && other.reservation.has_turn(),
                None => false,
            }
        },
    )
}

/// The lower-numbered unit of an instruction's kind, or Branch if the instruction takes no unit.
#[tactic(auto, unfolding(crate::proofs::Opened::first_of_kind))]
pub(crate) fn first_unit(instr: &Instr) -> Unit
    ensures { result ≡ first_unit (uses instr.now).unit }
{
    match unit_kind(instr) {
        None => Unit::Branch,
        Some(UnitKind::Branch) => Unit::Branch,
        Some(UnitKind::Boolean) => Unit::Boolean,
        Some(UnitKind::Shift) => Unit::Shift,
        Some(UnitKind::LongAdd) => Unit::LongAdd,
        Some(UnitKind::Divide) => Unit::Divide,
        Some(UnitKind::Increment) => Unit::Increment1,
    }
}

/// Removes a writer that has written from the producers of every held unit. The producers of a free unit aren't looked
/// at.
pub(crate) fn forget_in_taken(
    units: &[Option<Issued>],
    producers: &mut [[Option<Writer>; 3]],
    writer: &Writer,
)
    requires { length units.now ≤ length producers.old }
    ensures { producers.new ≡ forget_in_taken writer.now units.now producers.old }
{
    for index in 0..units.len() {
        if units[index].is_some() {
            forget_in(&mut producers[index], writer);
        }
    }
}

use crate::flight_calls::{
    Answer, Call, FINE, NO, YES, accept_at_boot, first_add, first_wrong, five,
    is_empty_after_leave, left_alone, no_addends, refused, registers, reserves, return_at_boot,
    three_and_four, x,
};
use in_flight::{InFlight, Relocated, Stage};
use instruction_table::read_text;
use instructions::{Digit, Instr, Refusal, Target, Unit};
use relocation::{Access, Storage};
use std::test::Fail;
use word60::{Word18, Word60};

/// At boot nothing is pending, no unit is held and all banks are free.
#[test]
fn nothing_is_in_flight_at_boot(rt: HostRuntime) {
    let wrong = first_wrong(&[
        (Call::IsEmpty, YES),
        (Call::IsBranchHeld, NO),
        (Call::DelaysFetch(0), NO),
        (Call::Oldest, Answer::Free),
        (Call::Find(Unit::Branch), Answer::Free),
        (Call::IsBankBusy(0), NO),
        (Call::IsBankBusy(31), NO),
        (Call::IsBankBusy(32), NO),
        (Call::MayStore(Unit::Branch), FINE),
    ]);
    assert_eq!(rt; wrong, None);
}

/// A reservation takes the lower-numbered free unit of its kind. If both Increment units are taken, the refusal names
/// the first.
#[test]
fn reserves_a_free_unit(rt: HostRuntime) {
    let wrong = first_wrong(&[
        reserves("SX1 B0+B0", Unit::Increment1, 1),
        reserves("SX2 B0+B0", Unit::Increment2, 2),
        refused(
            Call::Reserve("SX3 B0+B0"),
            Refusal::UnitBusy(Unit::Increment1),
        ),
        reserves("IX3 X0+X0", Unit::LongAdd, 3),
        refused(Call::Reserve("IX4 X0+X0"), Refusal::UnitBusy(Unit::LongAdd)),
        (Call::IsEmpty, NO),
        (Call::Oldest, Answer::Number(1)),
        (Call::Find(Unit::LongAdd), Answer::At(3, Stage::Unread)),
        (Call::Find(Unit::Shift), Answer::Free),
    ]);
    assert_eq!(rt; wrong, None);
}

/// A result that is still to come is reserved once, and a busy unit is refused before a reserved result.
#[test]
fn reserves_no_result_twice(rt: HostRuntime) {
    let wrong = first_wrong(&[
        reserves("IX1 X0+X0", Unit::LongAdd, 1),
        refused(Call::Reserve("SX1 B0+B0"), Refusal::ResultReserved(x(1))),
        refused(Call::Reserve("IX1 X0+X0"), Refusal::UnitBusy(Unit::LongAdd)),
        // A refused instruction has no number.
        reserves("SX2 B0+B0", Unit::Increment1, 2),
    ]);
    assert_eq!(rt; wrong, None);
}

/// An instruction reads once, and waits for an earlier writer of its operand.
#[test]
fn reads_when_no_operand_is_awaited(rt: HostRuntime) {
    let wrong = first_wrong(&[
        refused(Call::Read(Unit::LongAdd), Refusal::Nothing),
        reserves("SX1 B0+B0", Unit::Increment1, 1),
        reserves("IX3 X1+X2", Unit::LongAdd, 2),
        refused(Call::Read(Unit::LongAdd), Refusal::OperandAwaited(x(1))),
        (Call::Find(Unit::LongAdd), Answer::At(2, Stage::Unread)),
        (Call::Read(Unit::Increment1), FINE),
        refused(Call::Read(Unit::Increment1), Refusal::Nothing),
        (Call::Finish(Unit::Increment1), FINE),
        refused(Call::Read(Unit::Increment1), Refusal::Nothing),
        refused(Call::Read(Unit::Shift), Refusal::Nothing),
    ]);
    assert_eq!(rt; wrong, None);
}

/// Only a unit whose instruction has read its operands gets a value.
#[test]
fn finishes_what_has_read(rt: HostRuntime) {
    let wrong = first_wrong(&[
        reserves("SX1 B0+B0", Unit::Increment1, 1),
        reserves("SX2 B0+B0", Unit::Increment2, 2),
        (Call::Finish(Unit::Increment1), Answer::Free),
        (Call::Read(Unit::Increment1), FINE),
        (Call::Finish(Unit::Increment1), FINE),
        (
            Call::Find(Unit::Increment1),
            Answer::At(1, Stage::Finished(five())),
        ),
        (Call::Find(Unit::Increment2), Answer::At(2, Stage::Unread)),
        (Call::Oldest, Answer::Number(1)),
    ]);
    assert_eq!(rt; wrong, None);
}

/// A store event waits for an earlier reader of the result, and not for a later one.
#[test]
fn stores_after_earlier_reads(rt: HostRuntime) {
    let wrong = first_wrong(&[
        reserves("IX3 X1+X2", Unit::LongAdd, 1),
        reserves("SX1 B0+B0", Unit::Increment1, 2),
        reserves("BX4 X1", Unit::Boolean, 3),
        refused(Call::MayStore(Unit::Increment1), Refusal::ResultHeld(x(1))),
        (Call::Read(Unit::LongAdd), FINE),
        (Call::MayStore(Unit::Increment1), FINE),
        (Call::MayStore(Unit::LongAdd), FINE),
    ]);
    assert_eq!(rt; wrong, None);
}

/// References reach their store events in turn; an instruction without a reference has no turn.
#[test]
fn references_keep_their_turn(rt: HostRuntime) {
    let wrong = first_wrong(&[
        reserves("SA1 X0+B0", Unit::Increment1, 1),
        reserves("SA6 X0+B0", Unit::Increment2, 2),
        reserves("IX3 X0+X0", Unit::LongAdd, 3),
        (Call::MayStore(Unit::Increment1), FINE),
        refused(Call::MayStore(Unit::Increment2), Refusal::OutOfTurn),
        (Call::MayStore(Unit::LongAdd), FINE),
    ]);
    assert_eq!(rt; wrong, None);
}

/// A store that has not reached its store event delays every fetch; a load or a return jump delays none.
#[test]
fn a_store_to_come_delays_fetches(rt: HostRuntime) {
    let wrong = first_wrong(&[
        reserves("SA1 X0+B0", Unit::Increment1, 1),
        (Call::DelaysFetch(0), NO),
        (Call::IsBranchHeld, NO),
        reserves("SA6 X0+B0", Unit::Increment2, 2),
        (Call::DelaysFetch(0), YES),
        (Call::DelaysFetch(0o100), YES),
        (Call::IsBranchHeld, NO),
    ]);
    assert_eq!(rt; wrong, None);
    let wrong = first_wrong(&[
        reserves("RJ 10", Unit::Branch, 1),
        (Call::DelaysFetch(0), NO),
        (Call::IsBranchHeld, YES),
        (Call::Read(Unit::Branch), FINE),
        (Call::IsBranchHeld, YES),
    ]);
    assert_eq!(rt; wrong, None);
}

/// A bank that isn't busy isn't freed, and neither is a bank with a number above 31.
#[test]
fn frees_no_free_bank(rt: HostRuntime) {
    let wrong = first_wrong(&[
        refused(Call::BankFree(0), Refusal::Nothing),
        refused(Call::BankFree(31), Refusal::Nothing),
        refused(Call::BankFree(32), Refusal::Nothing),
        refused(Call::BankFree(255), Refusal::Nothing),
    ]);
    assert_eq!(rt; wrong, None);
}

/// Nothing waits in the hopper at boot.
#[test]
fn nothing_to_accept(rt: HostRuntime) -> Result<(), Fail> {
    let memory = Storage::new(rt.alloc(), 32).ok().ok_or("memory")?;
    for place in [0, 3, 4, 255] {
        assert!(rt; accept_at_boot(place, &memory) == Err(Refusal::Nothing));
    }
    Ok(())
}

/// Nothing waits in a channel at boot, and leaving a free unit changes nothing.
#[test]
fn nothing_to_return(rt: HostRuntime) {
    for channel in [0, 1, 5, 8, 255] {
        assert!(rt; return_at_boot(channel) == Err(Refusal::Nothing));
    }
    assert!(rt; is_empty_after_leave(Unit::Shift));
}

/// SX1 B0+B0 sets its register at its store event, and nothing is left of it.
#[test]
fn a_sum_leaves_nothing(rt: HostRuntime) -> Result<(), Fail> {
    let instr = Instr::Increment {
        target: Target::X,
        i: Digit::low(1),
        addends: no_addends(),
    };
    let flight = left_alone(&instr, &None).ok_or("reserve")?;
    assert!(rt; flight.is_empty());
    Ok(())
}

/// SA6 B0+B0 enters the hopper at its store event, and then delays fetches of its own word alone.
#[test]
fn a_store_waits_in_the_hopper(rt: HostRuntime) -> Result<(), Fail> {
    let instr = Instr::Increment {
        target: Target::A,
        i: Digit::low(6),
        addends: no_addends(),
    };
    let rest = Some(Relocated {
        address: Some(0o47),
        access: Access::Store(Word60::default()),
    });
    let flight = left_alone(&instr, &rest).ok_or("reserve")?;
    assert!(rt; !flight.is_empty());
    assert!(rt; flight.find(Unit::Increment1).is_none());
    assert!(rt; flight.delays_fetch(0o47));
    // The same bank.
    assert!(rt; !flight.delays_fetch(0o7));
    Ok(())
}

/// A read returns the instruction as it waited, with the contents of its operand registers.
#[test]
fn reads_its_operand_registers(rt: HostRuntime) -> Result<(), Fail> {
    let instr = read_text("IX3 X1+X2").ok_or("text")?;
    let at = Word18::from_bits(0o1234);
    let waiting = first_add(instr, at, Stage::Unread);
    let operands = three_and_four(at);
    let reading = first_add(instr, at, Stage::Read(operands));
    let mut flight = InFlight::new();
    assert!(rt;
        flight.reserve(&instr, at) == Ok((Unit::LongAdd, 1))
            && flight.oldest() == Some(waiting)
            && flight.read(Unit::LongAdd, &registers()) == Ok((waiting, operands))
            && flight.oldest() == Some(reading)
    );
    Ok(())
}

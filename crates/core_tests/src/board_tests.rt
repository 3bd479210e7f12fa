//! Results of a board's calls, as lists of calls with the result of each.

use crate::fixtures::Register;
use Answer::{Awaited, Busy, Fine, Held, OutOfTurn, Reserved, Taken, Truth};
use Call::{
    HasStoreToCome, InTurn, IsBranchHeld, MarkRead, MayRead, MayReturn, MayStore, Release, Reserve,
    Returned,
};
use Register::{A, B, X};
use Unit::{Boolean, Branch, Increment1, Increment2, LongAdd, Shift};
use instruction_table::read_text;
use instructions::{Refusal, Unit, unit_kind};
use scoreboard::Board;
use std::marker::Model;

/// A call to a board. Instructions are given as text.
#[derive(Clone, Copy, Drop)]
enum Call {
    Reserve(&'static str),
    MayRead(Unit),
    MayStore(Unit),
    MayReturn(u8),
    InTurn(Unit),
    MarkRead(Unit),
    Release(Unit),
    Returned(u8),
    IsBranchHeld,
    HasStoreToCome,
}

/// The result of a call.
#[derive(Clone, Copy, Drop, PartialEq, Eq)]
enum Answer {
    /// The event may be made, or the update is done.
    Fine,
    Reserved(Unit, u64),
    Busy(Unit),
    /// A result register is already a result still to come.
    Taken(Register),
    Awaited(Register),
    Held(Register),
    OutOfTurn,
    /// A refusal that no board returns.
    OtherRefusal,
    Truth(bool),
    /// The text isn't an instruction that takes a unit.
    NoUnit,
}

fn refused(refusal: Refusal) -> Answer {
    match refusal {
        Refusal::UnitBusy(unit) => Busy(unit),
        Refusal::ResultReserved(register) => Taken(Register::of(register)),
        Refusal::OperandAwaited(register) => Awaited(Register::of(register)),
        Refusal::ResultHeld(register) => Held(Register::of(register)),
        Refusal::OutOfTurn => OutOfTurn,
        _ => Answer::OtherRefusal,
    }
}

/// The answer of a query.
fn judged(judgement: Result<(), Refusal>) -> Answer {
    match judgement {
        Ok(()) => Fine,
        Err(refusal) => refused(refusal),
    }
}

/// A board with the number of its last reservation, 0 before the first.
#[derive(Drop)]
struct Counted {
    board: Board,
    last: u64,
}

impl Model for Counted {
    ghost use Rattle.std.specs.Prelude.{◌≤◌};
    ghost use Rattle.scoreboard.specs.Answers.{Standing};

    ghost Value = { Standing };

    ghost view = { λ c. c.board };

    ghost invariant = { λ c. c.board.last ≤ c.last };
}

impl Counted {
    fn new() -> Counted {
        Counted {
            board: Board::new(),
            last: 0,
        }
    }

    /// Reserves a unit for the instruction with this text.
    #[tactic(auto, unfolding(scoreboard::specs::Answers::reserved))]
    fn reserve(&mut self, text: &str) -> Answer {
        let Some(instr) = read_text(text) else {
            return Answer::NoUnit;
        };
        if unit_kind(&instr).is_none() || self.last >= 1000 {
            return Answer::NoUnit;
        }
        match self.board.try_reserve(&instr) {
            Ok((unit, number)) => {
                self.last = number;
                Reserved(unit, number)
            }
            Err(refusal) => refused(refusal),
        }
    }

    /// Makes the call. Channels are taken modulo 8.
    #[tactic(auto, unfolding(scoreboard::specs::Answers::with_issued))]
    fn make(&mut self, call: Call) -> Answer {
        match call {
            Reserve(text) => return self.reserve(text),
            MayRead(unit) => return judged(self.board.may_read(unit)),
            MayStore(unit) => return judged(self.board.may_store(unit)),
            MayReturn(channel) => return judged(self.board.may_return(channel % 8)),
            InTurn(unit) => return judged(self.board.in_turn(unit)),
            IsBranchHeld => return Truth(self.board.is_branch_held()),
            HasStoreToCome => return Truth(self.board.has_store_to_come()),
            MarkRead(unit) => self.board.mark_read(unit),
            Release(unit) => self.board.release(unit),
            Returned(channel) => self.board.returned(channel % 8),
        }
        Fine
    }
}

/// The position of the first call to a new board whose answer is wrong, or `None` if all are right.
fn first_wrong(calls: &[(Call, Answer)]) -> Option<usize> {
    let mut counted = Counted::new();
    for index in 0..calls.len() {
        let (call, wanted) = calls[index];
        if counted.make(call) != wanted {
            return Some(index);
        }
    }
    None
}

/// The lower-numbered free unit of the kind is reserved. If both Increment units are taken, the refusal names the
/// first.
const RESERVES_A_FREE_UNIT: [(Call, Answer); 9] = [
    (Reserve("IX1 X0+X0"), Reserved(LongAdd, 1)),
    (Reserve("IX2 X0+X0"), Busy(LongAdd)),
    (Reserve("SX2 B0+B0"), Reserved(Increment1, 2)),
    (Reserve("SX3 B0+B0"), Reserved(Increment2, 3)),
    (Reserve("SX4 B0+B0"), Busy(Increment1)),
    (Release(Increment1), Fine),
    (Reserve("SX4 B0+B0"), Reserved(Increment1, 4)),
    (Release(Increment2), Fine),
    (Reserve("SX5 B0+B0"), Reserved(Increment2, 5)),
];

/// A load reserves A and X, and the refusal names A first. A is free from the store event on, X from the return.
const RESERVES_NO_RESULT_TWICE: [(Call, Answer); 11] = [
    (Reserve("SA1 X0+B0"), Reserved(Increment1, 1)),
    (Reserve("SX1 B0+B0"), Taken(X(1))),
    (Reserve("IX1 X0+X0"), Taken(X(1))),
    (Reserve("SA1 X0+B0"), Taken(A(1))),
    (MarkRead(Increment1), Fine),
    (Reserve("SA1 X0+B0"), Taken(A(1))),
    (Release(Increment1), Fine),
    (Reserve("SA1 X0+B0"), Taken(X(1))),
    (Reserve("IX1 X0+X0"), Taken(X(1))),
    (Returned(1), Fine),
    (Reserve("SA1 X0+B0"), Reserved(Increment1, 2)),
];

/// `SB0` has no result, so two of them can be issued. B0 is never an operand.
const NEVER_WAITS_FOR_B0: [(Call, Answer); 10] = [
    (Reserve("SB0 B1+B1"), Reserved(Increment1, 1)),
    (Reserve("SB0 B1+B1"), Reserved(Increment2, 2)),
    (Reserve("JP B0+10"), Reserved(Branch, 3)),
    (MayRead(Branch), Fine),
    (Release(Increment1), Fine),
    (Release(Branch), Fine),
    (Reserve("SB2 B0+B0"), Reserved(Increment1, 4)),
    (MayRead(Increment1), Fine),
    (Reserve("JP B2+10"), Reserved(Branch, 5)),
    (MayRead(Branch), Awaited(B(2))),
];

/// An instruction waits for earlier writers of its operands, in the operands' order. It doesn't wait for itself or for
/// a later writer.
const WAITS_FOR_EARLIER_WRITERS: [(Call, Answer); 18] = [
    (Reserve("SX1 X1+B1"), Reserved(Increment1, 1)),
    (MayRead(Increment1), Fine),
    (Reserve("IX2 X1+X1"), Reserved(LongAdd, 2)),
    (MayRead(LongAdd), Awaited(X(1))),
    (MarkRead(Increment1), Fine),
    (MayRead(LongAdd), Awaited(X(1))),
    (Release(Increment1), Fine),
    (MayRead(LongAdd), Fine),
    // A later writer.
    (Reserve("SX1 X0+B0"), Reserved(Increment1, 3)),
    (MayRead(LongAdd), Fine),
    (Reserve("BX3 X2*X1"), Reserved(Boolean, 4)),
    (MayRead(Boolean), Awaited(X(2))),
    (MarkRead(LongAdd), Fine),
    (Release(LongAdd), Fine),
    (MayRead(Boolean), Awaited(X(1))),
    (MarkRead(Increment1), Fine),
    (Release(Increment1), Fine),
    (MayRead(Boolean), Fine),
];

/// An instruction that reads the A register of a load waits for the load's store event. One that reads the X register
/// waits for the return.
const WAITS_FOR_A_LOAD: [(Call, Answer); 12] = [
    (Reserve("SA1 X0+B0"), Reserved(Increment1, 1)),
    (Reserve("IX2 X1+X1"), Reserved(LongAdd, 2)),
    (Reserve("SB3 A1+B0"), Reserved(Increment2, 3)),
    (MayRead(LongAdd), Awaited(X(1))),
    (MayRead(Increment2), Awaited(A(1))),
    (MarkRead(Increment1), Fine),
    (Release(Increment1), Fine),
    (MayRead(Increment2), Fine),
    (MayRead(LongAdd), Awaited(X(1))),
    (MayReturn(1), Fine),
    (Returned(1), Fine),
    (MayRead(LongAdd), Fine),
];

/// A store event waits for earlier readers of the register that it writes. It doesn't wait for itself or for a later
/// reader.
const STORES_AFTER_EARLIER_READS: [(Call, Answer); 17] = [
    (Reserve("IX2 X1+X1"), Reserved(LongAdd, 1)),
    (Reserve("SX1 X1+B0"), Reserved(Increment1, 2)),
    (Reserve("BX3 X1"), Reserved(Boolean, 3)),
    (MayStore(Increment1), Held(X(1))),
    (MarkRead(LongAdd), Fine),
    (MayStore(Increment1), Fine),
    (MayStore(LongAdd), Fine),
    // The word that an SA6 stores is an operand.
    (Reserve("SA6 A1+B0"), Reserved(Increment2, 4)),
    (Release(LongAdd), Fine),
    (Reserve("IX6 X0+X0"), Reserved(LongAdd, 5)),
    (MayStore(LongAdd), Held(X(6))),
    // A1 has no earlier writer any more, and SA6 has yet to read it.
    (Release(Increment1), Fine),
    (Reserve("SA1 X0+B0"), Reserved(Increment1, 6)),
    (MayStore(Increment1), Held(A(1))),
    (MarkRead(Increment2), Fine),
    (MayStore(Increment1), Fine),
    (MayStore(LongAdd), Fine),
];

/// The return of a load waits for earlier readers of its X register, but not for later ones.
const RETURNS_AFTER_EARLIER_READS: [(Call, Answer); 9] = [
    (Reserve("IX2 X1+X1"), Reserved(LongAdd, 1)),
    (Reserve("SA1 X0+B0"), Reserved(Increment1, 2)),
    (MarkRead(Increment1), Fine),
    (MayStore(Increment1), Fine),
    (Release(Increment1), Fine),
    (MayReturn(1), Held(X(1))),
    (Reserve("BX3 X1"), Reserved(Boolean, 3)),
    (MarkRead(LongAdd), Fine),
    (MayReturn(1), Fine),
];

/// References have their store events in turn: loads, stores and return jumps.
const KEEPS_THE_TURN: [(Call, Answer); 18] = [
    (Reserve("SA1 X0+B0"), Reserved(Increment1, 1)),
    (Reserve("SA6 X0+B0"), Reserved(Increment2, 2)),
    (Reserve("RJ 10"), Reserved(Branch, 3)),
    (Reserve("IX3 X0+X0"), Reserved(LongAdd, 4)),
    (InTurn(Increment1), Fine),
    (InTurn(Increment2), OutOfTurn),
    (InTurn(Branch), OutOfTurn),
    (InTurn(LongAdd), Fine),
    (Release(Increment1), Fine),
    (InTurn(Increment2), Fine),
    (InTurn(Branch), OutOfTurn),
    (Release(Increment2), Fine),
    (InTurn(Branch), Fine),
    // SA0 makes no reference; SA2 comes after the return jump.
    (Reserve("SA0 X0+B0"), Reserved(Increment1, 5)),
    (Reserve("SA2 X0+B0"), Reserved(Increment2, 6)),
    (InTurn(Increment1), Fine),
    (InTurn(Increment2), OutOfTurn),
    (InTurn(Branch), Fine),
];

/// A free unit and an empty channel have no conflict, and a call about them changes nothing.
const LEAVES_FREE_UNITS_ALONE: [(Call, Answer); 10] = [
    (Reserve("SX1 B0+B0"), Reserved(Increment1, 1)),
    (MayRead(LongAdd), Fine),
    (MayStore(Shift), Fine),
    (InTurn(Branch), Fine),
    (MayReturn(1), Fine),
    (MarkRead(LongAdd), Fine),
    (Release(LongAdd), Fine),
    (Returned(1), Fine),
    (Reserve("SX1 B0+B0"), Taken(X(1))),
    (Reserve("SX2 B0+B0"), Reserved(Increment2, 2)),
];

/// Branch is held from the issue of a branch to its store event. A return jump doesn't count as a store still to come.
const FOLLOWS_BRANCHES_AND_STORES: [(Call, Answer); 20] = [
    (IsBranchHeld, Truth(false)),
    (HasStoreToCome, Truth(false)),
    (Reserve("SA6 X0+B0"), Reserved(Increment1, 1)),
    (IsBranchHeld, Truth(false)),
    (HasStoreToCome, Truth(true)),
    (Reserve("ZR X1,10"), Reserved(Branch, 2)),
    (IsBranchHeld, Truth(true)),
    (MarkRead(Increment1), Fine),
    (HasStoreToCome, Truth(true)),
    (Release(Increment1), Fine),
    (HasStoreToCome, Truth(false)),
    (MarkRead(Branch), Fine),
    (IsBranchHeld, Truth(true)),
    (Release(Branch), Fine),
    (IsBranchHeld, Truth(false)),
    (Reserve("RJ 10"), Reserved(Branch, 3)),
    (IsBranchHeld, Truth(true)),
    (HasStoreToCome, Truth(false)),
    (Reserve("SA1 X0+B0"), Reserved(Increment1, 4)),
    (HasStoreToCome, Truth(false)),
];

/// The lists of calls, with the rule that each shows.
const LISTS: [(&str, &[(Call, Answer)]); 10] = [
    ("reserves a free unit", &RESERVES_A_FREE_UNIT),
    ("reserves no result twice", &RESERVES_NO_RESULT_TWICE),
    ("never waits for b0", &NEVER_WAITS_FOR_B0),
    ("waits for earlier writers", &WAITS_FOR_EARLIER_WRITERS),
    ("waits for a load", &WAITS_FOR_A_LOAD),
    ("stores after earlier reads", &STORES_AFTER_EARLIER_READS),
    ("returns after earlier reads", &RETURNS_AFTER_EARLIER_READS),
    ("keeps the turn", &KEEPS_THE_TURN),
    ("leaves free units alone", &LEAVES_FREE_UNITS_ALONE),
    ("follows branches and stores", &FOLLOWS_BRANCHES_AND_STORES),
];

/// A board answers every call as the lists say.
#[test]
fn answers_calls(rt: HostRuntime) {
    for (name, calls) in LISTS.as_slice() {
        assert_eq!(rt; first_wrong(calls), None, "{name}");
    }
}

//! The registers that one issued instruction has yet to read and to write, and the unit that it holds.

use crate::fixtures::Register;
use Ask::{HasStoreTurn, HasToCome, HasToRead, HasTurn, Holds, IsBranch};
use Register::{A, B, X};
use Stage::{Gone, Read, Returning, Waiting};
use Unit::{Branch, Increment1, Increment2};
use instruction_table::read_text;
use instructions::{Digit, Unit};
use scoreboard::{Occupancy, Reservation, is_same_unit, unit_number};

/// A query of a reservation.
#[derive(Clone, Copy, Drop)]
enum Ask {
    HasToRead(Register),
    HasToCome(Register),
    Holds(Unit),
    IsBranch,
    HasTurn,
    HasStoreTurn,
}

/// The progress of the instruction.
#[derive(Clone, Copy, Drop)]
enum Stage {
    Waiting,
    Read,
    Gone,
    /// Its load has yet to return to the X register of this number.
    Returning(u16),
}

fn occupancy(stage: Stage) -> Occupancy {
    match stage {
        Waiting => Occupancy::Reserved { has_read: false },
        Read => Occupancy::Reserved { has_read: true },
        Gone => Occupancy::Left { returning: None },
        Returning(number) => Occupancy::Left {
            returning: Some(Digit::low(number)),
        },
    }
}

fn is_so(reservation: &Reservation, question: Ask) -> bool {
    match question {
        HasToRead(register) => reservation.has_to_read(&register.reg()),
        HasToCome(register) => reservation.has_to_come(&register.reg()),
        Holds(unit) => reservation.holds(unit),
        IsBranch => reservation.is_branch(),
        HasTurn => reservation.has_turn(),
        HasStoreTurn => reservation.has_store_turn(),
    }
}

/// A case: its name, an instruction's text, its unit, its progress, and queries with their answers.
type Case = (
    &'static str,
    &'static str,
    Unit,
    Stage,
    &'static [(Ask, bool)],
);

/// The position of the first query that the reservation answers wrongly, or `None` if all answers are right.
fn first_wrong(case: &Case) -> Option<usize> {
    let (_, text, unit, stage, questions) = *case;
    let Some(instr) = read_text(text) else {
        return Some(usize::MAX);
    };
    let reservation = Reservation {
        instr,
        unit,
        occupancy: occupancy(stage),
    };
    for index in 0..questions.len() {
        let (question, wanted) = questions[index];
        if is_so(&reservation, question) != wanted {
            return Some(index);
        }
    }
    None
}

/// An increment, and B0, which is neither read nor written; a load, a store and an SA0; a return jump.
const RESERVATIONS: [Case; 10] = [
    (
        "an increment waits for its operands",
        "SX1 X1+B1",
        Increment1,
        Waiting,
        &[
            (HasToRead(X(1)), true),
            (HasToRead(B(1)), true),
            (HasToRead(A(1)), false),
            (HasToCome(X(1)), true),
            (HasToCome(B(1)), false),
            (Holds(Increment1), true),
            (Holds(Increment2), false),
            (IsBranch, false),
            (HasTurn, false),
            (HasStoreTurn, false),
        ],
    ),
    (
        "an increment has read",
        "SX1 X1+B1",
        Increment1,
        Read,
        &[
            (HasToRead(X(1)), false),
            (HasToCome(X(1)), true),
            (Holds(Increment1), true),
        ],
    ),
    (
        "an increment is done",
        "SX1 X1+B1",
        Increment1,
        Gone,
        &[
            (HasToRead(X(1)), false),
            (HasToCome(X(1)), false),
            (Holds(Increment1), false),
        ],
    ),
    (
        "B0 is neither read nor written",
        "SB0 B0+B0",
        Increment1,
        Waiting,
        &[(HasToRead(B(0)), false), (HasToCome(B(0)), false)],
    ),
    (
        "a load waits",
        "SA1 A2+B2",
        Increment1,
        Waiting,
        &[
            (HasToCome(A(1)), true),
            (HasToCome(X(1)), true),
            (HasTurn, true),
            (HasStoreTurn, false),
        ],
    ),
    (
        "a load has still to return",
        "SA1 A2+B2",
        Increment1,
        Returning(1),
        &[
            (HasToCome(A(1)), false),
            (HasToCome(X(1)), true),
            (HasTurn, false),
            (Holds(Increment1), false),
        ],
    ),
    (
        "a store waits",
        "SA6 A2+B2",
        Increment1,
        Waiting,
        &[
            (HasToRead(X(6)), true),
            (HasToCome(X(6)), false),
            (HasTurn, true),
            (HasStoreTurn, true),
        ],
    ),
    (
        "SA0 makes no reference",
        "SA0 A2+B2",
        Increment1,
        Read,
        &[(HasToCome(A(0)), true), (HasTurn, false)],
    ),
    (
        "a return jump has its turn",
        "RJ 10",
        Branch,
        Read,
        &[(IsBranch, true), (HasTurn, true), (HasStoreTurn, false)],
    ),
    (
        "a return jump is done",
        "RJ 10",
        Branch,
        Gone,
        &[(IsBranch, false), (HasTurn, false)],
    ),
];

/// A reservation answers every query as the cases say.
#[test]
fn follows_instructions(rt: HostRuntime) {
    for case in RESERVATIONS.as_slice() {
        let (name, ..) = *case;
        assert_eq!(rt; first_wrong(case), None, "{name}");
    }
}

const NUMBERS: [(Unit, usize); 10] = [
    (Branch, 0),
    (Unit::Boolean, 1),
    (Unit::Shift, 2),
    (Unit::Add, 3),
    (Unit::LongAdd, 4),
    (Unit::Multiply1, 5),
    (Unit::Multiply2, 6),
    (Unit::Divide, 7),
    (Increment1, 8),
    (Increment2, 9),
];

/// Units are numbered from 0, and only Increment1 is the same unit as Increment1.
#[test]
fn numbers_units(rt: HostRuntime) {
    for (unit, number) in NUMBERS.as_slice() {
        let answers = (unit_number(*unit), is_same_unit(*unit, Increment1));
        assert_eq!(rt; answers, (*number, *number == 8));
    }
}

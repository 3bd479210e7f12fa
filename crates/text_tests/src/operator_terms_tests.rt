//! Tests of exit statuses and of the texts of faults.

use instructions::{DeckFault, Digit, Halt, Op};
use operator_terms::{ProgramFault, end_status};
use registers::RegisterFile;
use relocation::{Area, Storage};
use sequential::{ProgramPosition, State};
use std::alloc::{AllocError, Global};
use std::process::Abort;
use std::test::Fail;

/// The exit status of a machine with this halt and fault flag.
fn ended_code(alloc: Global, halt: Option<Halt>, fault: bool) -> Result<u8, AllocError> {
    let Ok(memory) = Storage::new(alloc, 32) else {
        return Err(AllocError);
    };
    let state = State {
        registers: RegisterFile::default(),
        memory,
        position: ProgramPosition::default(),
        area: Area::default(),
        halt,
        fault,
    };
    Ok(end_status(&state).code())
}

#[test]
fn statuses(rt: HostRuntime) -> Result<(), Fail> {
    let op = Op::Plain(Digit::low(3), Digit::low(0));
    for (halt, fault, code) in [
        (None, false, 5),
        (None, true, 4),
        (Some(Halt::Stop), false, 0),
        (Some(Halt::Stop), true, 4),
        (Some(Halt::Straddle), false, 3),
        (Some(Halt::FetchRange), false, 3),
        (Some(Halt::Illegal(op)), false, 3),
        (Some(Halt::Illegal(op)), true, 4),
    ] {
        assert_eq!(rt; ended_code(rt.alloc(), halt, fault)?, code);
    }
    Ok(())
}

/// Faults that end the program, with the exit status and the text of each.
const FAULTS: [(ProgramFault, u8, &str); 9] = [
    (ProgramFault::PackageRange, 2, "E19 package range"),
    (ProgramFault::PeripheralRange, 2, "E27 peripheral range"),
    (ProgramFault::BadLog, 2, "bad log"),
    (ProgramFault::OutOfMemory, 6, "E21 out of memory"),
    (ProgramFault::Read, 7, "E22 read failed"),
    (ProgramFault::Write, 7, "E23 write failed"),
    (
        ProgramFault::Stuck,
        5,
        "the machine refused a step of the run",
    ),
    (
        ProgramFault::Deck {
            line: 1,
            fault: DeckFault::NoEnd,
        },
        1,
        "E20 line 1: no end",
    ),
    (
        ProgramFault::Deck {
            line: 10_000_001,
            fault: DeckFault::Lines,
        },
        1,
        "E20 line 10000001: lines",
    ),
];

/// Expects the exit status and the text of a fault.
fn expect_fault(
    rt: &(impl Abort + AllocGlobal),
    fault: &ProgramFault,
    code: u8,
    text: &str,
) -> Result<(), Fail> {
    let found = fault.to_string(rt.alloc())?;
    assert_eq!(rt; (fault.exit_code(), found.as_str()), (code, text));
    Ok(())
}

#[test]
fn fault_texts(rt: HostRuntime) -> Result<(), Fail> {
    for (fault, code, text) in &FAULTS {
        expect_fault(&rt, fault, *code, text)?;
    }
    Ok(())
}

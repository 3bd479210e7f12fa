//! Fixtures shared by the tests: calls of the program, and a deck.

use super::program::{Streams, program};
use std::alloc::{AllocError, Global};
use std::io::Read;
use std::process::Abort;
use std::sync::Wait;
use std::test::Fail;
use std::thread::Threads;
use std::time::Clock;

pub fn words(alloc: Global, texts: &[&str]) -> Result<Vec<String>, AllocError> {
    let mut all = Vec::new(alloc);
    for text in texts {
        all.push(String::from_str(alloc, text)?)?;
    }
    Ok(all)
}

/// Calls the program with these arguments and this input. Returns the exit status, the output and the text on the fault
/// stream.
pub fn called<R: Read + Drop>(
    rt: &(impl AllocGlobal + Threads + Wait + Clock + Sync),
    texts: &[&str],
    input: R,
) -> Result<(u8, Vec<u8>, Vec<u8>), AllocError> {
    let words = words(rt.alloc(), texts)?;
    let mut streams = Streams {
        input,
        output: Vec::new(rt.alloc()),
        faults: Vec::new(rt.alloc()),
        is_at_terminal: false,
    };
    let status = program(rt, rt.alloc(), words.as_slice(), &mut streams);
    Ok((status, streams.output, streams.faults))
}

/// A call of the program and its expected end.
#[derive(Clone, Copy, Drop)]
pub struct Case<'a> {
    /// The subject of the case.
    pub name: &'a str,
    pub arguments: &'a [&'a str],
    pub deck: &'a [u8],
    /// The input after the deck.
    pub rest: &'a [u8],
    /// The exit status.
    pub status: u8,
    pub printed: &'a [u8],
    /// The text on the fault stream.
    pub told: &'a [u8],
}

/// Expects that the call ends as the case says.
pub fn expect(
    rt: &(impl Abort + AllocGlobal + Threads + Wait + Clock + Sync),
    case: &Case<'_>,
) -> Result<(), Fail> {
    let mut input = Vec::from_slice(rt.alloc(), case.deck)?;
    input.extend_from_slice(case.rest)?;
    let (status, printed, told) = called(rt, case.arguments, input.as_slice())?;
    assert_eq!(rt;
        (status, printed.as_slice(), told.as_slice()),
        (case.status, case.printed, case.told),
        "{}",
        case.name
    );
    Ok(())
}

/// A deck that adds 5 and 3, subtracts them and stops.
pub const TWO_ADDS: &[u8] = b"\
    core 256\n\
    at 40\n\
    word 00000000000000000000\n\
    word 00000100000000000000\n\
    word 00000020000000000000\n\
    at 100\n\
    word 71100000057120000003\n\
    word 36312374214600000000\n\
    start 40\n\
    show 100 101\n\
    end\n";

/// The output of that deck's run.
pub const TWO_ADDS_DUMP: &[u8] = b"\
    P 000001 PARCEL 3 HELD 36312374214600000000\n\
    HALT stop FAULT none\n\
    RA 000100 FL 000020 EM 000000\n\
    A 000000 000000 000000 000000 000000 000000 000000 000000\n\
    B 000000 000000 000000 000000 000000 000000 000000 000000\n\
    X0 00000000000000000000\n\
    X1 00000000000000000005\n\
    X2 00000000000000000003\n\
    X3 00000000000000000010\n\
    X4 77777777777777777775\n\
    X5 00000000000000000000\n\
    X6 00000000000000000000\n\
    X7 00000000000000000000\n\
    M 000100 71100000057120000003\n\
    M 000101 36312374214600000000\n\
    LOG E40 I6\n";

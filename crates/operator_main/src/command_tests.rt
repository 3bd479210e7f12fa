//! Tests of calls of the four commands with their whole output, and of the command lines that are accepted. decks/ has
//! more calls.

use super::progress::{may_take_long, show};
use super::test_program::{Case, TWO_ADDS, TWO_ADDS_DUMP, called, expect, words};
use std::sync::atomic::AtomicU64;
use std::test::Fail;

/// The listing of the deck.
const TWO_ADDS_LIST: &[u8] = b"\
    000040 00000000000000000000 PS; PS; PS; PS\n\
    000041 00000100000000000000 PS; BX0 X0; PS; PS\n\
    000042 00000020000000000000 PS; JP B0+0; PS\n\
    000100 71100000057120000003 SX1 B0+5; SX2 B0+3\n\
    000101 36312374214600000000 IX3 X1+X2; IX4 X2-X1; NO; PS\n";

/// The output of a run of the first three instructions of the deck.
const TWO_ADDS_CUT_SHORT: &[u8] = b"\
    P 000001 PARCEL 1 HELD 36312374214600000000\n\
    HALT running FAULT none\n\
    RA 000100 FL 000020 EM 000000\n\
    A 000000 000000 000000 000000 000000 000000 000000 000000\n\
    B 000000 000000 000000 000000 000000 000000 000000 000000\n\
    X0 00000000000000000000\n\
    X1 00000000000000000005\n\
    X2 00000000000000000003\n\
    X3 00000000000000000010\n\
    X4 00000000000000000000\n\
    X5 00000000000000000000\n\
    X6 00000000000000000000\n\
    X7 00000000000000000000\n\
    M 000100 71100000057120000003\n\
    M 000101 36312374214600000000\n\
    LOG E40 I3\n";

/// A deck whose package at 40 has a program that stops.
const ASKING: &[u8] = b"\
    core 256\n\
    at 41\n\
    word 00000100000000000000\n\
    word 00000020000000000000\n\
    at 100\n\
    code PS\n\
    start 40\n\
    end\n";

/// A schedule that makes requests for exchanges.
const ASKING_SCHEDULE: &[u8] = b"\
    issue\n\
    exchange\n\
    ask 361\n\
    ask 360\n\
    ask 40\n\
    exchange\n\
    issue\n\
    issue\n\
    ask 40\n\
    exchange\n\
    issue\n\
    end\n";

/// The answers to the schedule, and the dump.
const ASKING_ANSWERS: &[u8] = b"\
    E1 halted stop\n\
    E15 nothing\n\
    E19 package range\n\
    ok\n\
    E17 exchange busy\n\
    ok\n\
    ok\n\
    E1 halted fetch\n\
    ok\n\
    ok\n\
    ok\n\
    P 000000 PARCEL 0 HELD 00000460004600046000\n\
    HALT stop FAULT none\n\
    RA 000100 FL 000020 EM 000000\n\
    A 000000 000000 000000 000000 000000 000000 000000 000000\n\
    B 000000 000000 000000 000000 000000 000000 000000 000000\n\
    X0 00000000000000000000\n\
    X1 00000000000000000000\n\
    X2 00000000000000000000\n\
    X3 00000000000000000000\n\
    X4 00000000000000000000\n\
    X5 00000000000000000000\n\
    X6 00000000000000000000\n\
    X7 00000000000000000000\n\
    LOG E360 I1 E40 I1\n";

/// A deck whose program ends in an instruction across the end of its word.
const STRADDLING: &[u8] = b"\
    core 256\n\
    at 41\n\
    word 00000100000000000000\n\
    word 00000020000000000000\n\
    at 100\n\
    word 46000460004600071100\n\
    start 40\n\
    end\n";

/// The output of that deck's run.
const STRADDLING_DUMP: &[u8] = b"\
    P 000000 PARCEL 3 HELD 46000460004600071100\n\
    HALT straddle FAULT none\n\
    RA 000100 FL 000020 EM 000000\n\
    A 000000 000000 000000 000000 000000 000000 000000 000000\n\
    B 000000 000000 000000 000000 000000 000000 000000 000000\n\
    X0 00000000000000000000\n\
    X1 00000000000000000000\n\
    X2 00000000000000000000\n\
    X3 00000000000000000000\n\
    X4 00000000000000000000\n\
    X5 00000000000000000000\n\
    X6 00000000000000000000\n\
    X7 00000000000000000000\n\
    LOG E40 I4\n";

/// A deck whose second load is out of range, with an exit mode that records the fault.
const FAULTING: &[u8] = b"\
    core 256\n\
    at 41\n\
    word 00000100000000000000\n\
    word 00000020000000000000\n\
    word 00010000000000000000\n\
    at 100\n\
    word 51100000175120000020\n\
    word 46000460004600000000\n\
    at 117\n\
    word 123\n\
    start 40\n\
    end\n";

/// The dump after both loads and a NO.
const FAULTING_DUMP: &[u8] = b"\
    P 000001 PARCEL 1 HELD 46000460004600000000\n\
    HALT running FAULT address\n\
    RA 000100 FL 000020 EM 010000\n\
    A 000000 000017 000020 000000 000000 000000 000000 000000\n\
    B 000000 000000 000000 000000 000000 000000 000000 000000\n\
    X0 00000000000000000000\n\
    X1 00000000000000000123\n\
    X2 00000000000000000000\n\
    X3 00000000000000000000\n\
    X4 00000000000000000000\n\
    X5 00000000000000000000\n\
    X6 00000000000000000000\n\
    X7 00000000000000000000\n\
    LOG E40 I3\n";

const CASES: [Case<'static>; 17] = [
    Case {
        name: "a run",
        arguments: &["run"],
        deck: TWO_ADDS,
        rest: b"",
        status: 0,
        printed: TWO_ADDS_DUMP,
        told: b"",
    },
    Case {
        name: "a run of one instruction at a time",
        arguments: &["run", "--sequential"],
        deck: TWO_ADDS,
        rest: b"",
        status: 0,
        printed: TWO_ADDS_DUMP,
        told: b"",
    },
    Case {
        name: "a run whose budget is used up",
        arguments: &["run", "--budget", "3"],
        deck: TWO_ADDS,
        rest: b"",
        status: 5,
        printed: TWO_ADDS_CUT_SHORT,
        told: b"",
    },
    Case {
        name: "a sequential run whose budget is used up",
        arguments: &["run", "--sequential", "--budget", "3"],
        deck: TWO_ADDS,
        rest: b"",
        status: 5,
        printed: TWO_ADDS_CUT_SHORT,
        told: b"",
    },
    Case {
        name: "the replay of its log",
        arguments: &["replay", "E40 I6"],
        deck: TWO_ADDS,
        rest: b"",
        status: 0,
        printed: TWO_ADDS_DUMP,
        told: b"",
    },
    Case {
        name: "the replay of a beginning of its log",
        arguments: &["replay", "E40 I3"],
        deck: TWO_ADDS,
        rest: b"",
        status: 5,
        printed: TWO_ADDS_CUT_SHORT,
        told: b"",
    },
    Case {
        name: "the replay of the log after the deck",
        arguments: &["replay", "--log-follows"],
        deck: TWO_ADDS,
        rest: b"E40 I6\nmore\n",
        status: 0,
        printed: TWO_ADDS_DUMP,
        told: b"",
    },
    Case {
        name: "the replay of a log without a line end",
        arguments: &["replay", "--log-follows"],
        deck: TWO_ADDS,
        rest: b"E40 I6",
        status: 0,
        printed: TWO_ADDS_DUMP,
        told: b"",
    },
    Case {
        name: "a run that a straddling instruction halts",
        arguments: &["run"],
        deck: STRADDLING,
        rest: b"",
        status: 3,
        printed: STRADDLING_DUMP,
        told: b"",
    },
    Case {
        name: "the replay of a log with an address fault",
        arguments: &["replay", "E40 I3"],
        deck: FAULTING,
        rest: b"",
        status: 4,
        printed: FAULTING_DUMP,
        told: b"",
    },
    Case {
        name: "the replay of a text that is no log",
        arguments: &["replay", "E40 I2 I2"],
        deck: TWO_ADDS,
        rest: b"",
        status: 2,
        printed: b"",
        told: b"cdc6600: bad log\n",
    },
    Case {
        name: "the replay of an exchange with a package past the memory",
        arguments: &["replay", "E361"],
        deck: TWO_ADDS,
        rest: b"",
        status: 2,
        printed: b"",
        told: b"cdc6600: E19 package range\n",
    },
    Case {
        name: "the replay of an access past the memory",
        arguments: &["replay", "R400"],
        deck: TWO_ADDS,
        rest: b"",
        status: 2,
        printed: b"",
        told: b"cdc6600: E27 peripheral range\n",
    },
    Case {
        name: "a list of words and instructions",
        arguments: &["list"],
        deck: TWO_ADDS,
        rest: b"more\n",
        status: 0,
        printed: TWO_ADDS_LIST,
        told: b"",
    },
    Case {
        name: "a session",
        arguments: &["events"],
        deck: ASKING,
        rest: ASKING_SCHEDULE,
        status: 0,
        printed: ASKING_ANSWERS,
        told: b"",
    },
    Case {
        name: "a session whose schedule has no end",
        arguments: &["events"],
        deck: b"core 256\nstart 0\nend\n",
        rest: b"ask 361\nask 360\n",
        status: 1,
        printed: b"E19 package range\nok\n",
        told: b"cdc6600: E20 line 6: no end\n",
    },
    Case {
        name: "the version",
        arguments: &["--version"],
        deck: b"",
        rest: b"",
        status: 0,
        printed: b"cdc6600 0.1.0\n",
        told: b"",
    },
];

#[test]
fn commands(rt: HostRuntime) -> Result<(), Fail> {
    for case in &CASES {
        expect(&rt, case)?;
    }
    Ok(())
}

/// Arguments, the exit status, and the beginning of the text printed. The text goes to standard output if the status is
/// 0, and to the fault stream otherwise.
type Usage<'a> = (&'a [&'a str], u8, &'a str);

const USAGES: [Usage<'static>; 24] = [
    (&["--help"], 0, "A CDC 6600"),
    (&["--version"], 0, "cdc6600 0.1.0\n"),
    (&["run", "--help"], 0, "Runs the deck"),
    (&["list", "--help"], 0, "Prints the words"),
    (&["replay", "--help"], 0, "Goes through LOG"),
    (&["events", "--help"], 0, "Makes the events"),
    (&["replay"], 2, "error: "),
    (&["replay", "E40", "I4"], 2, "error: "),
    (&[], 2, "A CDC 6600"),
    (&["walk"], 2, "error: "),
    (&["help"], 0, "A CDC 6600"),
    (&["help", "run"], 0, "Runs the deck"),
    (&["help", "walk"], 2, "error: "),
    (&["replay", "--log-follows", "E40"], 2, "error: "),
    (&["replay", "--log-follows=E40"], 2, "error: "),
    (&["replay", "--log", "a"], 2, "error: "),
    (&["run", "more"], 2, "error: "),
    (&["run", "--sequential", "more"], 2, "error: "),
    (&["run", "--budget"], 2, "error: "),
    (&["run", "--budget", "0"], 2, "error: "),
    (&["run", "--budget", "10000001"], 2, "error: "),
    (&["run", "--budget", "3x"], 2, "error: "),
    (&["list", "--budget", "3"], 2, "error: "),
    (&["events", "--sequential"], 2, "error: "),
];

/// A run and a replay may take long. Nothing is shown for work that has ended.
#[test]
fn shows_nothing_at_the_end(rt: HostRuntime) -> Result<(), Fail> {
    for (command, is_long) in [("run", true), ("replay", true), ("events", false)].iter() {
        let words = words(rt.alloc(), &[*command])?;
        assert_eq!(rt; may_take_long(words.as_slice()), *is_long);
    }
    let mut shown = Vec::new(rt.alloc());
    show(&rt, &mut shown, &AtomicU64::new(1));
    assert!(rt; shown.is_empty());
    Ok(())
}

/// No byte of a deck is read.
#[test]
fn usage(rt: HostRuntime) -> Result<(), Fail> {
    for (arguments, status, begins) in &USAGES {
        let mut input = b"core 31\n".as_slice();
        let (ended, output, faults) = called(&rt, arguments, &mut input)?;
        let (told, untold) = if *status == 0 {
            (output, faults)
        } else {
            (faults, output)
        };
        let has_begun = told.as_slice().starts_with(begins.as_bytes());
        assert_eq!(rt;
            (ended, has_begun, untold.is_empty(), input.len()),
            (*status, true, true, 8),
            "{begins}"
        );
    }
    Ok(())
}

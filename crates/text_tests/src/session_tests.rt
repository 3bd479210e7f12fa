//! Tests of sessions, lists, replays and runs with devices that fail: what is answered, what was written before, and
//! what is left unread.

use crate::fixtures::{DECK, Dripping, Failing, joined};
use instructions::Refusal;
use job_deck::{events, list, replay, replay_following, run_sequentially};
use sequential::State;
use std::alloc::Global;
use std::io::{Read, Write};
use std::process::Abort;
use std::test::Fail;

/// What is done with a deck: the replay of a given log, or of the log that follows; a run of three instructions, or a
/// session with one.
enum Job {
    List,
    Replay,
    ReplayFollowing,
    Run,
    Events,
}

const LISTING: &str = "\
    000041 00000100000000000000 PS; BX0 X0; PS; PS\n\
    000042 00000020000000000000 PS; JP B0+0; PS\n\
    000100 71100000057120000003 SX1 B0+5; SX2 B0+3\n\
    000101 36312374214600000000 IX3 X1+X2; IX4 X2-X1; NO; PS\n";

/// The dump after three instructions.
const DUMP: &str = "\
    P 000001 PARCEL 1 HELD 36312374214600000000\n\
    HALT running FAULT none\n\
    RA 000100 FL 000020 EM 000000\n\
    A 000000 000000 000000 000000 000000 000000 000000 000000\n\
    B 000000 000000 000000 000000 000000 000000 000000 000000\n\
    X0 00000000000000000000\n\
    X1 00000000000000000005\n\
    X2 00000000000000000003\n\
    X3 00000000000000000010\n\
    X4 00000000000000000000\n\
    X5 00000000000000000000\n\
    X6 00000000000000000000\n\
    X7 00000000000000000000\n\
    LOG E40 I3\n";

/// What is done, what follows the deck, and the whole output.
const JOBS: [(Job, &str, &str); 5] = [
    (Job::List, "", LISTING),
    (Job::Replay, "", DUMP),
    (Job::ReplayFollowing, "E40 I3\n", DUMP),
    (Job::Run, "", DUMP),
    (
        Job::Events,
        "ask 40\nexchange\nissue\nend\n",
        "ok\nok\nok increment1 1\nNOT DRAINED\nLOG E40 I1\n",
    ),
];

/// What a replay answers, without its state.
fn replayed(ended: Result<Option<State>, Refusal>) -> Result<(), Refusal> {
    match ended {
        Ok(Some(_)) => Ok(()),
        Ok(None) => Err(Refusal::Nothing),
        Err(refusal) => Err(refusal),
    }
}

/// What a run answers, without its state.
fn ran(ended: Result<State, Refusal>) -> Result<(), Refusal> {
    let _ = ended?;
    Ok(())
}

/// Does a job from any reader to any writer.
fn done<R: Read, W: Write>(
    alloc: Global,
    job: &Job,
    reader: &mut R,
    writer: &mut W,
) -> Result<(), Refusal> {
    match job {
        Job::List => list(alloc, reader, writer),
        Job::Replay => replayed(replay(alloc, reader, writer, "E40 I3")),
        Job::ReplayFollowing => replayed(replay_following(alloc, reader, writer)),
        Job::Run => ran(run_sequentially(alloc, reader, writer, 3)),
        Job::Events => events(alloc, reader, writer, 1),
    }
}

/// Does a job with a reader that fails at some reads, the one after the last byte too. That byte ends the job, so the
/// last reader doesn't fail.
fn expect_read_failures(
    rt: &(impl Abort + AllocGlobal),
    job: &Job,
    bytes: &[u8],
    whole: &[u8],
) -> Result<(), Fail> {
    let reads = bytes.len() as u64;
    for fails_from in [1, 2, reads, reads.saturating_add(1)] {
        let mut input = Failing {
            bytes,
            turn: 0,
            fails_from,
        };
        let mut output = Vec::new(rt.alloc());
        let ended = done(rt.alloc(), job, &mut input, &mut output);
        let is_whole = fails_from > reads;
        let wanted = if is_whole { Ok(()) } else { Err(Refusal::Read) };
        let is_beginning = whole.starts_with(output.as_slice());
        assert!(rt;
            ended == wanted && is_beginning && (output.len() == whole.len()) == is_whole,
            "{fails_from}"
        );
    }
    Ok(())
}

#[test]
fn from_failing_readers(rt: HostRuntime) -> Result<(), Fail> {
    for (job, follows, whole) in &JOBS {
        let bytes = joined(rt.alloc(), [DECK, follows].as_slice())?;
        expect_read_failures(&rt, job, bytes.as_slice(), whole.as_bytes())?;
    }
    Ok(())
}

/// Does a job with a writer that takes a byte per call and fails once it has so many.
fn expect_write_failures(
    rt: &(impl Abort + AllocGlobal),
    job: &Job,
    bytes: &[u8],
    whole: &[u8],
) -> Result<(), Fail> {
    let length = whole.len();
    for most in [0, 1, 5, length.saturating_sub(1), length] {
        let mut input = bytes;
        let mut output = Dripping {
            bytes: Vec::new(rt.alloc()),
            most,
            handed_on: 0,
        };
        let ended = done(rt.alloc(), job, &mut input, &mut output);
        let is_beginning = whole.starts_with(output.bytes.as_slice());
        let wanted = if most < length {
            Err(Refusal::Write)
        } else {
            Ok(())
        };
        assert!(rt;
            ended == wanted && is_beginning && output.bytes.len() == most,
            "{most}"
        );
    }
    Ok(())
}

#[test]
fn to_failing_writers(rt: HostRuntime) -> Result<(), Fail> {
    for (job, follows, whole) in &JOBS {
        let bytes = joined(rt.alloc(), [DECK, follows].as_slice())?;
        expect_write_failures(&rt, job, bytes.as_slice(), whole.as_bytes())?;
    }
    Ok(())
}

/// Whether a session fails at read number `fails_from` after writing these answers.
fn fails_after(alloc: Global, bytes: &[u8], fails_from: u64, answers: &[u8]) -> bool {
    let mut input = Failing {
        bytes,
        turn: 0,
        fails_from,
    };
    let mut output = Vec::new(alloc);
    let ended = events(alloc, &mut input, &mut output, 4);
    ended == Err(Refusal::Read) && output.as_slice() == answers
}

/// Each line is answered before the next line is read.
#[test]
fn answers_before_a_failing_read(rt: HostRuntime) -> Result<(), Fail> {
    let bytes = joined(rt.alloc(), [DECK, "issue\nissue\n"].as_slice())?;
    let read = DECK.len() as u64 + 6;
    assert!(rt;
        fails_after(rt.alloc(), bytes.as_slice(), read, b"")
            && fails_after(rt.alloc(), bytes.as_slice(), read + 1, b"E1 halted stop\n")
    );
    Ok(())
}

/// After an answer that can't be written no further line is read.
#[test]
fn answers_to_a_failing_writer(rt: HostRuntime) -> Result<(), Fail> {
    let bytes = joined(rt.alloc(), [DECK, "issue\nissue\n"].as_slice())?;
    let mut input = bytes.as_slice();
    let mut output = Dripping {
        bytes: Vec::new(rt.alloc()),
        most: 4,
        handed_on: 0,
    };
    let result = events(rt.alloc(), &mut input, &mut output, 4);
    let is_cut = result == Err(Refusal::Write) && output.bytes.as_slice() == b"E1 h".as_slice();
    assert!(rt; is_cut && input == b"issue\n".as_slice());
    Ok(())
}

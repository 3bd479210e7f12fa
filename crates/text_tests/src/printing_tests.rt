//! Tests of dumps of states, and of logs that are read from a text.

use deck::{Deck, read_deck};
use instructions::Refusal;
use job_deck::dump;
use log_text::read_log;
use relocation::Storage;
use sequential::{Log, State};
use std::alloc::{AllocError, Global};
use std::test::Fail;

/// Whether the dump of a machine just after boot begins and ends as it should.
fn is_dumped(alloc: Global, deck: &Deck, memory: Storage) -> bool {
    let mut output = Vec::new(alloc);
    let dumped = dump(&State::boot(memory), &Log::new(alloc), deck, &mut output);
    let begins = b"P 000000 PARCEL 0 HELD none\nHALT stop FAULT none\n";
    let ends = b"M 000000 00000000000000000000\nM 000001 00000000000000000000\nLOG none\n";
    dumped.is_ok() && output.starts_with(begins) && output.ends_with(ends)
}

#[test]
fn dumps(rt: HostRuntime) -> Result<(), Fail> {
    let mut input = b"core 32\nstart 0\nshow 0 1\nend\n".as_slice();
    let Ok(memory) = Storage::new(rt.alloc(), 32) else {
        return Err(Fail::from(AllocError));
    };
    let is_right = match read_deck(rt.alloc(), &mut input) {
        Ok(deck) => is_dumped(rt.alloc(), &deck, memory),
        Err(_) => false,
    };
    assert!(rt; is_right);
    Ok(())
}

/// A text, and the number of the entries and of the instructions of the log that it is, if it is one.
const LOGS: [(&str, Option<(usize, u64)>); 10] = [
    ("none", Some((0, 0))),
    ("E40 I4", Some((2, 4))),
    ("I10000000", Some((1, 10_000_000))),
    ("E0 I1 E777777 I9999999", Some((4, 10_000_000))),
    ("E40 I1 R111 R110 W110=5 I2", Some((6, 3))),
    ("R0 W777777=77777777777777777777 W0=0", Some((3, 0))),
    ("", None),
    ("E040", None),
    ("I01", None),
    ("E40 I2 I2", None),
];

/// The number of the entries and of the instructions of a log.
fn sizes(read: Result<Option<Log>, Refusal>) -> Result<Option<(usize, u64)>, Refusal> {
    match read {
        Ok(Some(log)) => Ok(Some((log.entries().len(), log.issues()))),
        Ok(None) => Ok(None),
        Err(refusal) => Err(refusal),
    }
}

#[test]
fn reads_logs(rt: HostRuntime) -> Result<(), Fail> {
    for (text, wanted) in &LOGS {
        assert_eq!(rt; sizes(read_log(rt.alloc(), text)), Ok(*wanted), "{text}");
    }
    Ok(())
}

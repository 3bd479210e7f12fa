//! Positions at the end of the address space, logs and their copies, and replays whose last entry is refused. The decks
//! and pages in `decks/` show fetches, steps, references and exchanges.

use crate::fixtures::{digit, index, word};
use instructions::{Instr, ParcelNumber, Refusal, Reg};
use relocation::Storage;
use sequential::{Entry, Log, ProgramPosition, State, Work, replay};
use std::alloc::Global;
use std::test::Fail;
use unit_ops::UnitValue;

/// X3 = X1+X1, X3 = X3+X3, NO and PS.
const DOUBLING: u64 = 0o36311_36333_46000_00000;

/// The position at the beginning of the word at an address.
fn beginning(p: u32) -> ProgramPosition {
    ProgramPosition {
        p: index(p),
        parcel: ParcelNumber::default(),
        held: None,
    }
}

/// The first word follows the last, and no word is held at the beginning of a word. There is no parcel 4.
#[test]
fn moves_on(rt: HostRuntime) {
    let last = index(0o777777);
    let found = [
        ProgramPosition::after_parcel(last, word(DOUBLING), 4),
        ProgramPosition::at(last),
    ];
    assert!(rt; found == [beginning(0), beginning(0o777777)] && ParcelNumber::new(4).is_none());
}

/// An entry that is refused in the tests.
#[derive(Clone, Copy, Drop)]
enum Last {
    /// An exchange with the package at 61, whose last word is beyond memory.
    Exchange,
    /// A peripheral processor's read of the word after the last.
    PpRead,
}

/// The log of an exchange, an instruction, and an entry that is refused.
fn log_with(alloc: Global, last: Last) -> Result<Log, Refusal> {
    let mut log = Log::new(alloc);
    match log.reserve(3) {
        Ok(()) => {}
        Err(refusal) => return Err(refusal),
    }
    log.exchanged(0o40);
    if log.issues() < u64::MAX {
        log.issued();
    }
    match last {
        Last::Exchange => log.exchanged(0o61),
        Last::PpRead => log.read_at(0o100),
    }
    Ok(log)
}

/// A machine of 64 words. Word 0 is `DOUBLING`, and at 40 is the package of a program with P 0, RA 0, FL 1 and 5 in X1.
fn doubling(alloc: Global) -> Result<State, Fail> {
    let mut memory = Storage::new(alloc, 64)?;
    memory.store(0, word(DOUBLING));
    memory.store(0o42, word(0o00000001_000000_000000));
    memory.store(0o51, word(5));
    Ok(State::boot(memory))
}

/// Whether the replay of a log is refused, and the exchange and the instruction before are done.
fn is_refused(state: &mut State, log: &Log, refusal: Refusal) -> bool {
    let done = replay(state, log);
    let x3 = state.registers.get(Reg::X(digit(3)));
    done == Err(refusal) && x3 == word(10) && state.position.parcel.get() == 1
}

/// The entries before the refused one are done.
#[test]
fn replays(rt: HostRuntime) -> Result<(), Fail> {
    for (last, refusal) in [
        (Last::Exchange, Refusal::PackageRange),
        (Last::PpRead, Refusal::PeripheralRange),
    ] {
        let mut state = doubling(rt.alloc())?;
        let log = log_with(rt.alloc(), last)?;
        assert!(rt; is_refused(&mut state, &log, refusal));
    }
    Ok(())
}

/// The number written is the address of a reference, or an index, without its sign.
#[test]
fn writes_numbers(rt: HostRuntime) {
    let high = index(0o777777);
    let numbers = [
        Work::of(&Instr::Pass, &UnitValue::Index(high)).number,
        Work::of(&Instr::Pass, &UnitValue::Load(high)).number,
        Work::of(&Instr::Pass, &UnitValue::Store(high, word(5))).number,
    ];
    assert_eq!(rt; numbers, [word(0o777777), word(0o777777), word(0o777777)]);
}

/// A step of a log.
#[derive(Clone, Copy, Drop)]
enum Did {
    Instruction,
    /// An exchange with the package at this address.
    Exchange(u32),
    /// A peripheral processor reads the word at this address.
    PpRead(u32),
    /// A peripheral processor writes this word to this address.
    PpWrite(u32, u64),
}

fn add(log: &mut Log, did: Did) -> Result<(), Refusal> {
    match log.reserve(1) {
        Ok(()) => {}
        Err(refusal) => return Err(refusal),
    }
    match did {
        Did::Exchange(at) => log.exchanged(at),
        Did::PpRead(at) => log.read_at(at),
        Did::PpWrite(at, number) => log.wrote(at, word(number)),
        Did::Instruction => {
            if log.issues() < u64::MAX {
                log.issued();
            }
        }
    }
    Ok(())
}

fn log_of(alloc: Global, steps: &[Did]) -> Result<Log, Refusal> {
    let mut log = Log::new(alloc);
    for did in steps {
        if let Err(refusal) = add(&mut log, *did) {
            return Err(refusal);
        }
    }
    Ok(log)
}

/// Steps, the entries of their log as steps with counts, and the number of instructions. A constant can't lend an
/// `Entry`, which may hold a word.
const LOGS: [(&[Did], &[(Did, u64)], u64); 3] = [
    (&[], &[], 0),
    (
        &[
            Did::Exchange(0o40),
            Did::Instruction,
            Did::Instruction,
            Did::Exchange(0o60),
            Did::Instruction,
        ],
        &[
            (Did::Exchange(0o40), 1),
            (Did::Instruction, 2),
            (Did::Exchange(0o60), 1),
            (Did::Instruction, 1),
        ],
        3,
    ),
    (
        &[
            Did::Instruction,
            Did::PpRead(0o50),
            Did::Instruction,
            Did::PpRead(0o50),
            Did::PpWrite(0o51, 5),
        ],
        &[
            (Did::Instruction, 1),
            (Did::PpRead(0o50), 1),
            (Did::Instruction, 1),
            (Did::PpRead(0o50), 1),
            (Did::PpWrite(0o51, 5), 1),
        ],
        2,
    ),
];

/// The entry for `count` steps of a kind.
fn entry_of(did: Did, count: u64) -> Entry {
    match did {
        Did::Instruction => Entry::Issued(count),
        Did::Exchange(at) => Entry::Exchange(at),
        Did::PpRead(at) => Entry::PpRead(at),
        Did::PpWrite(at, number) => Entry::PpWrite(at, word(number)),
    }
}

/// Whether the entries are the wanted ones.
fn are(entries: &[Entry], wanted: &[(Did, u64)]) -> bool {
    if entries.len() != wanted.len() {
        return false;
    }
    for index in 0..wanted.len() {
        let (did, count) = wanted[index];
        if entries[index] != entry_of(did, count) {
            return false;
        }
    }
    true
}

/// Consecutive instructions are one entry, and a copy has the same entries.
#[test]
fn logs(rt: HostRuntime) -> Result<(), Fail> {
    for (steps, entries, issues) in LOGS.as_slice() {
        let log = log_of(rt.alloc(), steps)?;
        let copy = log.copy()?;
        let is_logged = are(log.entries(), entries) && log.issues() == *issues;
        let is_copied = are(copy.entries(), entries) && copy.issues() == *issues;
        assert!(rt; is_logged && is_copied);
    }
    Ok(())
}

use crate::{Op, Reg, Unit};
use std::fmt;
use std::fmt::{Display, Formatter, Write};
use thiserror::Error;

/// The reason why the machine is halted.
#[derive(Clone, Copy, Debug, Drop, PartialEq, Eq)]
pub enum Halt {
    /// A stop was issued, or the machine has just been booted.
    Stop,
    /// An opcode that this machine refuses.
    Illegal(Op),
    /// An instruction of two parcels that begins in the last parcel of its word.
    Straddle,
    /// The word at P is out of range.
    FetchRange,
}

/// A fault of a line of a deck or a schedule. `Display` writes the word that the program prints for it.
#[derive(Clone, Copy, Debug, Drop, Error, PartialEq, Eq)]
pub enum DeckFault {
    /// More than 10,000,000 lines.
    #[error("lines")]
    Lines,
    /// A line of more than 200 bytes.
    #[error("long")]
    Long,
    /// The first line isn't a `core` line.
    #[error("first")]
    First,
    /// An unknown line, or a wrong number of fields.
    #[error("unknown")]
    Unknown,
    /// A field that isn't a number in its base, or is too large.
    #[error("number")]
    Number,
    /// A memory size that isn't 32 to 131,072 words.
    #[error("size")]
    Size,
    /// A second `core` or `start`.
    #[error("repeated")]
    Repeated,
    /// A 65th `show` or `ask`.
    #[error("many")]
    Many,
    /// An address that isn't in memory.
    #[error("range")]
    Range,
    /// A package whose sixteen words don't fit into memory.
    #[error("package")]
    Package,
    /// A text that isn't an instruction.
    #[error("instruction")]
    Instruction,
    /// Instructions that don't fit into one word.
    #[error("full")]
    Full,
    /// There is no `start` line before the end.
    #[error("no start")]
    NoStart,
    /// The input ended before the `end` line.
    #[error("no end")]
    NoEnd,
}

/// The reason for a refusal. `label` returns its number and its text; the program prints both for a refused event of a
/// schedule, and for some faults of its own. If several reasons apply, the one with the lowest number is reported, and
/// `OutOfMemory` comes last.
#[derive(Clone, Copy, Debug, Drop, PartialEq, Eq)]
pub enum Refusal {
    /// Issue: the machine is halted.
    Halted(Halt),
    /// Issue: the fault flag is set.
    Faulted,
    /// Issue: the budget is used up. Ask: 1,000,000 requests were accepted. Peripheral access: 1,000,000 accesses were
    /// accepted.
    Budget,
    /// Issue: the Branch unit is reserved.
    BranchPending,
    /// Issue: an exchange is asked for and no word is held.
    ExchangeWaiting,
    /// Issue: a store may still change the word to be fetched.
    FetchWait,
    /// Issue: no unit of the kind is free. Names the lower-numbered unit of the kind.
    UnitBusy(Unit),
    /// Issue: the first result register that an earlier instruction has not yet written, A before X.
    ResultReserved(Reg),
    /// Read: the first operand that an earlier instruction has not yet written.
    OperandAwaited(Reg),
    /// Store or return: the register that an earlier instruction has not yet read.
    ResultHeld(Reg),
    /// Store: the reference is in range, and all four places of the hopper are taken.
    HopperFull,
    /// Store: an earlier reference has not yet had its store event.
    OutOfTurn,
    /// Accept: the bank is busy.
    BankBusy(u8),
    /// Accept: an older reference to the same address waits, and one of the two stores.
    OlderAtAddress,
    /// The event has nothing to act on.
    Nothing,
    /// A token that doesn't match the slot it names.
    Stranger,
    /// Ask: another request is waiting.
    ExchangeBusy,
    /// Exchange or snapshot: the machine isn't drained.
    NotDrained,
    /// The sixteen words of the package aren't all in memory.
    PackageRange,
    /// A line of the deck or the schedule is refused; lines are numbered from 1.
    Deck { line: u32, fault: DeckFault },
    /// Memory ran out.
    OutOfMemory,
    /// A read failed.
    Read,
    /// A write or a flush failed, or a write took no bytes of a nonempty piece.
    Write,
    /// A memory size that isn't 32 to 131,072 words.
    MemorySize,
    /// Exchange: the program is in the middle of a word, and the machine has neither halted nor faulted.
    MidWord,
    /// Peripheral access: a reference has not yet had its store event, or a reference in the hopper waits for the word.
    PeripheralWait,
    /// Peripheral access: the address isn't in memory.
    PeripheralRange,
}

impl Refusal {
    ghost use Rattle.std.specs.Prelude.{◌≡◌};
    ghost use Rattle.instructions.specs.Refusals.{label_of};

    /// The number and the text of the refusal. The text ends in a space if a name follows it.
    pub fn label(&self) -> &'static str
        ensures { result.now ≡ label_of self.now }
    {
        match self {
            Refusal::Halted(_) => "E1 halted ",
            Refusal::Faulted => "E2 faulted",
            Refusal::Budget => "E3 budget",
            Refusal::BranchPending => "E4 branch pending",
            Refusal::ExchangeWaiting => "E5 exchange waiting",
            Refusal::FetchWait => "E6 fetch waits",
            Refusal::UnitBusy(_) => "E7 unit busy ",
            Refusal::ResultReserved(_) => "E8 result reserved ",
            Refusal::OperandAwaited(_) => "E9 operand awaited ",
            Refusal::ResultHeld(_) => "E10 result held ",
            Refusal::HopperFull => "E11 hopper full",
            Refusal::OutOfTurn => "E12 out of turn",
            Refusal::BankBusy(_) => "E13 bank busy ",
            Refusal::OlderAtAddress => "E14 older at address",
            Refusal::Nothing => "E15 nothing",
            Refusal::Stranger => "E16 stranger",
            Refusal::ExchangeBusy => "E17 exchange busy",
            Refusal::NotDrained => "E18 not drained",
            Refusal::PackageRange => "E19 package range",
            Refusal::Deck { .. } => "E20 line ",
            Refusal::OutOfMemory => "E21 out of memory",
            Refusal::Read => "E22 read failed",
            Refusal::Write => "E23 write failed",
            Refusal::MemorySize => "E24 memory size",
            Refusal::MidWord => "E25 mid word",
            Refusal::PeripheralWait => "E26 peripheral waits",
            Refusal::PeripheralRange => "E27 peripheral range",
        }
    }
}

/// Writes the label and, for a refused line, its number and its fault. `job_deck` writes the names that follow some
/// labels, with the answers of a schedule.
impl Display for Refusal {
    fn fmt<W: Write>(&self, f: &mut Formatter<W>) -> fmt::Result {
        f.write_str(self.label())?;
        if let Refusal::Deck { line, fault } = self {
            write!(f, "{line}: {fault}")?;
        }
        Ok(())
    }
}

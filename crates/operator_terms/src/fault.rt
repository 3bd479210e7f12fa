ghost use Rattle.std.specs.Prelude.{◌≡◌};

use crate::status::Status;
use instructions::{DeckFault, Refusal};
use thiserror::Error;

/// Why the program ends without its output. `Display` writes the refusal's label and text, or a text of the program's.
#[derive(Clone, Copy, Debug, Drop, Error, PartialEq, Eq)]
pub enum ProgramFault {
    /// A line of the deck or the schedule was refused; lines are numbered from 1.
    #[error("{label}{line}: {fault}", label = Refusal::Deck {line: *.line, fault: *.fault}.label())]
    Deck { line: u32, fault: DeckFault },
    /// The package of an exchange in the log to replay isn't all in memory.
    #[error("{label}", label = Refusal::PackageRange.label())]
    PackageRange,
    /// The address of a peripheral access in the log to replay isn't in memory.
    #[error("{label}", label = Refusal::PeripheralRange.label())]
    PeripheralRange,
    /// Memory ran out.
    #[error("{label}", label = Refusal::OutOfMemory.label())]
    OutOfMemory,
    /// A read failed.
    #[error("{label}", label = Refusal::Read.label())]
    Read,
    /// A write or a flush failed.
    #[error("{label}", label = Refusal::Write.label())]
    Write,
    /// The log to replay isn't the text of a log.
    #[error("bad log")]
    BadLog,
    /// The machine refused a step of a run. No contract excludes it, but no run has done it: decks are judged first.
    #[error("the machine refused a step of the run")]
    Stuck,
}

impl ProgramFault {
    ghost use Rattle.operator_terms.specs.Status.{code_of, fault_status};

    /// The exit status.
    pub fn exit_code(&self) -> u8
        ensures { result ≡ code_of (fault_status self.now) }
    {
        let status = match self {
            ProgramFault::Deck { .. } => Status::Refused,
            ProgramFault::PackageRange | ProgramFault::PeripheralRange | ProgramFault::BadLog =>
                Status::Usage,
            ProgramFault::OutOfMemory => Status::OutOfMemory,
            ProgramFault::Read | ProgramFault::Write => Status::Device,
            ProgramFault::Stuck => Status::Running,
        };
        status as u8
    }
}

impl From<Refusal> for ProgramFault {
    ghost use Rattle.operator_terms.specs.Status.{fault_of};

    ghost from_gives = { λ refusal fault. fault ≡ fault_of refusal };

    fn from(refusal: Refusal) -> ProgramFault {
        // All refusals are listed, so that a new one has to be sorted here.
        match refusal {
            Refusal::Deck { line, fault } => ProgramFault::Deck { line, fault },
            Refusal::PackageRange => ProgramFault::PackageRange,
            Refusal::PeripheralRange => ProgramFault::PeripheralRange,
            Refusal::OutOfMemory => ProgramFault::OutOfMemory,
            Refusal::Read => ProgramFault::Read,
            Refusal::Write => ProgramFault::Write,
            Refusal::Halted(_)
            | Refusal::Faulted
            | Refusal::Budget
            | Refusal::BranchPending
            | Refusal::ExchangeWaiting
            | Refusal::FetchWait
            | Refusal::UnitBusy(_)
            | Refusal::ResultReserved(_)
            | Refusal::OperandAwaited(_)
            | Refusal::ResultHeld(_)
            | Refusal::HopperFull
            | Refusal::OutOfTurn
            | Refusal::BankBusy(_)
            | Refusal::OlderAtAddress
            | Refusal::Nothing
            | Refusal::Stranger
            | Refusal::ExchangeBusy
            | Refusal::NotDrained
            | Refusal::MemorySize
            | Refusal::MidWord
            | Refusal::PeripheralWait => ProgramFault::Stuck,
        }
    }
}

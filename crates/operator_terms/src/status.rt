ghost use Rattle.std.specs.Prelude.{◌≡◌};
ghost use Rattle.operator_terms.specs.Status.{status_of};

use instructions::Halt;
use sequential::State;

/// The exit statuses of the program.
#[derive(Clone, Copy, Debug, Drop, PartialEq, Eq)]
pub enum Status {
    /// The program of the deck stopped, or everything requested was written.
    Stopped = 0,
    /// The deck or the schedule is refused.
    Refused = 1,
    /// The command line is refused, or the log.
    Usage = 2,
    /// A refused opcode, an instruction across a word's end or a fetch out of range halted the machine.
    Halted = 3,
    /// An address was out of range, and the exit mode made that a fault.
    AddressFault = 4,
    /// The machine still runs: the budget is used up, or the end of the log is reached.
    Running = 5,
    /// Memory ran out.
    OutOfMemory = 6,
    /// A read or a write failed.
    Device = 7,
}

impl Status {
    ghost use Rattle.operator_terms.specs.Status.{code_of};

    /// The exit status.
    pub fn code(self) -> u8
        ensures { result ≡ code_of self }
    {
        self as u8
    }
}

/// The status for a machine at its end. A fault wins over a halt.
pub fn end_status(state: &State) -> Status
    ensures { result ≡ status_of state.now.fault state.now.halt }
{
    if state.fault {
        return Status::AddressFault;
    }
    match state.halt {
        None => Status::Running,
        Some(Halt::Stop) => Status::Stopped,
        Some(Halt::Illegal(_)) => Status::Halted,
        Some(Halt::Straddle) => Status::Halted,
        Some(Halt::FetchRange) => Status::Halted,
    }
}

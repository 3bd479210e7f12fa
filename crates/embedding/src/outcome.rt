ghost use Rattle.std.specs.Prelude.{◌≡◌, ◌≤◌, length};
ghost use Rattle.embedding.specs.Embedding.{HandsOver, filled};
ghost use Rattle.embedding.specs.Keeping.{silent};
ghost use Rattle.embedding.specs.Version.{version};

use arrayvec::ArrayVec;
use operator_terms::{ProgramFault, Status};
use std::io::Write;

/// A buffer size that is more than the bytes of a fault line.
const FAULT_LINE: usize = 64;

/// The status of a call on a handle without a machine. The program has no such exit status.
pub const NO_MACHINE: u8 = 8;

/// The status of a call that needs a drained machine, if the machine isn't drained.
pub const NOT_DRAINED: u8 = 9;

/// The number of the program's version, as the program prints it.
const VERSION_NUMBER: &str = "0.1.0";

/// The outcome of a call. The bytes are counted even if they didn't fit.
#[repr(C)]
#[derive(Clone, Copy, Drop)]
pub struct Outcome {
    /// The number of bytes that the command prints.
    pub printed: usize,
    /// The number of bytes of its fault line, or 0 if there is none.
    pub told: usize,
    /// The exit status of the program.
    pub status: u8,
}

/// Copies as much of a text as fits. Returns the length of the text.
fn fill(text: &[u8], room: &mut [u8]) -> usize
    ensures bytes { room.new ≡ filled text.now room.old }
    ensures needed { result ≡ length text.now }
{
    let needed = text.len();
    let count = needed.min(room.len());
    room[..count].copy_from_slice(&text[..count]);
    needed
}

/// Copies as much of the version as fits. Returns the length of the version.
pub fn fill_version(output: &mut [u8]) -> usize
    ensures bytes { output.new ≡ filled version output.old }
    ensures needed { result ≡ length version }
{
    fill(VERSION_NUMBER.as_bytes(), output)
}

/// An outcome with nothing printed and no fault line.
pub fn silent(status: u8) -> Outcome
    ensures { result ≡ silent status }
{
    Outcome {
        printed: 0,
        told: 0,
        status,
    }
}

/// Writes as much of the fault line as fits. Returns the length of the line.
fn tell(fault: &ProgramFault, line: &mut [u8]) -> usize
    ensures { result ≤ 64 }
{
    let mut text = ArrayVec::<u8, FAULT_LINE>::new();
    let _ = writeln!(text, "cdc6600: {fault}");
    fill(text.as_slice(), line)
}

/// Copies the output of a command, and its fault line if it has one, to the caller. Returns the outcome.
pub fn hand_over(
    ended: Result<Status, ProgramFault>,
    text: &[u8],
    output: &mut [u8],
    line: &mut [u8],
) -> Outcome
    ensures { HandsOver result ended text.now output.old output.new }
{
    let printed = fill(text, output);
    match ended {
        Ok(status) => Outcome {
            printed,
            told: 0,
            status: status.code(),
        },
        Err(fault) => Outcome {
            printed,
            told: tell(&fault, line),
            status: fault.exit_code(),
        },
    }
}

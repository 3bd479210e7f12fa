ghost use Rattle.std.specs.Prelude.{◌≡◌, ◌≢◌, false, true, length, Result, Ok, Err, OnOk};
ghost use Rattle.std.specs.IoError.{error_kind};
ghost use Rattle.clap.specs.Values.{kind_of};
ghost use Rattle.device_text.specs.Device.{Moves, NothingWaits};
ghost use Rattle.operator_terms.specs.declared.fault.ProgramFault.{ProgramFault};
ghost use Rattle.operator_terms.specs.declared.fault.ProgramFault.TheVariants.{OutOfMemory};
ghost use Rattle.operator_terms.specs.declared.status.Status.{Status};
ghost use Rattle.operator_terms.specs.declared.status.Status.TheVariants.{Usage};
ghost use Rattle.deck_run.specs.Running.{is_write_fault};
ghost use Rattle.operator_main.specs.Program.{EndsUnasked, EndsWith, ExitsAsItDoes, Tells, TellsAtMost, exit_code};
ghost use Rattle.operator_main.specs.Request.{CarriesOut, Performed};

use arrayvec::ArrayVec;
use clap::Error;
use clap::error::ErrorKind;
use command_line::{Request, read_arguments};
use deck_run::{replay_following_log, replay_log, run_deck, run_deck_sequentially};
use device_text::{CheckedBufReader, CheckedWriter, Input, LineBuffer, Output, find_fault};
use job_deck::{events_to, list_to};
use operator_terms::{ProgramFault, Status};
use std::alloc::Global;
use std::io;
use std::io::{BufReader, ErrorKind as IoErrorKind, Read, Write};
use std::sync::Wait;
use std::thread::Threads;
use std::time::Clock;

/// The length of the longest fault line.
const ONE_LINE: usize = 47;

/// The length of the longest fault line that is followed by the line of a position.
const WITH_POSITION: usize = 237;

/// The streams of the program.
#[derive(Drop)]
pub struct Streams<R, W, F> {
    /// The input, which begins with a deck unless the words make no request.
    pub input: R,
    /// The output. It is written piece by piece, so it should be buffered. It is flushed after each answer of a
    /// session, and at the end if no fault occurred.
    pub output: W,
    /// The fault stream. A failed write to it doesn't change the exit status.
    pub faults: F,
    /// Whether the fault stream is a terminal. If so, and a line is refused, a second line after the fault line has the
    /// position of the fault.
    pub is_at_terminal: bool,
}

/// The fault line.
fn fault_line(fault: &ProgramFault) -> ArrayVec<u8, ONE_LINE> {
    let mut text = ArrayVec::new();
    let _ = writeln!(text, "cdc6600: {fault}");
    text
}

/// The fault line. If a line was refused, it is `line`, and a second line has the position of the fault in it.
fn fault_line_with_position(fault: &ProgramFault, line: &[u8]) -> ArrayVec<u8, WITH_POSITION> {
    let mut text = ArrayVec::new();
    let _ = writeln!(text, "cdc6600: {fault}");
    if let ProgramFault::Deck { fault, .. } = fault
        && let Some(position) = find_fault(*fault, line)
    {
        let _ = writeln!(text, "cdc6600: {position}");
    }
    text
}

/// Writes a text to the fault stream in one write, so that the lines of programs that run side by side don't mix.
fn tell<F: Write>(faults: &mut F, text: &[u8])
    ensures { TellsAtMost (length text.now) (F.contents faults.old) (F.contents faults.new) }
{
    let mut told = CheckedWriter::new(&mut *faults);
    let _ = told.put(text);
    // The proof reads what the fault stream holds from this use, which has no other effect.
    let _ = &*told.into_inner();
}

/// Writes the fault line to the fault stream. Returns the exit status.
pub fn report_fault<F: Write>(faults: &mut F, fault: ProgramFault) -> u8
    ensures status { result ≡ exit_code (Err fault) }
    ensures told { Tells false (Err fault) (F.contents faults.old) (F.contents faults.new) }
{
    tell(faults, fault_line(&fault).as_slice());
    fault.exit_code()
}

/// Writes the fault line to the fault stream and, if a line was refused, the position of the fault. `line` is the
/// refused line. Returns the exit status.
fn report_fault_with_position<F: Write>(faults: &mut F, fault: ProgramFault, line: &[u8]) -> u8
    ensures status { result ≡ exit_code (Err fault) }
    ensures told { Tells true (Err fault) (F.contents faults.old) (F.contents faults.new) }
{
    tell(faults, fault_line_with_position(&fault, line).as_slice());
    fault.exit_code()
}

/// Reports a fault, with its position or without. If a line was refused, it is `line`. Returns the exit status.
fn report<F: Write>(faults: &mut F, fault: ProgramFault, line: &[u8], with_position: bool) -> u8
    ensures status { result ≡ exit_code (Err fault) }
    ensures told { Tells with_position (Err fault) (F.contents faults.old) (F.contents faults.new) }
{
    if with_position {
        report_fault_with_position(faults, fault, line)
    } else {
        report_fault(faults, fault)
    }
}

/// Reports that the arguments can't be read: one isn't UTF-8, or memory ran out. Returns the exit status.
pub fn report_bad_argument<F: Write>(faults: &mut F, error: io::Error) -> u8
    ensures memory { error_kind error ≡ IoErrorKind.OutOfMemory → result ≡ exit_code (Err OutOfMemory) }
    ensures refused { error_kind error ≢ IoErrorKind.OutOfMemory → result ≡ exit_code (Ok Usage) }
{
    if error.kind() == IoErrorKind::OutOfMemory {
        return report_fault(faults, ProgramFault::OutOfMemory);
    }
    let _ = faults.write_all(b"error: an argument is no text\n");
    Status::Usage.code()
}

/// Writes the text of `clap` and flushes it.
///
/// # Errors
/// The error of the write or of the flush that failed.
fn put_text<W: Write>(output: &mut W, error: &Error) -> io::Result<()> {
    write!(output, "{error}")?;
    output.flush()
}

/// Writes `clap`'s text for a command line without a request: to the output if help or the version was asked for,
/// otherwise to the fault stream. Returns the exit status.
fn report_usage<W: Write, F: Write>(output: &mut W, faults: &mut F, error: Error) -> u8
    ensures { EndsWith false result
        (λ end. EndsUnasked (kind_of error) end (W.contents output.old) (W.contents output.new))
        (F.contents faults.old) (F.contents faults.new) }
{
    if error.kind() == ErrorKind::OutOfMemory {
        return report_fault(faults, ProgramFault::OutOfMemory);
    }
    if error.use_stderr() {
        let _ = write!(faults, "{error}");
        return Status::Usage.code();
    }
    match put_text(output, &error) {
        Ok(()) => Status::Stopped.code(),
        Err(_) => report_fault(faults, ProgramFault::Write),
    }
}

/// Carries out a request on the deck of an input.
///
/// # Errors
/// As the function of the request: `run_deck`, `run_deck_sequentially`, `replay_log`, `replay_following_log`,
/// `events_to` or `list_to`.
fn carry_out<T: Threads + Wait + Clock + Sync, I: Input, O: Output>(
    rt: &T,
    alloc: Global,
    request: &Request<'_>,
    input: &mut I,
    output: &mut O,
    line: &mut LineBuffer,
) -> Result<Status, ProgramFault>
    ensures carried_out { Moves (I.remaining input.old) (I.remaining input.new)
        (λ xs ys. CarriesOut request.now result xs ys (O.contents output.old) (O.contents output.new)) }
    ensures handed_on { OnOk result (O.waits output.new ≡ false) }
    ensures kept { NothingWaits (is_write_fault result) (O.waits output.old) (O.waits output.new) }
    ensures same { O.lender output.new ≡ O.lender output.old }
{
    match *request {
        Request::Run(budget) => run_deck(rt, alloc, input, output, line, budget),
        Request::RunSequentially(budget) => run_deck_sequentially(
            alloc, input, output, line, budget,
        ),
        Request::Replay(log) => replay_log(alloc, input, output, line, log),
        Request::ReplayFollowing => replay_following_log(alloc, input, output, line),
        Request::Events(budget) => {
            events_to(alloc, input, output, line, budget.get())?;
            Ok(Status::Stopped)
        }
        Request::List => {
            list_to(alloc, input, output, line)?;
            Ok(Status::Stopped)
        }
    }
}

/// Carries out a request on an input and reports its fault, with its position or without. A buffered reader saves a
/// system call for each byte. Returns the exit status.
fn perform<T: Threads + Wait + Clock + Sync, R: Read, W: Write, F: Write>(
    rt: &T,
    alloc: Global,
    request: &Request<'_>,
    input: &mut R,
    output: &mut W,
    faults: &mut F,
    with_position: bool,
) -> u8
    ensures { EndsWith with_position result
        (λ end. Performed request.now end (R.remaining input.old) (W.contents output.old) (W.contents output.new))
        (F.contents faults.old) (F.contents faults.new) }
{
    let Ok(mut reader) = BufReader::new(alloc, &mut *input) else {
        let fault = ProgramFault::OutOfMemory;
        return report(faults, fault, b"", with_position);
    };
    let mut input = CheckedBufReader::new(&mut reader);
    let mut output = CheckedWriter::new(&mut *output);
    let mut line = LineBuffer::new();
    let ended = carry_out(rt, alloc, request, &mut input, &mut output, &mut line);
    // The proof reads what the output holds from this use, which has no other effect.
    let _ = &*output.into_inner();
    match ended {
        Ok(status) => status.code(),
        Err(fault) => report(faults, fault, line.as_slice(), with_position),
    }
}

/// Runs the program with these arguments, which don't include the program's name. Returns the exit status.
pub fn program<T: Threads + Wait + Clock + Sync, R: Read, W: Write, F: Write>(
    rt: &T,
    alloc: Global,
    words: &[String],
    streams: &mut Streams<R, W, F>,
) -> u8
    ensures { ExitsAsItDoes streams.old.is_at_terminal result (R.remaining streams.old.input)
        (R.remaining streams.new.input) (W.contents streams.old.output) (W.contents streams.new.output)
        (F.contents streams.old.faults) (F.contents streams.new.faults) }
{
    match read_arguments(alloc, words) {
        Ok(request) => {
            let input = &mut streams.input;
            let output = &mut streams.output;
            let faults = &mut streams.faults;
            let with_position = streams.is_at_terminal;
            perform(rt, alloc, &request, input, output, faults, with_position)
        }
        Err(error) => report_usage(&mut streams.output, &mut streams.faults, error),
    }
}

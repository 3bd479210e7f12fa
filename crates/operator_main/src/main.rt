//! The program `cdc6600`. It runs a deck and prints the machine's dump, replays a log on a deck, answers the events of
//! a schedule, or lists a deck's words.
//!
//! `main` calls `program::program` with the words of the command line and exits with the status that it returns. The
//! contract of `program` says what it does with its input, its output and its fault stream, and that the exit status
//! matches that. It doesn't say which words make which request. If standard error is a terminal, the program also shows
//! the position of the fault in a refused line. `main` buffers the output, so that printing a piece takes no system
//! call. `progress` shows at a terminal that a long run is still going.
//!
//! Its tests call `program`. Their first table is `CASES` in `command_tests`: calls of each command with their whole
//! output, exit status and fault line. `device_tests` has readers and writers that fail, and `fault_tests` arguments
//! that can't be read. Together they bring about each exit status and each kind of fault line, except that of
//! `ProgramFault::Stuck`. decks/, which `tools/check decks` and `tools/check pages` try, has more decks and refused
//! lines. Begin with `program::program`.
#![tactic(auto)]

mod program;
mod progress;

use operator_terms::ProgramFault;
use program::Streams;
use std::io::{BufWriter, IsTerminal};
use std::process::ExitCode;
use std::sync::atomic::{AtomicU64, Ordering};
use std::{env, thread};

/// The fault with which the program ends if there is no memory for its arguments or its buffers.
const NO_MEMORY: ProgramFault = ProgramFault::OutOfMemory;

fn main(rt: HostRuntime) -> ExitCode {
    let mut stderr = rt.stderr();
    let mut words = match env::args(&rt) {
        Ok(words) => words,
        Err(error) => return ExitCode::from(program::report_bad_argument(&mut stderr, error)),
    };
    let _ = words.next();
    let Ok(words) = words.collect::<Vec<String>>(rt.alloc()) else {
        return ExitCode::from(program::report_fault(&mut stderr, NO_MEMORY));
    };
    let Ok(output) = BufWriter::new(rt.alloc(), rt.stdout()) else {
        return ExitCode::from(program::report_fault(&mut stderr, NO_MEMORY));
    };
    let is_at_terminal = stderr.is_terminal();
    // Progress isn't shown while the deck is being typed at a terminal.
    let is_shown = is_at_terminal
        && progress::may_take_long(words.as_slice())
        && !rt.stdin().is_terminal();
    let ended = AtomicU64::new(0);
    thread::scope(thread::scope_env(), &rt, |scope| {
        if is_shown {
            let mut terminal = rt.stderr();
            let (runtime, ended) = (&rt, &ended);
            let _ = scope.spawn(move || progress::show(runtime, &mut terminal, ended));
        }
        let mut streams = Streams {
            input: rt.stdin(),
            output,
            faults: stderr,
            is_at_terminal,
        };
        let status = program::program(&rt, rt.alloc(), words.as_slice(), &mut streams);
        ended.store(1, Ordering::SeqCst);
        ended.wake_all();
        ExitCode::from(status)
    })
}

#[cfg(test)]
mod command_tests;
#[cfg(test)]
mod device_tests;
#[cfg(test)]
mod fault_tests;
#[cfg(test)]
mod test_program;

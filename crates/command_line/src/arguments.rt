use crate::version::VERSION;
use clap::builder::ValueParser;
use clap::error::ErrorKind;
use clap::{Arg, ArgAction, ArgMatches, Command, Error};
use instructions::MOST_ISSUES;
use operator_terms::Budget;
use std::alloc::{AllocError, Global};

/// The end of the text that `--help` prints for the program. The texts for its commands follow below.
const AFTER_HELP: &str = "\
Example:
  cdc6600 run < decks/two-adds.deck

Exit status:
  0  the program stopped, or all that was asked for is printed
  1  the deck or the schedule is refused
  2  the command line is refused, or the log
  3  the program was halted by a refused opcode, a straddling instruction or a fetch out of range
  4  the machine has an address fault
  5  the budget is used up, or the log has no more
  6  memory ran out
  7  a read or a write failed

Decks, schedules, logs and dumps are described in docs/use/formats.md.";

const AFTER_RUN: &str = "\
Examples:
  cdc6600 run --budget 3 < decks/two-adds.deck
  cdc6600 run --sequential < decks/two-adds.deck

The exit statuses are those that cdc6600 --help names.";

const AFTER_REPLAY: &str = "\
Examples:
  cdc6600 replay \"E40 I4\" < decks/two-adds.deck
  (cat decks/two-adds.deck; echo E40 I4) | cdc6600 replay --log-follows

The exit statuses are those that cdc6600 --help names.";

const AFTER_EVENTS: &str = "\
Example:
  cdc6600 events < decks/sessions/conflicts.session

Exit status: 0 once the last line is answered, else 1, 2, 6 or 7 as cdc6600 --help names them.";

const AFTER_LIST: &str = "\
Example:
  cdc6600 list < decks/two-adds.deck

Exit status: 0 once all is listed, else 1, 2, 6 or 7 as cdc6600 --help names them.";

/// The request of a command line.
#[derive(Clone, Copy, Debug, Drop, PartialEq, Eq)]
pub enum Request<'a> {
    /// Run a deck with threads, and issue at most this many instructions.
    Run(Budget),
    /// Run a deck one instruction at a time, and execute at most this many instructions.
    RunSequentially(Budget),
    /// Replay the log in this text on a deck.
    Replay(&'a str),
    /// Replay the log in the line that follows the deck.
    ReplayFollowing,
    /// Answer the events of a schedule, and issue at most this many instructions.
    Events(Budget),
    /// List a deck's words.
    List,
}

/// The option `--budget N`.
fn budget_option<'a>(alloc: Global) -> Arg<'a> {
    Arg::new(alloc, "budget")
        .long("budget")
        .value_name("N")
        .value_parser(ValueParser::unsigned(1, MOST_ISSUES))
        .default_value("1000000")
        .help("Issues at most N instructions")
}

/// The option `--sequential` of `run`.
fn sequential_option<'a>(alloc: Global) -> Arg<'a> {
    Arg::new(alloc, "sequential")
        .long("sequential")
        .action(ArgAction::SetTrue)
        .help("Does one instruction at a time, without threads")
}

/// The command `run`.
fn run_command<'a>(alloc: Global) -> Result<Command<'a>, AllocError> {
    Command::new(alloc, "run")
        .about("Runs the deck on standard input and prints the machine's dump")
        .override_usage("cdc6600 run [--sequential] [--budget N]")
        .after_help(AFTER_RUN)
        .arg(sequential_option(alloc))?
        .arg(budget_option(alloc))
}

/// The argument LOG of `replay`.
fn log_argument<'a>(alloc: Global) -> Result<Arg<'a>, AllocError> {
    Arg::new(alloc, "LOG")
        .help("What the dump of a run has after LOG, as one argument")
        .required_unless_present("log-follows")?
        .conflicts_with("log-follows")
}

/// The option `--log-follows` of `replay`.
fn log_follows_option<'a>(alloc: Global) -> Arg<'a> {
    Arg::new(alloc, "log-follows")
        .long("log-follows")
        .action(ArgAction::SetTrue)
        .help("Reads the log from the line after the deck")
}

/// The command `replay`.
fn replay_command<'a>(alloc: Global) -> Result<Command<'a>, AllocError> {
    let log = log_argument(alloc)?;
    Command::new(alloc, "replay")
        .about(
            "Goes through LOG on the deck on standard input, one instruction at a time, and prints the machine's dump",
        )
        .override_usage("cdc6600 replay LOG|--log-follows")
        .after_help(AFTER_REPLAY)
        .arg(log)?
        .arg(log_follows_option(alloc))
}

/// The command `events`.
fn events_command<'a>(alloc: Global) -> Result<Command<'a>, AllocError> {
    Command::new(alloc, "events")
        .about(
            "Makes the events of the schedule after the deck on standard input, one a line, and answers each",
        )
        .override_usage("cdc6600 events [--budget N]")
        .after_help(AFTER_EVENTS)
        .arg(budget_option(alloc))
}

/// The command `list`.
fn list_command<'a>(alloc: Global) -> Command<'a> {
    Command::new(alloc, "list")
        .about("Prints the words of the deck on standard input with their instructions")
        .override_usage("cdc6600 list")
        .after_help(AFTER_LIST)
}

/// The command line of the program, without its commands.
fn bare_program<'a>(alloc: Global) -> Command<'a> {
    Command::new(alloc, "cdc6600")
        .about("A CDC 6600 central processor with its scoreboard")
        .version(VERSION)
        .after_help(AFTER_HELP)
        .arg_required_else_help(true)
        .no_binary_name(true)
        .subcommand_required(true)
}

/// Adds a command to the program, if there was memory for that command.
fn with_command<'a>(
    program: Command<'a>,
    command: Result<Command<'a>, AllocError>,
) -> Result<Command<'a>, AllocError> {
    program.subcommand(command?)
}

/// The whole command line of the program.
fn accepted<'a>(alloc: Global) -> Result<Command<'a>, AllocError> {
    let program = with_command(bare_program(alloc), run_command(alloc))?;
    let program = with_command(program, replay_command(alloc))?;
    let program = with_command(program, events_command(alloc))?;
    program.subcommand(list_command(alloc))
}

/// The budget of a command. `clap` accepts only numbers that a budget may have.
fn budget(matches: &ArgMatches<'_>) -> Option<Budget> {
    Budget::new(matches.get_one::<u64>("budget")?)
}

/// The request of the words after `run`.
fn run_asked_for<'a>(matches: &ArgMatches<'_>) -> Option<Request<'a>> {
    let budget = budget(matches)?;
    if matches.get_flag("sequential") {
        Some(Request::RunSequentially(budget))
    } else {
        Some(Request::Run(budget))
    }
}

/// The request of the words after `replay`.
fn replay_asked_for<'a>(matches: &ArgMatches<'a>) -> Request<'a> {
    match matches.get_str("LOG") {
        Some(log) => Request::Replay(log),
        None => Request::ReplayFollowing,
    }
}

/// The request of words that `clap` accepted, or `None` if they make none. `clap` accepts no such words.
fn asked_for<'a>(matches: &ArgMatches<'a>) -> Option<Request<'a>> {
    match matches.subcommand()? {
        ("run", run) => run_asked_for(run),
        ("replay", replay) => Some(replay_asked_for(replay)),
        ("events", events) => Some(Request::Events(budget(events)?)),
        ("list", _) => Some(Request::List),
        _ => None,
    }
}

/// The error for words that `clap` accepted although they make no request.
fn no_command(command: &mut Command<'_>) -> Error {
    match command.error(ErrorKind::MissingSubcommand, "no such command") {
        Ok(error) => error,
        Err(failed) => Error::from(failed),
    }
}

/// Parses the words of a command line with the program's `Command`.
fn request_of<'a>(command: &mut Command<'a>, words: &'a [String]) -> Result<Request<'a>, Error> {
    let matches = command.try_get_matches_from_mut(words)?;
    match asked_for(&matches) {
        Some(request) => Ok(request),
        None => Err(no_command(command)),
    }
}

/// Parses a command line without the program's name.
///
/// # Errors
/// Errors of `clap`: a refused command line, a request for help, or `OutOfMemory`.
pub fn read_arguments<'a>(alloc: Global, words: &'a [String]) -> Result<Request<'a>, Error> {
    let mut command = accepted(alloc)?;
    request_of(&mut command, words)
}

//! The simulator as functions for C, or for a language that calls C. Some functions do what the commands `run
//! --sequential`, `list`, `replay` and `events` do, from bytes in memory to bytes in memory. The others keep a machine
//! and drive it event by event. This crate is a static library: include/cdc6600.h declares its functions, and
//! docs/use/emulators.md explains how to call them.
//!
//! Callers rely on the contracts here, which say the same as those of `job_deck` for any reader and writer. A call
//! copies as much of the text as fits, and that is the text that the command prints. No contract binds a caller in C.
//! The functions of `commands` do the work. Its tests are `tools/check embedding`, and those of the commands, in
//! `crates/text_tests/src/session_tests.rt`. Begin with `cdc6600_list`.
#![tactic(auto)]

ghost use Rattle.std.specs.Prelude.{◌≡◌, None, false, length, not};
ghost use Rattle.in_flight.specs.Lookup.{is_pending};
ghost use Rattle.embedding.specs.Advance.{Advances};
ghost use Rattle.contents_text.specs.Contents.{unread_text, banks_text, channels_text, hopper_text, next_text};
ghost use Rattle.contents_text.specs.Contents.{request_text, reserved_text, units_text};
ghost use Rattle.embedding.specs.Embedding.{HasRun, IsListed, IsReplayed, IsSession, filled};
ghost use Rattle.embedding.specs.Keeping.{OnMachine, IsSilent, no_machine, HasBooted, DoesText, MakesNext};
ghost use Rattle.embedding.specs.Keeping.{HandsOverText, IsDrainedBy, IsDumped, IsLogged, JudgesText, TellsRegisters};
ghost use Rattle.embedding.specs.Keeping.{TellsWords};
ghost use Rattle.embedding.specs.Version.{version};

mod advancing;
mod booted;
mod box_parts;
mod commands;
mod contents;
mod input_bytes;
mod machine_handle;
mod outcome;
mod owned_pointer;
mod reading;
mod showing;
mod stepping;

use contents::show_contents;
use contents_text::Part;
pub use machine_handle::MachineHandle;
pub use outcome::Outcome;
use outcome::{NO_MACHINE, silent};
pub use reading::Registers;
use std::alloc::Global;

/// Lists the words of a deck.
#[unsafe(no_mangle)]
pub extern "C" fn cdc6600_list(
    alloc: Global,
    input: &[u8],
    output: &mut [u8],
    line: &mut [u8],
) -> Outcome
    ensures { IsListed input.now result output.old output.new }
{
    commands::list_bytes(alloc, input, output, line)
}

/// Runs a deck, one instruction at a time and at most `budget` instructions, and dumps the machine.
#[unsafe(no_mangle)]
pub extern "C" fn cdc6600_run(
    alloc: Global,
    input: &[u8],
    budget: u64,
    output: &mut [u8],
    line: &mut [u8],
) -> Outcome
    ensures { HasRun input.now budget result output.old output.new }
{
    commands::run_bytes(alloc, input, budget, output, line)
}

/// Replays a log on a deck, one instruction at a time, and dumps the machine.
#[unsafe(no_mangle)]
pub extern "C" fn cdc6600_replay(
    alloc: Global,
    input: &[u8],
    log: &[u8],
    output: &mut [u8],
    line: &mut [u8],
) -> Outcome
    ensures { IsReplayed input.now log.now result output.old output.new }
{
    commands::replay_bytes(alloc, input, log, output, line)
}

/// Answers the events of the schedule after a deck. Issues at most `budget` instructions.
#[unsafe(no_mangle)]
pub extern "C" fn cdc6600_events(
    alloc: Global,
    input: &[u8],
    budget: u64,
    output: &mut [u8],
    line: &mut [u8],
) -> Outcome
    ensures { IsSession input.now budget result output.old output.new }
{
    commands::session_of_bytes(alloc, input, budget, output, line)
}

/// Copies the version of the program to `output`, as much as fits, and returns its length.
#[unsafe(no_mangle)]
pub extern "C" fn cdc6600_version(output: &mut [u8]) -> usize
    ensures text { output.new ≡ filled version output.old }
    ensures needed { result ≡ length version }
{
    outcome::fill_version(output)
}

/// Boots a machine with the memory of a deck. The machine will issue at most `budget` instructions. A machine that the
/// handle had before is freed, even if none is booted.
#[unsafe(no_mangle)]
pub extern "C" fn cdc6600_boot(
    alloc: Global,
    machine: &mut MachineHandle,
    input: &[u8],
    budget: u64,
    line: &mut [u8],
) -> Outcome
    ensures { HasBooted input.now budget result machine.new.owned.machine }
{
    booted::boot_bytes(alloc, machine, input, budget, line)
}

/// Makes or refuses the event that a schedule line says, and answers it.
#[unsafe(no_mangle)]
pub extern "C" fn cdc6600_event(
    alloc: Global,
    machine: &mut MachineHandle,
    event: &[u8],
    output: &mut [u8],
    line: &mut [u8],
) -> Outcome
    ensures { OnMachine machine.old.owned.machine machine.new.owned.machine
        (IsSilent no_machine result output.old output.new)
        (λ b c. DoesText event.now b c result output.old output.new) }
{
    match machine.take(alloc) {
        Some(mut booted) => {
            let outcome = stepping::do_line(&mut booted, event, output, line);
            machine.put(booted);
            outcome
        }
        None => silent(NO_MACHINE),
    }
}

/// Makes the next event and answers it. That is the event that a drain would make. If nothing is pending it is the
/// requested exchange, if that may be made, or else an issue. The output is the schedule line of the event and the line
/// of its answer.
#[unsafe(no_mangle)]
pub extern "C" fn cdc6600_next(
    alloc: Global,
    machine: &mut MachineHandle,
    output: &mut [u8],
    line: &mut [u8],
) -> Outcome
    ensures { OnMachine machine.old.owned.machine machine.new.owned.machine
        (IsSilent no_machine result output.old output.new)
        (λ b c. MakesNext b c result output.old output.new) }
{
    match machine.take(alloc) {
        Some(mut booted) => {
            let outcome = stepping::make_next(&mut booted, output, line);
            machine.put(booted);
            outcome
        }
        None => silent(NO_MACHINE),
    }
}

/// Makes the next event, as `cdc6600_next` does, up to `most` times. Makes no more after an event that is refused, or
/// after an event that leaves nothing pending and the first instruction in the word at `address` next. Returns how many
/// events were made.
#[unsafe(no_mangle)]
pub extern "C" fn cdc6600_advance(
    alloc: Global,
    machine: &mut MachineHandle,
    most: u64,
    address: u32,
) -> u64
    ensures { OnMachine machine.old.owned.machine machine.new.owned.machine (result ≡ 0)
        (λ b c. (c.deck ≡ b.deck) × Advances most address b.machine c.machine result) }
{
    match machine.take(alloc) {
        Some(mut booted) => {
            let count = advancing::advance(&mut booted, most, address);
            machine.put(booted);
            count
        }
        None => 0,
    }
}

/// Drains the machine and returns the number of events that this took, or 0 if there is no machine.
#[unsafe(no_mangle)]
pub extern "C" fn cdc6600_drain(alloc: Global, machine: &mut MachineHandle) -> u32
    ensures { OnMachine machine.old.owned.machine machine.new.owned.machine (result ≡ 0)
        (λ b c. IsDrainedBy b c result) }
{
    match machine.take(alloc) {
        Some(mut booted) => {
            let count = stepping::drain(&mut booted);
            machine.put(booted);
            count
        }
        None => 0,
    }
}

/// Whether there is a machine and it is drained.
#[unsafe(no_mangle)]
pub extern "C" fn cdc6600_is_drained(alloc: Global, machine: &mut MachineHandle) -> bool
    ensures { OnMachine machine.old.owned.machine machine.new.owned.machine (result ≡ false)
        (λ b c. (c ≡ b) × (result ≡ not (is_pending b.machine.pending))) }
{
    match machine.take(alloc) {
        Some(booted) => {
            let is_drained = booted.machine.drained();
            machine.put(booted);
            is_drained
        }
        None => false,
    }
}

/// Dumps the machine if it is drained.
#[unsafe(no_mangle)]
pub extern "C" fn cdc6600_dump(
    alloc: Global,
    machine: &mut MachineHandle,
    output: &mut [u8],
    line: &mut [u8],
) -> Outcome
    ensures { OnMachine machine.old.owned.machine machine.new.owned.machine
        (IsSilent no_machine result output.old output.new)
        (λ b c. (c ≡ b) × IsDumped b result output.old output.new) }
{
    match machine.take(alloc) {
        Some(booted) => {
            let outcome = showing::show_dump(alloc, &booted, output, line);
            machine.put(booted);
            outcome
        }
        None => silent(NO_MACHINE),
    }
}

/// Copies the text of the machine's log to `output`.
#[unsafe(no_mangle)]
pub extern "C" fn cdc6600_log(
    alloc: Global,
    machine: &mut MachineHandle,
    output: &mut [u8],
    line: &mut [u8],
) -> Outcome
    ensures { OnMachine machine.old.owned.machine machine.new.owned.machine
        (IsSilent no_machine result output.old output.new)
        (λ b c. (c ≡ b) × IsLogged b result output.old output.new) }
{
    match machine.take(alloc) {
        Some(booted) => {
            let outcome = showing::show_log(alloc, &booted, output, line);
            machine.put(booted);
            outcome
        }
        None => silent(NO_MACHINE),
    }
}

/// Copies a line to `output` for each functional unit that an instruction holds, in the order of the units' numbers:
/// the name of the unit, the number of the reservation, the stage and the instruction.
#[unsafe(no_mangle)]
pub extern "C" fn cdc6600_units(
    alloc: Global,
    machine: &mut MachineHandle,
    output: &mut [u8],
    line: &mut [u8],
) -> Outcome
    ensures { OnMachine machine.old.owned.machine machine.new.owned.machine
        (IsSilent no_machine result output.old output.new)
        (λ b c. (c ≡ b) × HandsOverText (units_text b.machine.pending) result output.old output.new) }
{
    show_contents(alloc, machine, Part::Units, output, line)
}

/// Copies a line to `output` for each place of the hopper in which a reference waits: the place, the number of the
/// reservation, the absolute address in octal, `load` or `store`, and the instruction.
#[unsafe(no_mangle)]
pub extern "C" fn cdc6600_hopper(
    alloc: Global,
    machine: &mut MachineHandle,
    output: &mut [u8],
    line: &mut [u8],
) -> Outcome
    ensures { OnMachine machine.old.owned.machine machine.new.owned.machine
        (IsSilent no_machine result output.old output.new)
        (λ b c. (c ≡ b) × HandsOverText (hopper_text b.machine.pending) result output.old output.new) }
{
    show_contents(alloc, machine, Part::Hopper, output, line)
}

/// Copies a line to `output` for each load channel in which a load waits: the channel, the number of the reservation,
/// the word and the instruction.
#[unsafe(no_mangle)]
pub extern "C" fn cdc6600_channels(
    alloc: Global,
    machine: &mut MachineHandle,
    output: &mut [u8],
    line: &mut [u8],
) -> Outcome
    ensures { OnMachine machine.old.owned.machine machine.new.owned.machine
        (IsSilent no_machine result output.old output.new)
        (λ b c. (c ≡ b) × HandsOverText (channels_text b.machine.pending) result output.old output.new) }
{
    show_contents(alloc, machine, Part::Channels, output, line)
}

/// Copies the numbers of the busy banks to `output`, a line each.
#[unsafe(no_mangle)]
pub extern "C" fn cdc6600_banks(
    alloc: Global,
    machine: &mut MachineHandle,
    output: &mut [u8],
    line: &mut [u8],
) -> Outcome
    ensures { OnMachine machine.old.owned.machine machine.new.owned.machine
        (IsSilent no_machine result output.old output.new)
        (λ b c. (c ≡ b) × HandsOverText (banks_text b.machine.busy) result output.old output.new) }
{
    show_contents(alloc, machine, Part::Banks, output, line)
}

/// Copies the absolute address of the package of the requested exchange to `output`, as a line in octal. Copies nothing
/// if no exchange is requested.
#[unsafe(no_mangle)]
pub extern "C" fn cdc6600_request(
    alloc: Global,
    machine: &mut MachineHandle,
    output: &mut [u8],
    line: &mut [u8],
) -> Outcome
    ensures { OnMachine machine.old.owned.machine machine.new.owned.machine
        (IsSilent no_machine result output.old output.new)
        (λ b c. (c ≡ b) × HandsOverText (request_text b.machine.request) result output.old output.new) }
{
    show_contents(alloc, machine, Part::Request, output, line)
}

/// Copies the next instruction to `output`, as a line with P in octal, the parcel, and the instruction as a listing has
/// it. If none can be taken, the line has a question mark and the reason instead: the opcode, `straddle` or `fetch`.
#[unsafe(no_mangle)]
pub extern "C" fn cdc6600_next_instruction(
    alloc: Global,
    machine: &mut MachineHandle,
    output: &mut [u8],
    line: &mut [u8],
) -> Outcome
    ensures { OnMachine machine.old.owned.machine machine.new.owned.machine
        (IsSilent no_machine result output.old output.new)
        (λ b c. (c ≡ b) × HandsOverText (next_text b.machine.state) result output.old output.new) }
{
    show_contents(alloc, machine, Part::NextInstruction, output, line)
}

/// Copies a line to `output` for each register that an issued instruction is still to write, in issue order: the
/// register, the number of the reservation and the instruction.
#[unsafe(no_mangle)]
pub extern "C" fn cdc6600_reserved_registers(
    alloc: Global,
    machine: &mut MachineHandle,
    output: &mut [u8],
    line: &mut [u8],
) -> Outcome
    ensures { OnMachine machine.old.owned.machine machine.new.owned.machine
        (IsSilent no_machine result output.old output.new)
        (λ b c. (c ≡ b) × HandsOverText (reserved_text b.machine.pending) result output.old output.new) }
{
    show_contents(alloc, machine, Part::ReservedRegisters, output, line)
}

/// Copies a line to `output` for each operand that an issued instruction is still to read, in issue order: the number of
/// the reservation and the register, and then, if an earlier instruction is still to write the register, the number of
/// that reservation.
#[unsafe(no_mangle)]
pub extern "C" fn cdc6600_unread_operands(
    alloc: Global,
    machine: &mut MachineHandle,
    output: &mut [u8],
    line: &mut [u8],
) -> Outcome
    ensures { OnMachine machine.old.owned.machine machine.new.owned.machine
        (IsSilent no_machine result output.old output.new)
        (λ b c. (c ≡ b) × HandsOverText (unread_text b.machine.pending) result output.old output.new) }
{
    show_contents(alloc, machine, Part::UnreadOperands, output, line)
}

/// Judges the event that a schedule line says, without making it. The output is the line of the answer that the event
/// would get, and, if issued instructions hold the event back, a line with the number of each, in issue order.
#[unsafe(no_mangle)]
pub extern "C" fn cdc6600_judge(
    alloc: Global,
    machine: &mut MachineHandle,
    event: &[u8],
    output: &mut [u8],
    line: &mut [u8],
) -> Outcome
    ensures { OnMachine machine.old.owned.machine machine.new.owned.machine
        (IsSilent no_machine result output.old output.new)
        (λ b c. (c ≡ b) × JudgesText event.now b result output.old output.new) }
{
    match machine.take(alloc) {
        Some(booted) => {
            let outcome = contents::judge_line(&booted, event, output, line);
            machine.put(booted);
            outcome
        }
        None => silent(NO_MACHINE),
    }
}

/// Reads the registers as they are now, even if the machine isn't drained. Returns the status.
#[unsafe(no_mangle)]
pub extern "C" fn cdc6600_read_registers(
    alloc: Global,
    machine: &mut MachineHandle,
    registers: &mut Registers,
) -> u8
    ensures { OnMachine machine.old.owned.machine machine.new.owned.machine
        ((result ≡ no_machine) × (registers.new ≡ registers.old))
        (λ b c. (c ≡ b) × TellsRegisters b result registers.new) }
{
    match machine.take(alloc) {
        Some(booted) => {
            let status = reading::show_registers(&booted, registers);
            machine.put(booted);
            status
        }
        None => NO_MACHINE,
    }
}

/// Reads words of memory as they are now, even if the machine isn't drained, from an absolute address on. Copies as
/// many words as fit, and returns how many there are.
#[unsafe(no_mangle)]
pub extern "C" fn cdc6600_read_words(
    alloc: Global,
    machine: &mut MachineHandle,
    first: u32,
    words: &mut [u64],
) -> Outcome
    ensures { OnMachine machine.old.owned.machine machine.new.owned.machine
        (IsSilent no_machine result words.old words.new)
        (λ b c. (c ≡ b) × TellsWords b first result words.old words.new) }
{
    match machine.take(alloc) {
        Some(booted) => {
            let outcome = reading::show_words(&booted, first, words);
            machine.put(booted);
            outcome
        }
        None => silent(NO_MACHINE),
    }
}

/// Frees the machine if there is one.
#[unsafe(no_mangle)]
pub extern "C" fn cdc6600_free(alloc: Global, machine: &mut MachineHandle)
    ensures { machine.new.owned.machine ≡ None }
{
    drop(machine.take(alloc));
}

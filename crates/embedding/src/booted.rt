ghost use Rattle.embedding.specs.Owning.{unboxed};
ghost use Rattle.embedding.specs.Keeping.{Boots, BootsWithin, HasBooted};
ghost use Rattle.deck.specs.Deck.{deck};
ghost use Rattle.std.specs.Prelude.{◌≡◌, None};

use crate::commands::{hand_over_refusal, refuse_budget};
use crate::input_bytes::InputBytes;
use crate::machine_handle::MachineHandle;
use crate::outcome::{Outcome, hand_over};
use deck::{Deck, read_deck_from};
use device_text::LineBuffer;
use instructions::Refusal;
use job_deck::booted;
use machine::Machine;
use operator_terms::{Budget, Status};
use std::alloc::Global;

/// A machine booted with the memory of a deck, and the deck.
#[derive(Drop)]
pub struct Booted {
    pub machine: Machine,
    pub deck: Deck,
}

/// Boots a machine with the memory of the deck in these bytes.
///
/// # Errors
/// `Deck` with the number of a faulty line and its fault. `OutOfMemory` if memory runs out.
fn boot(alloc: Global, input: &[u8], budget: Budget) -> Result<Booted, Refusal>
    ensures { Boots result budget (deck input.now) }
{
    let mut bytes = InputBytes::new(input);
    let (deck, _) = read_deck_from(alloc, &mut bytes, &mut LineBuffer::new())?;
    let machine = booted(alloc, &deck, budget.get())?;
    Ok(Booted { machine, deck })
}

/// Boots a machine in a box.
///
/// # Errors
/// As for `boot`, and `OutOfMemory` if there is no memory for the box.
fn boot_boxed(alloc: Global, input: &[u8], budget: Budget) -> Result<Box<Booted>, Refusal>
    ensures { Boots (unboxed result) budget (deck input.now) }
{
    let booted = boot(alloc, input, budget)?;
    match Box::new(alloc, booted) {
        Ok(booted) => Ok(booted),
        Err(_) => Err(Refusal::OutOfMemory),
    }
}

/// Boots a machine with the deck in these bytes, into a handle without a machine.
fn boot_within(
    alloc: Global,
    machine: &mut MachineHandle,
    input: &[u8],
    budget: Budget,
    line: &mut [u8],
) -> Outcome
    requires { machine.old.owned.machine ≡ None }
    ensures { BootsWithin input.now budget result machine.new.owned.machine }
{
    match boot_boxed(alloc, input, budget) {
        Ok(booted) => {
            machine.put(booted);
            hand_over(Ok(Status::Stopped), &[], &mut [], line)
        }
        Err(refusal) => hand_over_refusal(refusal, &[], &mut [], line),
    }
}

/// Boots a machine with the deck in these bytes and a budget of this many instructions, or refuses a number that no
/// budget may have. A machine that was in the handle is freed first.
pub fn boot_bytes(
    alloc: Global,
    machine: &mut MachineHandle,
    input: &[u8],
    budget: u64,
    line: &mut [u8],
) -> Outcome
    ensures { HasBooted input.now budget result machine.new.owned.machine }
{
    drop(machine.take(alloc));
    match Budget::new(budget) {
        Some(budget) => boot_within(alloc, machine, input, budget, line),
        None => refuse_budget(&mut [], line),
    }
}

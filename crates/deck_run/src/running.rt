//! Runs a deck with threads: a worker for each unit, one for memory, and this thread, which issues.
ghost use Rattle.std.specs.Prelude.{◌≡◌, MatchResult, IfOk};
ghost use Rattle.instructions.specs.declared.refusal.Refusal.TheVariants.{OutOfMemory};
ghost use Rattle.operator_terms.specs.declared.fault.ProgramFault.TheVariants as faults;
ghost use Rattle.program_order.specs.Processor.{boot_processor};
ghost use Rattle.job_deck.specs.Running.{asks_after};
ghost use Rattle.sequential_run.specs.Run.{IsRun};
ghost use Rattle.deck_run.specs.Running.{EndsNoRun};

use deck::Deck;
use instructions::Refusal;
use job_deck::{asks_after, booted};
use machine::Machine;
use operator_terms::{Budget, ProgramFault};
use program_order::Snapshot;
use std::alloc::{AllocError, Global};
use std::sync::Wait;
use std::thread::Threads;
use std::time::Clock;
use unit_workers::{Orders, run_threads};
use worker_loops::{Gates, Open};

/// The orders of a run of this deck: the package of the `start` line, and the requests of the `ask` lines. A request is
/// made after a number of instructions or at any time.
///
/// # Errors
/// Fails if memory runs out.
fn orders(alloc: Global, deck: &Deck) -> Result<Orders, AllocError>
    ensures start { IfOk result (λ orders. orders.start ≡ deck.now.start) }
    ensures after { IfOk result (λ orders. orders.after.items ≡ asks_after deck.now) }
    ensures free { IfOk result (λ orders. orders.free.items ≡ deck.now.free) }
{
    Ok(Orders {
        start: deck.start,
        after: asks_after(alloc, deck)?,
        free: Vec::from_slice(alloc, deck.free.as_slice())?,
    })
}

/// Prepares the arguments of `run_threads` for a deck: a machine that was just booted with the deck's memory and the
/// budget, and the deck's orders.
///
/// # Errors
/// `OutOfMemory` if memory runs out.
fn prepared(alloc: Global, deck: &Deck, budget: Budget) -> Result<(Machine, Orders), Refusal>
    ensures machine { MatchResult result (λ made. made.0 ≡ boot_processor deck.now.image.memory budget)
        (λ refusal. refusal ≡ OutOfMemory) }
    ensures start { IfOk result (λ made. made.1.start ≡ deck.now.start) }
    ensures after { IfOk result (λ made. made.1.after.items ≡ asks_after deck.now) }
    ensures free { IfOk result (λ made. made.1.free.items ≡ deck.now.free) }
{
    let Ok(orders) = orders(alloc, deck) else {
        return Err(Refusal::OutOfMemory);
    };
    let machine = booted(alloc, deck, budget.get())?;
    Ok((machine, orders))
}

/// Gates that delay no worker.
fn open_gates() -> Gates<Open> {
    Gates {
        branch: Open,
        boolean: Open,
        shift: Open,
        long_add: Open,
        divide: Open,
        increment1: Open,
        increment2: Open,
    }
}

/// The fault of a run that ended with this refusal: `OutOfMemory` for lack of memory, `Stuck` for any other refusal.
fn fault_of_run(refusal: &Refusal) -> ProgramFault
    ensures ends { EndsNoRun result }
    ensures memory { refusal.now ≡ OutOfMemory → result ≡ faults.OutOfMemory }
    ensures stuck { result ≡ faults.OutOfMemory → refusal.now ≡ OutOfMemory }
{
    match refusal {
        Refusal::OutOfMemory => ProgramFault::OutOfMemory,
        _ => ProgramFault::Stuck,
    }
}

/// Boots a machine with a deck's memory and runs it to the end with threads, making the deck's requests for exchanges.
/// Returns a snapshot of the machine, which has exactly this budget. Its log leads from the deck's memory to its state,
/// begins with the exchange for the deck's first package, and fulfils the deck's requests.
///
/// # Errors
/// `OutOfMemory` if memory runs out or a thread can't be started. `Stuck` if the machine refuses a step before the
/// run's end, could continue at the end, or has a log that doesn't fulfil the deck's requests.
pub fn run<T: Threads + Wait + Clock + Sync>(
    rt: &T,
    alloc: Global,
    deck: &Deck,
    budget: Budget,
) -> Result<Snapshot, ProgramFault>
    ensures ran { MatchResult result
        (λ snapshot. IsRun deck.now.image.memory deck.now.start (asks_after deck.now) deck.now.free budget snapshot.log
        snapshot.state) EndsNoRun }
    ensures budget { IfOk result (λ snapshot. snapshot.budget ≡ budget) }
{
    let Ok((machine, orders)) = prepared(alloc, deck, budget) else {
        return Err(ProgramFault::OutOfMemory);
    };
    match run_threads(rt, alloc, machine, &orders, open_gates()) {
        Ok(ended) => Ok(ended.snapshot),
        Err(refusal) => Err(fault_of_run(&refusal)),
    }
}

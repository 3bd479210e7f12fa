//! A whole run by threads.
ghost use Rattle.std.specs.Prelude.{◌≡◌, ◌≤◌, [], ◌∷◌, ◌++◌, true, IfOk, IfSome, OnOk, Ok, Some, map};
ghost use Rattle.sequential_run.specs.Fulfilled.{IsFulfilled};
ghost use Rattle.sequential_run.specs.Turns.{is_in_mid_word};
ghost use Rattle.sequential.specs.Log.{issued};
ghost use Rattle.sequential.specs.Replay.{Exchanged};
ghost use Rattle.machine_lock.specs.CallerKnowledge.{booted_by, known, StartsWith};
ghost use Rattle.unit_workers.specs.Beginning.{IsAtRest, Begins};
ghost use Rattle.unit_workers.specs.Ending.{is_at_end};
ghost use Rattle.unit_workers.specs.Onward.{EndsFrom};
ghost use Rattle.instructions.specs.PerUnit.{Each, in_order, paired};
ghost use Rattle.unit_workers.specs.Settled.{in_use, IsSettled, AreSettled};

use crate::asking::{FreeRequests, ask_all};
use crate::issuing::{PendingRequests, begin, conduct};
use crate::worker_lanes::{LaneEnds, Settled, WorkerLanes, open_lanes};
use instructions::{PerUnit, Refusal};
use machine::{Machine, Seat};
use machine_lock::{Ground, Naming, Seen, Shared};
use sequential_run::{Ask, Requests, are_fulfilled, in_order, is_in_mid_word};
use std::alloc::Global;
use std::marker::Brand;
use std::snapshot::Snapshot as GhostCopy;
use std::sync::Wait;
use std::thread;
use std::thread::{Scope, Threads};
use std::time::Clock;
use unit_queue::{Lane, SendPass};
use worker_loops::{Gate, Gates, Tally, storage_worker};

/// The orders for a run by threads: the package with which the run starts, and the exchanges to ask for.
#[derive(Drop)]
pub struct Orders {
    /// The absolute address of the package with which the run starts.
    pub start: u32,
    /// Requests for exchanges, each with the absolute address of its package and the number of instructions after which
    /// the exchange is asked for.
    pub after: Vec<Ask>,
    /// The absolute addresses of the packages to ask for at any time, in this order.
    pub free: Vec<u32>,
}

/// The outcome of a run by threads: the drained machine, and the tallies of the units' workers.
#[derive(Drop)]
pub struct Ended {
    /// The drained machine.
    pub snapshot: machine::Snapshot,
    /// The tallies in the order of the units' numbers: Branch, Boolean, Shift, LongAdd, Divide, Increment1, Increment2.
    /// Each worker took all notes that were sent to it.
    pub tallies: [Tally; 7],
    /// The sending ends of the lanes as they were closed, for contracts alone.
    pub sent: PerUnit<GhostCopy<SendPass>>,
    ghost settled: { AreSettled (map (λ sender. sender.value) (in_order sent)) tallies },
}

/// Whether the run of this machine is over: it is halted or faulted, or its budget is used up.
fn is_at_end(snapshot: &machine::Snapshot) -> bool
    ensures { result ≡ is_at_end snapshot.now }
{
    let state = snapshot.state();
    state.halt.is_some() || state.fault || snapshot.budget() <= snapshot.log().issues()
}

/// Takes the snapshot at the end of a run, when all of its threads have ended. The two threads that asked for exchanges
/// share what they have seen, so the snapshot has everything that either of them has seen.
///
/// # Errors
/// Any refusal of either thread or of the snapshot. `NotDrained` if the machine could continue.
fn closing<K: Naming, R: Wait>(
    rt: &R,
    shared: &Shared<K>,
    conducted: Result<(), Refusal>,
    asked: Result<Seen<K>, Refusal>,
    mut seen: Seen<K>,
) -> Result<machine::Snapshot, Refusal>
    ensures onward { IfOk result (λ snapshot. EndsFrom seen snapshot) }
{
    let mut other = conducted.and(asked)?;
    shared.meet(&mut seen, &mut other);
    let snapshot = shared.snapshot(rt, &mut seen)?;
    if !is_at_end(&snapshot) {
        return Err(Refusal::NotDrained);
    }
    Ok(snapshot)
}

/// Returns both values, if both are there. It is generic because a value of a type parameter is dropped in one call,
/// which is cheaper to prove than a call for each part of a struct.
///
/// # Errors
/// The refusal, if there is one. `OutOfMemory` if the other value is missing.
fn both<A: Drop, B: Drop>(one: Result<A, Refusal>, other: Option<B>) -> Result<(A, B), Refusal>
    ensures { IfOk result (λ both. (one ≡ Ok both.0) × (other ≡ Some both.1)) }
{
    let one = one?;
    match other {
        Some(other) => Ok((one, other)),
        None => Err(Refusal::OutOfMemory),
    }
}

/// Combines a snapshot and the tallies into the outcome of a run.
///
/// # Errors
/// The refusal, if there is no snapshot. `OutOfMemory` if a worker's thread couldn't be started.
fn with_tallies(
    snapshot: Result<machine::Snapshot, Refusal>,
    settled: Option<Settled>,
) -> Result<Ended, Refusal>
    requires { IfSome settled (λ ended. Each (λ one tally. IsSettled one.0 one.1.value tally)
        (paired in_use ended.0) ended.1) }
    ensures snapshot { IfOk result (λ ended. snapshot ≡ Ok ended.snapshot) }
{
    let (snapshot, (sent, tallies)) = both(snapshot, settled)?;
    Ok(Ended {
        snapshot,
        tallies: tallies.into_array(),
        sent,
    })
}

/// The values that the threads of a run use.
#[derive(Drop)]
struct Tasks<'a, K: Naming, G: Gate> {
    /// The gates that the workers call.
    gates: Gates<G>,
    /// The exchanges to ask for.
    pending: PendingRequests<'a>,
    /// What the issuing thread has seen.
    seen: Seen<K>,
    /// What the asking thread has seen.
    other: Seen<K>,
}

/// Starts the threads, issues until the run ends, and waits for all threads. A worker takes its seat out of its holder
/// and gives it up at its end. If a thread can't be started, nothing is issued.
///
/// # Errors
/// Any refusal of the machine. `OutOfMemory` if memory runs out or a thread can't be started.
fn run_in<
    's,
    E,
    K: Naming + Send + Sync + 's,
    G: Gate + Send + 's,
    R: Threads + Wait + Clock + Sync,
>(
    scope: &Scope<'s, E>,
    rt: &'s R,
    shared: &'s Shared<K>,
    ends: PerUnit<LaneEnds<'s>>,
    holders: &'s mut PerUnit<Option<Seat>>,
    tasks: Tasks<'s, K, G>,
) -> Result<Ended, Refusal>
    ensures onward { IfOk result (λ ended. EndsFrom tasks.entry.seen ended.snapshot) }
{
    let Tasks {
        gates,
        mut pending,
        mut seen,
        other,
    } = tasks;
    let free = pending.free();
    let mut lanes = WorkerLanes::start(scope, rt, shared, ends, holders, gates);
    let storing = scope.spawn(move || storage_worker(rt, shared)).ok();
    let asking = scope.spawn(move || ask_all(rt, shared, other, free)).ok();
    let are_started = [lanes.are_served(), storing.is_some(), asking.is_some()] == [true; 3];
    let conducted = if are_started {
        conduct(rt, shared, &mut seen, &mut pending, &mut lanes)
    } else {
        Err(Refusal::OutOfMemory)
    };
    lanes.close(rt);
    shared.end(rt);
    let settled = lanes.end(rt);
    if let Some(storing) = storing {
        storing.join(rt);
    }
    let asked = match asking {
        Some(asking) => asking.join(rt),
        None => Err(Refusal::OutOfMemory),
    };
    with_tallies(closing(rt, shared, conducted, asked, seen), settled)
}

/// Creates the lanes in their holders, and runs.
///
/// # Errors
/// Any refusal of the machine. `OutOfMemory` if memory runs out or a thread can't be started.
fn run_lanes<K: Naming + Send + Sync, G: Gate + Send, R: Threads + Wait + Clock + Sync>(
    rt: &R,
    alloc: Global,
    shared: &Shared<K>,
    lanes: &mut PerUnit<Option<Lane>>,
    holders: &mut PerUnit<Option<Seat>>,
    tasks: Tasks<'_, K, G>,
) -> Result<Ended, Refusal>
    ensures onward { IfOk result (λ ended. EndsFrom tasks.entry.seen ended.snapshot) }
{
    let Some(ends) = open_lanes(alloc, lanes) else {
        return Err(Refusal::OutOfMemory);
    };
    thread::scope(
        thread::scope_env(),
        rt,
        move |scope| -> Result<Ended, Refusal>
            ensures { IfOk result (λ ended. EndsFrom tasks.entry.seen ended.snapshot) }
        { run_in(scope, rt, shared, ends, holders, tasks) },
    )
}

/// Splits what was seen first, so that each of the two threads that ask for exchanges has a `Seen` of its own, and
/// runs on new lanes.
///
/// # Errors
/// Any refusal of the machine. `OutOfMemory` if memory runs out or a thread can't be started.
fn run_from_first<K: Naming + Send + Sync, G: Gate + Send, R: Threads + Wait + Clock + Sync>(
    rt: &R,
    alloc: Global,
    shared: &Shared<K>,
    holders: &mut PerUnit<Option<Seat>>,
    gates: Gates<G>,
    pending: PendingRequests<'_>,
    mut seen: Seen<K>,
) -> Result<Ended, Refusal>
    ensures onward { IfOk result (λ ended. EndsFrom seen ended.snapshot) }
{
    let other = seen.split()?;
    let tasks = Tasks {
        gates,
        pending,
        seen,
        other,
    };
    let mut lanes = PerUnit::default();
    let ended = run_lanes(rt, alloc, shared, &mut lanes, holders, tasks);
    // One call, where the end of the scope would drop the lanes one by one.
    drop(lanes);
    ended
}

/// Runs a machine with a progress word.
///
/// # Errors
/// Any refusal of the machine. `Nothing` if the machine's seats were given out before. `OutOfMemory` if memory runs out
/// or a thread can't be started.
fn run_beside<K: Naming + Send + Sync, G: Gate + Send, R: Threads + Wait + Clock + Sync>(
    rt: &R,
    alloc: Global,
    ground: Ground,
    machine: Machine,
    gates: Gates<G>,
    pending: PendingRequests<'_>,
) -> Result<Ended, Refusal>
    requires { ground ≡ K.table }
    ensures onward { IfOk result (λ ended. EndsFrom (known (booted_by machine) machine.log []) ended.snapshot) }
{
    let (shared, seats, seen) = Shared::<K>::open(alloc, ground, machine)?;
    let mut holders = PerUnit::from_array(seats).map(|seat| Some(seat));
    let ended = run_from_first(rt, alloc, &shared, &mut holders, gates, pending, seen);
    let _ = holders.map(leave);
    // One call, where the end of the scope would drop each part.
    drop(shared);
    ended
}

/// Gives up a seat that no worker took.
fn leave(holder: Option<Seat>) {
    if let Some(seat) = holder {
        seat.leave();
    }
}

/// Begins the run of a machine, and creates what the run needs: its requests and its progress word. Returns first
/// whether the machine's log begins with the first exchange.
///
/// # Errors
/// Any refusal of the first exchange. `OutOfMemory` if memory runs out.
fn prepare(
    alloc: Global,
    machine: &mut Machine,
    orders: &Orders,
) -> Result<(bool, Requests, Ground), Refusal>
    ensures { IfOk result (λ ready. Begins ready.0 orders.now.start machine.old machine.new) }
{
    let ground = Ground::new(alloc)?;
    let Ok(mut requests) = Requests::new(alloc, orders.start, orders.after.as_slice()) else {
        return Err(Refusal::OutOfMemory);
    };
    let is_whole = begin(machine, orders.start, &mut requests)?;
    Ok((is_whole, requests, ground))
}

/// Checks that a run fulfils its requests for exchanges, if its log begins with the exchange for the first package.
///
/// # Errors
/// `ExchangeWaiting` if the log doesn't fulfil them. `OutOfMemory` if memory runs out.
fn hold_to_requests(
    alloc: Global,
    is_whole: bool,
    orders: &Orders,
    snapshot: &machine::Snapshot,
) -> Result<(), Refusal>
    ensures { OnOk result (is_whole ≡ true → IsFulfilled orders.now.start orders.now.after.items orders.now.free.items
        (is_in_mid_word snapshot.now.state) snapshot.now.log) }
{
    if !is_whole {
        return Ok(());
    }
    let Ok(asks) = in_order(alloc, orders.start, orders.after.as_slice()) else {
        return Err(Refusal::OutOfMemory);
    };
    let in_mid_word = is_in_mid_word(snapshot.state());
    // No effect at run time: the budget tells the proof that the instructions can be counted.
    let _ = snapshot.budget();
    match are_fulfilled(
        alloc,
        asks.as_slice(),
        orders.free.as_slice(),
        in_mid_word,
        snapshot.log(),
    ) {
        Ok(true) => Ok(()),
        Ok(false) => Err(Refusal::ExchangeWaiting),
        Err(_) => Err(Refusal::OutOfMemory),
    }
}

/// Runs a machine by threads: one for each of the seven units, one for memory, one that makes the requests that may be
/// made at any time, and this one, which issues. The machine is drained first, because no lane has a note of an
/// instruction that was issued before. The run then starts with the exchange for the package at `orders.start`. The run
/// ends with a drained machine, in one of two cases:
///
/// - The machine is halted, faulted or out of budget, no request waits, none is due, and none is left to be made at any
///   time.
/// - The machine is out of budget in the middle of a word, where the exchange that waits can't be made.
///
/// A request that is due after more instructions than are issued by then isn't made. The snapshot at the end has this
/// machine's boot memory and budget, and its log begins with the machine's and keeps to the budget. If the machine was
/// just booted, the log fulfils the requests of `orders`.
///
/// # Errors
/// Any refusal of the first exchange, or of an event during the run. `Nothing` if the machine's seats were given out
/// before. `OutOfMemory` if memory runs out or a thread can't be started. `NotDrained` if the machine could continue.
/// `ExchangeWaiting` if the log doesn't fulfil the requests. In each case all threads have ended and all seats are
/// given up.
pub fn run_threads<G: Gate + Send, R: Threads + Wait + Clock + Sync>(
    rt: &R,
    alloc: Global,
    machine: Machine,
    orders: &Orders,
    gates: Gates<G>,
) -> Result<Ended, Refusal>
    ensures memory { IfOk result (λ ended. ended.snapshot.boot_memory ≡ machine.boot_memory) }
    ensures log { IfOk result (λ ended. StartsWith ended.snapshot.log machine.log) }
    ensures budget { IfOk result (λ ended. ended.snapshot.budget ≡ machine.budget) }
    ensures within { IfOk result (λ ended. issued ended.snapshot.log ≤ machine.budget) }
    ensures end { IfOk result (λ ended. is_at_end ended.snapshot ≡ true) }
    ensures start { IfOk result (λ ended. IsAtRest machine
        → StartsWith ended.snapshot.log (machine.log ++ Exchanged orders.now.start ∷ [])) }
    ensures requests { IfOk result (λ ended. IsAtRest machine → machine.log ≡ []
        → IsFulfilled orders.now.start orders.now.after.items orders.now.free.items
        (is_in_mid_word ended.snapshot.state) ended.snapshot.log) }
{
    let mut machine = machine;
    machine.drain();
    let (is_whole, requests, ground) = prepare(alloc, &mut machine, orders)?;
    let free = FreeRequests::new(orders.free.as_slice());
    let pending = PendingRequests::new(requests, &free);
    let ended = run_beside::<Brand, _, _>(rt, alloc, ground, machine, gates, pending)?;
    match hold_to_requests(alloc, is_whole, orders, &ended.snapshot) {
        Ok(()) => Ok(ended),
        Err(refusal) => {
            // One call, where the end of the scope would drop each part.
            drop(ended);
            Err(refusal)
        }
    }
}

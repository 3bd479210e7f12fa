//! The issuing thread: it makes the requests for exchanges that are due, issues instructions, sends each reservation on
//! the lane of its unit, and makes the exchanges.
ghost use Rattle.std.specs.Prelude.{◌≡◌, IfOk};
ghost use Rattle.unit_workers.specs.Beginning.{Begins};
ghost use Rattle.unit_workers.specs.Ending.{is_end};
ghost use Rattle.unit_workers.specs.Onward.{GoesOnFrom};

use crate::asking::FreeRequests;
use crate::worker_lanes::WorkerLanes;
use arrayvec::ArrayVec;
use instructions::Refusal;
use machine::Machine;
use machine_lock::{LockedMachine, Naming, Seen, Shared};
use program_order::Note;
use sequential_run::Requests;
use signals::Pace;
use std::sync::Wait;
use std::thread;
use std::thread::Threads;
use std::time::Clock;

/// The reservations issued in one hold of the lock. A unit has at most one, because no unit stores during the hold. The
/// elements of an `ArrayVec` need a default value, which a note doesn't have.
type Notes = ArrayVec<Option<Note>, 7>;

/// The most instructions issued in one hold of the lock. Without this bound, a loop of passes would hold it for ever.
const ISSUES_OF_A_HOLD: u32 = 64;

/// How a run continues after a step.
#[derive(Clone, Copy, Drop)]
enum Next {
    /// Something was done.
    GoesOn,
    /// Nothing could be done yet.
    Waits,
    /// The run is over.
    Ends,
}

/// Whether this refusal of an issue ends a run: the machine is halted or faulted, or its budget is used up.
fn ends_run(refusal: &Refusal) -> bool
    ensures { result ≡ is_end refusal.now }
{
    matches!(
        refusal,
        Refusal::Halted(_) | Refusal::Faulted | Refusal::Budget
    )
}

/// The requests that a run still has to make.
#[derive(Drop)]
pub struct PendingRequests<'a> {
    /// The requests of the issuing thread. A request that is due stays among them while another request waits.
    requests: Requests,
    /// The requests that the asking thread makes.
    free: &'a FreeRequests<'a>,
}

impl<'a> PendingRequests<'a> {
    /// Requests of which none has been made yet.
    pub fn new(requests: Requests, free: &'a FreeRequests<'a>) -> PendingRequests<'a> {
        PendingRequests { requests, free }
    }

    /// The requests that the asking thread makes.
    pub fn free(&self) -> &'a FreeRequests<'a> {
        self.free
    }
}

/// Makes the exchange that waits, if the machine is drained, and asks for the exchange that follows it. No request of
/// the asking thread comes between the two. The next request is known before the exchange is made, because what is due
/// depends only on how many instructions were issued. If the machine is in the middle of a word, the exchange can't be
/// made and the run ends.
///
/// # Errors
/// Any other refusal of the exchange or of the request.
fn exchange<K: Naming, R: Wait>(
    rt: &R,
    shared: &Shared<K>,
    seen: &mut Seen<K>,
    pending: &mut PendingRequests<'_>,
) -> Result<Next, Refusal>
    ensures onward { GoesOnFrom seen.old seen.new }
{
    let following = pending.requests.next_due().map(|(at, _)| at);
    match shared.exchange_and_ask(rt, seen, following) {
        Err(Refusal::NotDrained) => return Ok(Next::Waits),
        Err(Refusal::MidWord) => return Ok(Next::Ends),
        made => made??,
    }
    pending.requests.exchanged();
    let _ = pending.requests.take_due();
    Ok(Next::GoesOn)
}

/// Makes the exchange that waits, when no more instructions are issued. The run ends if no request waits or is still to
/// be made, and the machine is drained.
///
/// # Errors
/// Any refusal of the exchange or of the request.
fn finish<K: Naming, R: Wait>(
    rt: &R,
    shared: &Shared<K>,
    seen: &mut Seen<K>,
    pending: &mut PendingRequests<'_>,
) -> Result<Next, Refusal>
    ensures onward { GoesOnFrom seen.old seen.new }
{
    // Read first: the asking thread decrements its count after it has asked, so if none is left, all were asked for.
    let are_left = pending.free.are_left();
    match exchange(rt, shared, seen, pending) {
        Err(Refusal::Nothing) => {}
        progress => return progress,
    }
    if pending.requests.due().is_some() {
        Ok(Next::GoesOn)
    } else if !are_left && shared.drained(rt) {
        Ok(Next::Ends)
    } else {
        Ok(Next::Waits)
    }
}

/// Issues until an issue is refused. Before each issue it asks for the exchange that is due, unless another request
/// waits. Returns the refusal, or `None` if the notes are full or so many instructions were issued that other threads
/// may want the lock.
///
/// # Errors
/// Any refusal of a request other than that another request waits.
fn issue_on<K: Naming>(
    machine: &mut LockedMachine<K>,
    seen: &mut Seen<K>,
    pending: &mut PendingRequests<'_>,
    notes: &mut Notes,
) -> Result<Option<Refusal>, Refusal>
    ensures onward { GoesOnFrom seen.old seen.new }
{
    for _ in 0..ISSUES_OF_A_HOLD {
        if let Some((at, _)) = pending.requests.due() {
            match machine.ask(seen, at) {
                Ok(()) => {
                    let _ = pending.requests.take_due();
                }
                Err(Refusal::ExchangeBusy) => {}
                Err(refusal) => return Err(refusal),
            }
        }
        match machine.issue(seen) {
            Ok(note) => {
                pending.requests.issued();
                if note.is_some() {
                    let _ = notes.try_push(note);
                }
            }
            Err(refusal) => return Ok(Some(refusal)),
        }
        if notes.is_full() {
            return Ok(None);
        }
    }
    Ok(None)
}

/// Issues in one hold of the lock until an issue is refused, and sends each reservation on the lane of its unit. Then,
/// if an exchange waits or no more instructions are issued, makes the exchange.
///
/// # Errors
/// Any refusal that the events of other threads can't resolve.
fn step<K: Naming, R: Wait>(
    rt: &R,
    shared: &Shared<K>,
    seen: &mut Seen<K>,
    pending: &mut PendingRequests<'_>,
    lanes: &mut WorkerLanes<'_>,
) -> Result<Next, Refusal>
    ensures onward { GoesOnFrom seen.old seen.new }
{
    let mut notes = Notes::new();
    let mut machine = shared.lock(rt);
    let refused = issue_on(&mut machine, seen, pending, &mut notes);
    let is_refused = matches!(&refused, Ok(Some(_)));
    shared.signals().issuing.await_change(is_refused);
    shared.release(machine);
    lanes.send_all(rt, shared.signals(), notes.as_slice());
    match refused? {
        None => Ok(Next::GoesOn),
        Some(Refusal::ExchangeWaiting) => exchange(rt, shared, seen, pending),
        Some(refusal) if ends_run(&refusal) => finish(rt, shared, seen, pending),
        Some(_) => Ok(Next::Waits),
    }
}

/// Asks for the first exchange, makes it, and asks for the exchange that follows it, before any thread has the machine.
/// Returns whether the machine's log begins with the first exchange. If another request waits, or the machine is in the
/// middle of a word, the first exchange is left to `conduct`.
///
/// # Errors
/// Any other refusal of a request or of the exchange.
pub fn begin(machine: &mut Machine, start: u32, requests: &mut Requests) -> Result<bool, Refusal>
    ensures { IfOk result (λ is_whole. Begins is_whole start machine.old machine.new) }
{
    let is_new = machine.log().entries().is_empty();
    match machine.ask(start) {
        Err(Refusal::ExchangeBusy) => return Ok(false),
        asked => asked?,
    };
    let _ = requests.take_due();
    match machine.exchange() {
        Err(Refusal::MidWord) => return Ok(false),
        made => made?,
    };
    requests.exchanged();
    if let Some((at, _)) = requests.due() {
        machine.ask(at)?;
        let _ = requests.take_due();
    }
    Ok(is_new)
}

/// Issues instructions and makes exchanges until the run ends. While nothing can be done, it waits for the events of
/// other threads.
///
/// # Errors
/// The first refusal that neither ends a run nor can be resolved by the events of other threads.
pub fn conduct<K: Naming, R: Threads + Wait + Clock>(
    rt: &R,
    shared: &Shared<K>,
    seen: &mut Seen<K>,
    pending: &mut PendingRequests<'_>,
    lanes: &mut WorkerLanes<'_>,
) -> Result<(), Refusal>
    ensures onward { GoesOnFrom seen.old seen.new }
{
    let signals = shared.signals();
    let mut wait = signals.waiting();
    let mut pace = Pace::new(signals, thread::available_parallelism(rt).ok());
    for _ in rt.forever() {
        let count = signals.issuing.count();
        match step(rt, shared, seen, pending, lanes)? {
            Next::GoesOn => {}
            Next::Waits => {
                wait.until_raised(rt, &signals.issuing, count);
                pace.waited(rt);
            }
            Next::Ends => return Ok(()),
        }
    }
    unreachable!()
}

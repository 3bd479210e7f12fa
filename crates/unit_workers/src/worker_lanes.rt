//! The lanes of the seven units with their two ends, and the worker threads that serve them.
ghost use Rattle.std.specs.Prelude.{◌≡◌, IfSome};
ghost use Rattle.std.specs.Option.{ForSome};
ghost use Rattle.instructions.specs.PerUnit.{Each, paired};
ghost use Rattle.unit_workers.specs.Settled.{in_use, IsSettled};

use crossbeam_utils::Backoff;
use instructions::{PerUnit, Unit};
use machine::Seat;
use machine_lock::{Naming, Shared};
use program_order::Note;
use signals::Signals;
use std::alloc::Global;
use std::snapshot::Snapshot as GhostCopy;
use std::sync::Wait;
use std::thread::{Promise, PromisedHandle, Scope, Threads};
use unit_queue::{Lane, SendPass, TakePass, lane};
use worker_loops::{Gate, Gates, Tally, worker};

/// A worker thread's promise: the tally that it returns is of this lane.
#[derive(Drop)]
pub struct TallyOfLane(GhostCopy<Lane>);

impl Promise<Option<Tally>> for TallyOfLane {
    ghost use Rattle.std.specs.Prelude.{◌≡◌, IfSome};

    ghost kept_by = { λ p t. IfSome t (λ x. x.pass.id ≡ p.0.value.id) };
}

pub type Worker = PromisedHandle<Option<Tally>, TallyOfLane>;

/// What was sent on the lane of each unit, and the tallies of the units' workers.
pub type Settled = (PerUnit<GhostCopy<SendPass>>, PerUnit<Tally>);

/// A lane with its two ends.
#[derive(Drop)]
pub struct LaneEnds<'a> {
    lane: &'a Lane,
    sender: SendPass,
    taker: TakePass,
    ghost sends: { sender.id ≡ lane.now.id },
    ghost takes: { taker.id ≡ lane.now.id },
}

/// A lane with its taking end.
#[derive(Drop)]
struct LaneReceiver<'a> {
    lane: &'a Lane,
    taker: TakePass,
    ghost takes: { taker.id ≡ lane.now.id },
}

/// A lane to send on, with the worker that takes from it, if its thread could be started.
#[derive(Drop)]
pub struct WorkerLane<'a> {
    lane: &'a Lane,
    sender: SendPass,
    started: Option<Worker>,
    /// The pauses while the lane is full. A run never overfills a lane, which holds at most one note of its unit and
    /// `Closed`.
    backoff: Backoff,
    ghost sends: { sender.id ≡ lane.now.id },
    ghost serves: { ForSome started (λ h. h.promise.0.value.id ≡ lane.now.id) },
}

/// The work of a worker thread. A closure can't hold a seat, which must be spent, so the thread borrows a holder and
/// takes the seat out of it. `None` if the holder is empty.
fn work<K: Naming, G: Gate, R: Wait>(
    rt: &R,
    shared: &Shared<K>,
    receiver: LaneReceiver<'_>,
    holder: &mut Option<Seat>,
    mut gate: G,
) -> Option<Tally>
    ensures { IfSome result (λ t. t.pass.id ≡ receiver.entry.lane.now.id) }
{
    let LaneReceiver { lane, taker } = receiver;
    let seat = holder.take()?;
    Some(worker(rt, shared, lane, taker, seat, &mut gate))
}

/// Starts a worker thread. `None` if the thread couldn't be started.
fn start_at<'s, E, K: Naming + Send + Sync + 's, G: Gate + Send + 's, R: Threads + Wait + Sync>(
    scope: &Scope<'s, E>,
    rt: &'s R,
    shared: &'s Shared<K>,
    receiver: LaneReceiver<'s>,
    holder: &'s mut Option<Seat>,
    gate: G,
) -> Option<Worker>
    ensures { IfSome result (λ h. h.promise.0.value.id ≡ receiver.entry.lane.now.id) }
{
    let lane = receiver.lane;
    scope
        .spawn_with(
            TallyOfLane(GhostCopy::of(lane)),
            move || -> Option<Tally>
                ensures { IfSome result (λ t. t.pass.id ≡ receiver.entry.lane.now.id) }
            { work(rt, shared, receiver, holder, gate) },
        )
        .ok()
}

impl<'a> LaneEnds<'a> {
    /// A lane with its own two ends.
    pub fn of(lane: &'a Lane, sender: SendPass, taker: TakePass) -> LaneEnds<'a>
        requires sends { sender.id ≡ lane.now.id }
        requires takes { taker.id ≡ lane.now.id }
    {
        LaneEnds {
            lane,
            sender,
            taker,
        }
    }

    /// Creates a unit's lane and keeps it in the holder. `None` if memory runs out.
    pub fn open(alloc: Global, unit: Unit, holder: &'a mut Option<Lane>) -> Option<LaneEnds<'a>> {
        let (lane, sender, taker) = lane(alloc, unit).ok()?;
        Some(LaneEnds::of(holder.insert(lane), sender, taker))
    }

    /// Starts the lane's worker, which takes its seat from the holder.
    pub fn start<E, K: Naming + Send + Sync + 'a, G: Gate + Send + 'a, R: Threads + Wait + Sync>(
        self,
        scope: &Scope<'a, E>,
        rt: &'a R,
        shared: &'a Shared<K>,
        holder: &'a mut Option<Seat>,
        gate: G,
    ) -> WorkerLane<'a> {
        let LaneEnds {
            lane,
            sender,
            taker,
        } = self;
        let started = start_at(
            scope,
            rt,
            shared,
            LaneReceiver { lane, taker },
            holder,
            gate,
        );
        WorkerLane {
            lane,
            sender,
            started,
            backoff: Backoff::new(),
        }
    }
}

impl<'a> WorkerLane<'a> {
    /// Whether the lane's worker could be started.
    pub fn is_served(&self) -> bool {
        self.started.is_some()
    }

    /// Sends a note, and tries again while the lane is full.
    pub fn send<R: Wait>(&mut self, rt: &R, note: Note) {
        for _ in rt.forever() {
            if self.lane.send(rt, &mut self.sender, note).is_ok() {
                return;
            }
            self.backoff.snooze();
        }
        unreachable!()
    }

    /// Closes the lane, and tries again while it is full.
    pub fn close<R: Wait>(&mut self, rt: &R) {
        for _ in rt.forever() {
            if self.lane.close(rt, &mut self.sender) {
                return;
            }
            self.backoff.snooze();
        }
        unreachable!()
    }

    /// Waits for the lane's worker, and settles its tally with the sending end, which is kept for contracts alone.
    /// `None` if the worker's thread couldn't be started. The worker's seat came out of an array of values that must be
    /// spent, about which nothing is known. So the tally's unit is compared with this one.
    pub fn end<R: Threads + Wait>(self, rt: &R, unit: Unit) -> Option<(GhostCopy<SendPass>, Tally)>
        ensures { IfSome result (λ ended. IsSettled unit ended.0.value ended.1) }
    {
        let WorkerLane {
            lane,
            sender,
            started,
            backoff: _,
        } = self;
        let mut tally = started?.join(rt)?;
        if tally.unit() != unit {
            return None;
        }
        let sent = GhostCopy::of(&sender);
        tally.settle(rt, lane, sender);
        Some((sent, tally))
    }
}

/// Creates the lanes of all units, each in its holder. `None` if memory runs out.
pub fn open_lanes<'a>(
    alloc: Global,
    holders: &'a mut PerUnit<Option<Lane>>,
) -> Option<PerUnit<LaneEnds<'a>>> {
    PerUnit::units()
        .zip(holders.each_mut())
        .map(|(unit, holder)| LaneEnds::open(alloc, unit, holder))
        .complete()
}

/// The lanes of all units, to send on, with their workers.
#[derive(Drop)]
pub struct WorkerLanes<'a> {
    lanes: PerUnit<WorkerLane<'a>>,
}

impl<'a> WorkerLanes<'a> {
    /// Starts the worker of each lane in a thread of its own. The worker takes its seat from the holder of its unit.
    pub fn start<E, K: Naming + Send + Sync + 'a, G: Gate + Send + 'a, R: Threads + Wait + Sync>(
        scope: &Scope<'a, E>,
        rt: &'a R,
        shared: &'a Shared<K>,
        ends: PerUnit<LaneEnds<'a>>,
        holders: &'a mut PerUnit<Option<Seat>>,
        gates: Gates<G>,
    ) -> WorkerLanes<'a> {
        let lanes = ends.zip_with(
            holders.each_mut().zip(gates.into_each()),
            |ends, (holder, gate)| ends.start(scope, rt, shared, holder, gate),
        );
        WorkerLanes { lanes }
    }

    /// Whether the worker of each lane could be started.
    pub fn are_served(&self) -> bool {
        self.lanes.each().map(|lane| lane.is_served()).into_array() == [true; 7]
    }

    /// Sends each note on the lane of its unit, and wakes that unit's worker. Units that are never reserved have no
    /// lane.
    pub fn send_all<R: Wait>(&mut self, rt: &R, signals: &Signals, notes: &[Option<Note>]) {
        for note in notes.iter().flatten() {
            if let Some(lane) = self.lanes.get_mut(note.unit) {
                lane.send(rt, *note);
            }
            signals.worker(note.unit).raise();
        }
    }

    /// Closes all lanes.
    pub fn close<R: Wait>(&mut self, rt: &R) {
        let _ = self.lanes.each_mut().map(|lane| lane.close(rt));
    }

    /// Waits for all workers, and settles their tallies. `None` if a worker couldn't be started.
    pub fn end<R: Threads + Wait>(self, rt: &R) -> Option<Settled>
        ensures { IfSome result (λ ended. Each (λ one tally. IsSettled one.0 one.1.value tally)
            (paired in_use ended.0) ended.1) }
    {
        let WorkerLanes { lanes } = self;
        let ended = PerUnit {
            branch: lanes.branch.end(rt, Unit::Branch),
            boolean: lanes.boolean.end(rt, Unit::Boolean),
            shift: lanes.shift.end(rt, Unit::Shift),
            long_add: lanes.long_add.end(rt, Unit::LongAdd),
            divide: lanes.divide.end(rt, Unit::Divide),
            increment1: lanes.increment1.end(rt, Unit::Increment1),
            increment2: lanes.increment2.end(rt, Unit::Increment2),
        };
        Some(ended.complete()?.unzip())
    }
}

//! A lane and its two ends.
ghost use Rattle.std.specs.Prelude.{◌≡◌, ◌⊎◌, ◌++◌, ◌∷◌, [], true, false, OnOk, OnErr, MatchResult, OnSome, IfSome};
ghost use Rattle.std.specs.Prelude.{MatchOption, IsTrue};
ghost use Rattle.instructions.specs.declared.refusal.Refusal.TheVariants.{OutOfMemory};
ghost use Rattle.unit_queue.specs.Lanes.{LaneName, SendEnd, TakeEnd, send_end, take_end, is_closed, is_closing};
ghost use Rattle.unit_queue.specs.Lanes.{IsOrderly, IsBeginning, IsFull, HadRoom, IsEmpty};

use crate::item::Item;
use crate::rule::{Ends, LaneRule, LaneView, Sends, Settles, Takes};
use crossbeam_queue::{Pass, RuledArrayQueue};
use instructions::{Refusal, Unit};
use program_order::Note;
use std::alloc::Global;
use std::marker::Model;
use std::sync::Wait;

type Queue = RuledArrayQueue<Item, LaneView, LaneRule>;

/// The lane of one unit: a queue of at most two items (this project's choice). Contracts can name the lane and its
/// unit.
///
/// What was taken from the lane, followed by what waits in it, is what was sent on it, in order, and nothing comes
/// after [`Item::Closed`]. No call promises that an item ever gets through: a caller that finds the lane full or empty
/// tries again.
#[derive(Drop)]
pub struct Lane {
    queue: Queue,
    unit: Unit,
}

impl Model for Lane {
    ghost use Rattle.std.specs.Prelude.{◌≡◌};
    ghost use Rattle.crossbeam_queue.specs.Passes.{ruled_capacity};
    ghost use Rattle.instructions.specs.declared.refusal.Refusal.TheVariants.{OutOfMemory};
    ghost use Rattle.unit_queue.specs.Lanes.{LaneName};

    ghost Value = { LaneName };

    ghost view = { λ s. record { id = s.queue.table.shared.table_id; unit = s.unit } };

    ghost invariant = { λ s. ruled_capacity s.queue ≡ 2 };
}

/// The right to send on one lane. A lane has one such pass. Contracts can name the lane, and all that was sent on it.
#[derive(Drop)]
pub struct SendPass {
    pass: Pass<Item, LaneView>,
    /// Whether `Closed` was sent.
    closed: bool,
}

impl Model for SendPass {
    ghost use Rattle.std.specs.Prelude.{◌≡◌, IsTrue, []};
    ghost use Rattle.unit_queue.specs.Lanes.{SendEnd, send_end, is_closed, IsOrderly};

    ghost Value = { SendEnd };

    ghost view = { λ s. send_end s.pass.table_id s.pass.me.0.client.sent s.pass.me.0.client.got };

    ghost invariant = { λ s. (s.pass.me.1 ≡ []) × IsTrue s.pass.me.0.client.sends
        × (s.closed ≡ is_closed s.pass.me.0.client.sent) × IsOrderly s.pass.me.0.client.sent };
}

/// The right to take from one lane. A lane has one such pass. Contracts can name the lane, and all that was taken from
/// it.
#[derive(Drop)]
pub struct TakePass {
    pass: Pass<Item, LaneView>,
}

impl Model for TakePass {
    ghost use Rattle.std.specs.Prelude.{◌≡◌, IsTrue, []};
    ghost use Rattle.unit_queue.specs.Lanes.{TakeEnd, take_end, IsOrderly, IsBeginning};

    ghost Value = { TakeEnd };

    ghost view = { λ s. take_end s.pass.table_id s.pass.me.0.client.got s.pass.me.0.client.sent };

    ghost invariant = { λ s. (s.pass.me.1 ≡ []) × IsTrue s.pass.me.0.client.takes × IsOrderly s.pass.me.0.client.sent
        × IsBeginning s.pass.me.0.client.got s.pass.me.0.client.sent };
}

impl Lane {
    /// Creates an empty lane, with its two ends.
    ///
    /// # Errors
    /// `OutOfMemory` if memory runs out.
    pub(crate) fn new(alloc: Global, unit: Unit) -> Result<(Lane, SendPass, TakePass), Refusal>
        ensures { MatchResult result
            (λ made. (made.0.unit ≡ unit) × (made.1 ≡ send_end made.0.id [] []) × (made.2 ≡ take_end made.0.id [] []))
            (λ refusal. refusal ≡ OutOfMemory) }
    {
        let Ok((queue, mut pass)) = Queue::ruled(alloc, 2) else {
            return Err(Refusal::OutOfMemory);
        };
        let other = queue.another::<Ends>(&mut pass);
        Ok((
            Lane { queue, unit },
            SendPass {
                pass,
                closed: false,
            },
            TakePass { pass: other },
        ))
    }

    /// The unit whose reservations the lane carries.
    pub fn unit(&self) -> Unit
        ensures { result ≡ self.now.unit }
    {
        self.unit
    }

    /// Sends a reservation. The pass has to be this lane's.
    ///
    /// # Errors
    /// The note, if the lane is closed, or if two items waited at some moment since the last one was sent.
    pub fn send<R: Wait>(&self, rt: &R, pass: &mut SendPass, note: Note) -> Result<(), Note>
        requires lane { pass.old.id ≡ self.now.id }
        ensures lane { pass.new.id ≡ pass.old.id }
        ensures sent { MatchResult result
            (λ _. pass.new.sent ≡ pass.old.sent ++ Item.Work note ∷ [])
            (λ back. (pass.new.sent ≡ pass.old.sent) × (back ≡ note)) }
        ensures open { OnOk result (is_closed pass.old.sent ≡ false) }
        ensures room { OnOk result (HadRoom pass.old pass.new) }
        ensures refused { OnErr result ((is_closed pass.old.sent ≡ true) ⊎ IsFull pass.old) }
        ensures stays { OnErr result (pass.new ≡ pass.old) }
        ensures order { IsOrderly pass.new.sent }
    {
        if pass.closed {
            return Err(note);
        }
        let item = Item::Work(note);
        match self.queue.push_as::<Sends, R>(rt, &mut pass.pass, item) {
            Ok(()) => Ok(()),
            Err(_) => Err(note),
        }
    }

    /// Sends `Closed`, if it wasn't sent yet: no more notes come. Returns whether the lane is closed. It is, unless two
    /// items waited at some moment since the last one was sent. The pass has to be this lane's.
    pub fn close<R: Wait>(&self, rt: &R, pass: &mut SendPass) -> bool
        requires lane { pass.old.id ≡ self.now.id }
        ensures lane { pass.new.id ≡ pass.old.id }
        ensures closed { IsTrue result → is_closed pass.new.sent ≡ true }
        ensures again { is_closed pass.old.sent ≡ true → (result ≡ true) × (pass.new ≡ pass.old) }
        ensures first { is_closed pass.old.sent ≡ false → result ≡ true
            → (pass.new.sent ≡ pass.old.sent ++ Item.Closed ∷ []) × HadRoom pass.old pass.new }
        ensures refused { result ≡ false → (pass.new ≡ pass.old) × IsFull pass.old }
        ensures order { IsOrderly pass.new.sent }
    {
        if !pass.closed {
            let item = Item::Closed;
            let pushed = self.queue.push_as::<Sends, R>(rt, &mut pass.pass, item);
            pass.closed = pushed.is_ok();
        }
        pass.closed
    }

    /// Takes the oldest item that waits. Returns `None` only if no item waited at some moment since the last one was
    /// taken, and always after `Closed` was taken. The pass has to be this lane's.
    pub fn take<R: Wait>(&self, rt: &R, pass: &mut TakePass) -> Option<Item>
        requires lane { pass.old.id ≡ self.now.id }
        ensures lane { pass.new.id ≡ pass.old.id }
        ensures got { MatchOption result
            (pass.new.got ≡ pass.old.got)
            (λ item. pass.new.got ≡ pass.old.got ++ item ∷ []) }
        ensures sent { MatchOption result ((pass.new.sent ≡ pass.old.sent) × IsEmpty pass.old)
            (λ item. IsBeginning pass.new.got pass.new.sent × IsBeginning pass.old.sent pass.new.sent) }
        ensures open { OnSome result (is_closed pass.old.got ≡ false) }
        ensures closed { IfSome result (λ item. is_closed pass.new.got ≡ is_closing item) }
        ensures order { IsOrderly pass.new.got }
    {
        self.queue.pop_as::<Takes, R>(rt, &mut pass.pass)
    }

    /// Ends the sending end, after `Closed` was taken from the lane: all that was sent was taken. The call changes
    /// neither the lane nor what was taken. Both passes have to be this lane's.
    pub fn settle<R: Wait>(&self, rt: &R, pass: &mut TakePass, ended: SendPass)
        requires lane { (pass.old.id ≡ self.now.id) × (ended.id ≡ self.now.id) }
        requires closed { is_closed pass.old.got ≡ true }
        ensures lane { pass.new ≡ pass.old }
        ensures all { pass.new.got ≡ ended.sent }
    {
        let SendPass {
            pass: sender,
            closed: _,
        } = ended;
        self.queue.absorb::<Ends>(&mut pass.pass, sender);
        // This pop finds nothing, as the rule shows.
        let found = self.queue.pop_as::<Settles, R>(rt, &mut pass.pass);
        let _ = found;
    }
}

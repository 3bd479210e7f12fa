//! The rule that every step on a lane preserves, and the three kinds of step: pushing a note, pushing `Closed`, and
//! popping an item. At run time only the items exist.

use crate::item::Item;
use crossbeam_queue::protocol::{Join, Lesson, Outcome, Protocol, Split};
use std::collections::LinkedList;

// The knowledge of a pass's holder: whether it may push and pop, and beginnings of what was pushed and of what was
// popped. A pass that pushes knows all that was pushed, and a pass that pops knows all that was popped. No value of
// this type is made.
pub struct LaneView {
    pub sends: bool,
    pub takes: bool,
    pub sent: LinkedList<Item>,
    pub got: LinkedList<Item>,
}

pub struct LaneRule;

impl Protocol<Item, LaneView> for LaneRule {
    ghost use Rattle.std.specs.Prelude.{true, []};
    ghost use Rattle.unit_queue.specs.Rules.{view_of, IsKept};

    ghost holds = { IsKept };

    ghost first = { view_of true true [] [] };
}

// The two ends of a lane. The lane's first pass is split into one that sends and one that takes, and `settle` joins
// them again.
pub struct Ends;

impl Split<LaneView> for Ends {
    ghost use Rattle.unit_queue.specs.Rules.{sender, taker};

    ghost left = { λ v. sender v.sent v.got };

    ghost right = { λ v. taker v.got v.sent };
}

impl Join<LaneView> for Ends {
    ghost use Rattle.std.specs.Prelude.{true, false, []};
    ghost use Rattle.unit_queue.specs.Rules.{view_of};

    ghost both = { λ v w. view_of true true w.sent v.got };

    ghost spent = { view_of false false [] [] };
}

// A push of a note or of `Closed`. The item is added to what was sent, and the pass then knows what was taken up to
// that step. If the queue is full, the items that wait are what was sent without what was taken.
pub struct Sends;

impl Outcome<Item, LaneView> for Sends {
    ghost use Rattle.unit_queue.specs.Rules.{IsSent};

    ghost then = { IsSent };
}

impl Lesson<Item, LaneView> for Sends {
    ghost use Rattle.unit_queue.specs.Lanes.{Waited};

    ghost fact = { λ v items. Waited v.got v.sent items };
}

// A pop. The item is added to what was taken, and the pass then knows what was sent up to that step. If the queue is
// empty, everything that was sent was taken.
pub struct Takes;

impl Outcome<Item, LaneView> for Takes {
    ghost use Rattle.unit_queue.specs.Rules.{IsTaken};

    ghost then = { IsTaken };
}

impl Lesson<Item, LaneView> for Takes {
    ghost use Rattle.std.specs.Prelude.{◌++◌};
    ghost use Rattle.unit_queue.specs.Lanes.{IsBeginning};

    ghost fact = { λ v items. IsBeginning v.sent (v.got ++ items) };
}

// A pop after `Closed` was taken, which finds nothing. Because both ends are then in one pass, the items that wait are
// known to be what was sent without what was taken.
pub struct Settles;

impl Outcome<Item, LaneView> for Settles {
    ghost then = { λ v x w. ⊥ };
}

impl Lesson<Item, LaneView> for Settles {
    ghost use Rattle.std.specs.Prelude.{◌≡◌, ◌++◌};

    ghost fact = { λ v items. v.sent ≡ v.got ++ items };
}

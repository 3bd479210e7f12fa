//! A lane carries the reservations of one unit from the issuing thread to the thread that serves the unit.
//!
//! The 6600 had no lanes: its scoreboard drove all units at once (Thornton, scoreboard). Lanes are this project's
//! choice, for a machine whose units are threads.
//!
//! Callers rely on `Lane::send` and `Lane::take`: what was taken, followed by what still waits, is what was sent, in
//! order, and nothing comes after `Item::Closed`. `rule` has the steps that the queue allows. Its tests are in
//! `crates/thread_tests/src/queue_tests.rt`. Begin with `Lane` in `ends`.
#![tactic(auto)]

ghost use Rattle.std.specs.Prelude.{◌≡◌, [], MatchResult};
ghost use Rattle.instructions.specs.declared.refusal.Refusal.TheVariants.{OutOfMemory};
ghost use Rattle.unit_queue.specs.Lanes.{send_end, take_end};

mod ends;
mod instances;
mod item;
mod rule;

pub use ends::{Lane, SendPass, TakePass};
pub use instances::a_new_lane_refuses_no_note;
use instructions::{Refusal, Unit};
pub use item::Item;
use std::alloc::Global;

/// Creates an empty lane for a unit, with its two ends. Nothing was sent on it, and nothing taken from it.
///
/// # Errors
/// `OutOfMemory` if memory runs out.
pub fn lane(alloc: Global, unit: Unit) -> Result<(Lane, SendPass, TakePass), Refusal>
    ensures { MatchResult result
        (λ made. (made.0.unit ≡ unit) × (made.1 ≡ send_end made.0.id [] []) × (made.2 ≡ take_end made.0.id [] []))
        (λ refusal. refusal ≡ OutOfMemory) }
{
    Lane::new(alloc, unit)
}

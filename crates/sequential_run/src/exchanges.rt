//! The exchanges of a log.
ghost use Rattle.std.specs.Prelude.{◌≡◌, ◌<◌, ◌+◌, ◌^◌, ◌++◌, ◌∷◌, [], IfOk};
ghost use Rattle.sequential.specs.Log.{issued, steps_of};
ghost use Rattle.sequential_run.specs.Fulfilled.{exchanges_after};

use crate::requests::Ask;
use sequential::Entry;
use std::alloc::{AllocError, Global};

/// Adds an entry of the log: its exchange to `made`, or its instructions to `count`.
///
/// # Errors
/// `AllocError` if memory runs out.
#[tactic(auto, unfolding(sequential::specs::Log::steps_of, sequential::specs::Log::issued, crate::specs::Fulfilled::exchanges_after), using(crate::proofs::Counting::issues_alone, crate::proofs::Counting::no_exchange))]
fn add(made: &mut Vec<Ask>, count: &mut u64, entry: &Entry) -> Result<(), AllocError>
    requires count { count.old + issued (steps_of (entry.now ∷ [])) < 2 ^ 64 }
    ensures made { IfOk result (λ _. made.new.items
        ≡ made.old.items ++ exchanges_after count.old (steps_of (entry.now ∷ []))) }
    ensures count { IfOk result (λ _. count.new ≡ count.old + issued (steps_of (entry.now ∷ []))) }
{
    match entry {
        Entry::Exchange(at) => made.push((*at, *count))?,
        Entry::Issued(more) => *count += *more,
        Entry::PpRead(_) | Entry::PpWrite(_, _) => {}
    }
    Ok(())
}

/// The exchanges of a log's entries, in order. Each is the absolute address of its package and the number of
/// instructions before it.
///
/// # Errors
/// `AllocError` if memory runs out.
pub fn exchanges(alloc: Global, entries: &[Entry]) -> Result<Vec<Ask>, AllocError>
    requires count { issued (steps_of entries.now) < 2 ^ 64 }
    ensures { IfOk result (λ made. made.items ≡ exchanges_after 0 (steps_of entries.now)) }
{
    let mut made = Vec::new(alloc);
    let mut count = 0;
    for entry in entries {
        add(&mut made, &mut count, entry)?;
    }
    Ok(made)
}

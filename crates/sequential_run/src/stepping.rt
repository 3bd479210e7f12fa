//! Consecutive instructions: the loop in which a run spends its time.
ghost use Rattle.std.specs.Prelude.{◌≡◌, ◌≤◌, ◌<◌, false};
ghost use Rattle.sequential_run.specs.Turns.{is_going, is_in_mid_word};
ghost use Rattle.sequential_run.specs.inner.Stepping.{StepsTo};

use sequential::{State, step};

/// Whether the machine runs without a fault.
#[tactic(auto, unfolding(crate::specs::Turns::is_going))]
#[inline(always)]
pub fn is_going(state: &State) -> bool
    ensures { result ≡ is_going state.now }
{
    state.halt.is_none() && !state.fault
}

/// Whether the machine runs without a fault and is in the middle of a word, where no exchange can be made.
#[tactic(auto, unfolding(crate::specs::Turns::is_in_mid_word))]
#[inline(always)]
pub fn is_in_mid_word(state: &State) -> bool
    ensures { result ≡ is_in_mid_word state.now }
{
    is_going(state) && state.position.held.is_some()
}

/// Executes `count` instructions, or fewer if the machine halts or faults. Returns the number executed. The function
/// isn't inlined, so that the hot loop is compiled by itself.
#[inline(never)]
pub fn issue_many(state: &mut State, count: u64) -> u64
    ensures steps { StepsTo result state.old state.new }
    ensures most { result ≤ count }
    ensures ends { result < count → is_going state.new ≡ false }
{
    for made in 0..count {
        if !is_going(state) {
            return made;
        }
        step(state);
    }
    count
}

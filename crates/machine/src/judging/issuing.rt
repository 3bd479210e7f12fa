//! The refusals E1 to E6 of an issue, and the fetch of the instruction that an allowed issue takes.

ghost use Rattle.std.specs.Prelude.{◌≡◌, ◌<◌, IfOk, MatchResult, OnOk, Some};
ghost use Rattle.sequential.specs.State.{bounds_of};
ghost use Rattle.sequential.specs.Step.{fetch};
ghost use Rattle.in_flight.specs.Tests.{refusal_of, reservation_tests};
ghost use Rattle.program_order.specs.Issue.{issue_tests};

use in_flight::InFlight;
use instructions::Refusal;
use relocation::relocate;
use sequential::{Fetched, State};

/// Judges whether the next word or parcel may be taken, except for first order conflicts. If so, returns what it does.
///
/// # Errors
/// The first that applies: `Halted`, `Faulted`, `Budget`, `BranchPending`, `ExchangeWaiting` or `FetchWait`.
#[tactic(auto, unfolding(crate::proofs::Opened::waiting_fetch, in_flight::specs::Tests::refusal_of, program_order::specs::Issue::issue_tests))]
pub(crate) fn judge_issue(
    state: &State,
    in_flight: &InFlight,
    request: &Option<u32>,
    budget: u64,
    count: u64,
) -> Result<Fetched, Refusal>
    ensures answer { MatchResult result
        (λ fetched. refusal_of (issue_tests state.now in_flight.now.pending request.now budget count)
        ≡ refusal_of (reservation_tests in_flight.now.pending fetched))
        (λ refusal. refusal_of (issue_tests state.now in_flight.now.pending request.now budget count) ≡ Some refusal) }
    ensures fetched { IfOk result (λ fetched. fetched ≡ fetch
        (bounds_of state.now) state.now.memory state.now.position) }
    ensures count { OnOk result (count < budget) }
{
    if let Some(halt) = state.halt {
        return Err(Refusal::Halted(halt));
    }
    if state.fault {
        return Err(Refusal::Faulted);
    }
    if count >= budget {
        return Err(Refusal::Budget);
    }
    if in_flight.is_branch_held() {
        return Err(Refusal::BranchPending);
    }
    if state.position.held.is_some() {
        // No word is fetched.
        return Ok(state.fetch());
    }
    if request.is_some() {
        return Err(Refusal::ExchangeWaiting);
    }
    let size = state.memory.size();
    if let Some(address) = relocate(state.position.p, state.area.ra, state.area.fl, size) {
        if in_flight.delays_fetch(address) {
            return Err(Refusal::FetchWait);
        }
    }
    Ok(state.fetch())
}

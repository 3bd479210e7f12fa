//! The refusals of a request for an exchange, and those of the exchange.

ghost use Rattle.std.specs.Prelude.{◌≡◌, ◌<◌, IfOk, OnOk, Some};
ghost use Rattle.in_flight.specs.Tests.{refusal_in, refusal_of};
ghost use Rattle.program_order.specs.Exchange.{ask_tests, exchange_tests};

use in_flight::InFlight;
use instructions::{MOST_REQUESTS, Refusal};
use relocation::package_fits;
use sequential::State;

/// Judges whether the exchange may be asked for.
#[tactic(auto, unfolding(in_flight::specs::Tests::refusal_of, program_order::specs::Exchange::ask_tests))]
pub(crate) fn judge_ask(
    asked: u32,
    request: &Option<u32>,
    size: u32,
    at: u32,
) -> Result<(), Refusal>
    ensures answer { refusal_of (ask_tests asked request.now size at) ≡ refusal_in result }
    ensures bound { OnOk result (asked < 1000000) }
{
    if asked >= MOST_REQUESTS {
        return Err(Refusal::Budget);
    }
    if request.is_some() {
        return Err(Refusal::ExchangeBusy);
    }
    if !package_fits(at, size) {
        return Err(Refusal::PackageRange);
    }
    Ok(())
}

/// Judges whether the exchange may be made. If so, returns the address of its package.
#[tactic(auto, unfolding(in_flight::specs::Tests::refusal_of, program_order::specs::Exchange::exchange_tests))]
pub(crate) fn judge_exchange(
    request: &Option<u32>,
    in_flight: &InFlight,
    state: &State,
) -> Result<u32, Refusal>
    ensures answer { refusal_of (exchange_tests request.now in_flight.now.pending state.now) ≡ refusal_in result }
    ensures request { IfOk result (λ at. request.now ≡ Some at) }
{
    let Some(at) = *request else {
        return Err(Refusal::Nothing);
    };
    if !in_flight.is_empty() {
        return Err(Refusal::NotDrained);
    }
    if state.halt.is_none() && !state.fault && state.position.held.is_some() {
        return Err(Refusal::MidWord);
    }
    Ok(at)
}

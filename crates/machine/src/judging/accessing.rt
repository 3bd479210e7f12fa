//! The refusals of an access by a peripheral processor.

ghost use Rattle.std.specs.Prelude.{◌≡◌, ◌<◌, OnOk};
ghost use Rattle.in_flight.specs.Tests.{refusal_in, refusal_of};
ghost use Rattle.program_order.specs.Peripheral.{access_tests};

use in_flight::InFlight;
use instructions::{MOST_ACCESSES, Refusal};

/// Judges whether a peripheral processor may access the word at an absolute address.
///
/// # Errors
/// The first that applies: `Budget`, `PeripheralWait` or `PeripheralRange`.
#[tactic(auto, unfolding(in_flight::specs::Tests::refusal_of, program_order::specs::Peripheral::access_tests))]
pub(crate) fn judge_access(
    accessed: u32,
    in_flight: &InFlight,
    size: u32,
    at: u32,
) -> Result<(), Refusal>
    ensures answer { refusal_of (access_tests accessed in_flight.now.pending size at) ≡ refusal_in result }
    ensures bound { OnOk result (accessed < 1000000) }
    ensures within { OnOk result (at < size) }
{
    if accessed >= MOST_ACCESSES {
        return Err(Refusal::Budget);
    }
    if in_flight.delays_access(at) {
        return Err(Refusal::PeripheralWait);
    }
    if at >= size {
        return Err(Refusal::PeripheralRange);
    }
    Ok(())
}

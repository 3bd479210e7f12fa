//! The next event of the oldest pending instruction, which a drain makes.

ghost use Rattle.std.specs.Prelude.{◌≡◌};
ghost use Rattle.program_order.specs.Drain.{next_in, next_of};

use hopper::bank_of;
use in_flight::{InFlight, Outstanding, Pending, Phase, Stage};
use program_order::Event;

/// The next event of an instruction that waits for no other.
#[tactic(auto, unfolding(program_order::specs::Drain::next_in))]
fn next_for(pending: &Pending, in_flight: &InFlight) -> Event
    ensures { result ≡ next_in pending.now.unit pending.now.phase in_flight.now.busy }
{
    match pending.phase {
        Phase::Before(Stage::Unread) => Event::Read(pending.unit),
        Phase::Before(Stage::Read(_)) => Event::Finish(pending.unit),
        Phase::Before(Stage::Finished(_)) => Event::Store(pending.unit),
        Phase::After(Outstanding::Entered(place, address, _)) => {
            let bank = bank_of(address);
            if in_flight.is_bank_busy(bank) {
                Event::BankFree(bank)
            } else {
                Event::Accept(place)
            }
        }
        Phase::After(Outstanding::Accepted(channel, _)) => Event::Return(channel.get()),
    }
}

/// The next event of the oldest instruction in flight.
#[tactic(auto, unfolding(program_order::specs::Drain::next_of, in_flight::specs::Lookup::first_of))]
pub(crate) fn next_work(in_flight: &InFlight) -> Option<Event>
    ensures { result ≡ next_of in_flight.now.pending in_flight.now.busy }
{
    match in_flight.oldest() {
        Some(pending) => Some(next_for(&pending, in_flight)),
        None => None,
    }
}

//! How a test opens a machine under its lock.

ghost use Rattle.std.specs.Prelude.{◌≡◌};

use instructions::Refusal;
use machine::{Machine, Seat};
use machine_lock::{Ground, Naming, Seen, Shared};
use std::alloc::Global;
use std::marker::Brand;
use std::sync::Wait;

/// The calls that a test makes on a machine under its lock. A test that sends the machine to another thread can't make
/// them here: no method of a trait may rest on `Send` or `Sync` of its parameters.
pub trait Scenario {
    /// The answers of the calls.
    type Outcome;

    /// Makes the calls, with the seats of the machine and a caller that has seen its log so far.
    fn play<K: Naming, R: Wait>(
        &self,
        rt: &R,
        shared: &Shared<K>,
        seats: [Seat; 7],
        seen: &mut Seen<K>,
    ) -> Self::Outcome;
}

/// Puts a machine under its lock, and makes the calls of a scenario.
pub fn play<S: Scenario, R: Wait>(
    rt: &R,
    alloc: Global,
    machine: Machine,
    scenario: &S,
) -> Result<S::Outcome, Refusal> {
    let ground = Ground::new(alloc)?;
    play_on::<S, Brand, R>(rt, alloc, ground, machine, scenario)
}

/// Plays the scenario on a machine that has the progress word of K.
fn play_on<S: Scenario, K: Naming, R: Wait>(
    rt: &R,
    alloc: Global,
    ground: Ground,
    machine: Machine,
    scenario: &S,
) -> Result<S::Outcome, Refusal>
    requires { ground ≡ K.table }
{
    let (shared, seats, mut seen) = Shared::<K>::open(alloc, ground, machine)?;
    Ok(scenario.play(rt, &shared, seats, &mut seen))
}

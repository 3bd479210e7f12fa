ghost use Rattle.std.specs.Prelude.{◌≡◌, Some, None, true, false, nat_lt, length, replicate, IfErr, OnOk, MatchResult};
ghost use Rattle.std.specs.Prelude.{[], ◌∷◌};
ghost use Rattle.instructions.specs.declared.refusal.Refusal.TheVariants.{PeripheralRange};
ghost use Rattle.sequential.specs.Log.{steps_of};
ghost use Rattle.sequential.specs.State.{store_word};
ghost use Rattle.sequential.specs.Replay.{Issued, replay, IsRefusedAt};

use crate::{Entry, Log, State, step};
use instructions::Refusal;
use word60::Word60;

/// Makes `count` steps. A halted machine doesn't change, so the loop stops at a halt.
#[inline(never)]
fn issue_many(state: &mut State, count: u64)
    ensures { replay state.old (replicate count Issued) ≡ Some state.new }
{
    for _ in 0..count {
        if state.halt.is_some() {
            return;
        }
        step(state);
    }
}

/// Checks that the absolute address of a peripheral access is in memory.
fn peripheral_range(state: &State, at: u32) -> Result<(), Refusal>
    ensures { MatchResult result (λ _. nat_lt at (length state.now.memory) ≡ true)
        (λ refusal. (nat_lt at (length state.now.memory) ≡ false) × (refusal ≡ PeripheralRange)) }
{
    if at < state.memory.size() {
        Ok(())
    } else {
        Err(Refusal::PeripheralRange)
    }
}

/// Writes a peripheral processor's word to an absolute address.
#[tactic(auto, unfolding(crate::specs::State::store_word))]
fn peripheral_write(state: &mut State, at: u32, word: Word60) -> Result<(), Refusal>
    ensures answer { MatchResult result (λ _. nat_lt at (length state.old.memory) ≡ true)
        (λ refusal. (nat_lt at (length state.old.memory) ≡ false) × (refusal ≡ PeripheralRange)) }
    ensures after { MatchResult result (λ _. state.new ≡ store_word state.old at word) (λ _. state.new ≡ state.old) }
{
    if at < state.memory.size() {
        state.memory.store(at, word);
        Ok(())
    } else {
        Err(Refusal::PeripheralRange)
    }
}

/// Makes the steps of one entry.
fn replay_entry(state: &mut State, entry: &Entry) -> Result<(), Refusal>
    ensures done { OnOk result (replay state.old (steps_of (entry.now ∷ [])) ≡ Some state.new) }
    ensures refused { IfErr result
        (λ refusal. IsRefusedAt state.old (steps_of (entry.now ∷ [])) state.new refusal) }
{
    match *entry {
        Entry::Issued(count) => {
            issue_many(state, count);
            Ok(())
        }
        Entry::Exchange(at) => state.exchange(at),
        Entry::PpRead(at) => peripheral_range(state, at),
        Entry::PpWrite(at, word) => peripheral_write(state, at, word),
    }
}

/// Makes the steps of a log in order: each instruction, exchange and peripheral access.
///
/// # Errors
/// The refusal of the first refused step; the steps before it have been made. `PackageRange` if the sixteen words of an
/// exchange aren't all in memory. `PeripheralRange` if the word of a peripheral access isn't in memory.
pub fn replay(state: &mut State, log: &Log) -> Result<(), Refusal>
    ensures answer { MatchResult result
        (λ _. replay state.old log.now.steps ≡ Some state.new)
        (λ refusal. replay state.old log.now.steps ≡ None) }
    ensures refused { IfErr result (λ refusal. IsRefusedAt state.old log.now.steps state.new refusal) }
{
    for entry in log.entries() {
        let answer = replay_entry(state, entry);
        if answer.is_err() {
            return answer;
        }
    }
    Ok(())
}

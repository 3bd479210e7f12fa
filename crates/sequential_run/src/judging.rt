//! Finds the request that an exchange was made for.
ghost use Rattle.std.specs.Prelude.{◌≡◌, []};
ghost use Rattle.sequential_run.specs.Fulfilled.{is_in_time, is_next_ask, is_next_free, are_done, fulfils};
ghost use Rattle.sequential_run.specs.inner.Judging.{is_made, is_of_ask, starts_with_due};

use crate::requests::Ask;

/// The most instructions that can follow another in its word, which has four parcels.
const REST_OF_A_WORD: u64 = 3;

/// Whether the exchange is that of this request and was made after `now` instructions.
fn is_made(now: u64, ask: &Ask, made: &Ask) -> bool
    ensures { result ≡ is_made now ask.now made.now }
{
    made.0 == ask.0 && made.1 == now
}

/// Whether the exchanges begin with those of all counted requests that are due after `now` instructions, each made
/// then.
fn starts_with_due(now: u64, asks: &[Ask], exchanges: &[Ask]) -> bool
    ensures { result ≡ starts_with_due now asks.now exchanges.now }
{
    let mut left = exchanges;
    for ask in asks {
        if ask.1 > now {
            return true;
        }
        match left.split_first() {
            Some((made, more)) if is_made(now, ask, made) => left = more,
            _ => return false,
        }
    }
    true
}

/// Whether the next counted request isn't late after `now` instructions, if the last exchange was made after `last`.
#[tactic(auto, unfolding(crate::specs::Fulfilled::is_in_time))]
fn is_in_time(last: u64, now: u64, asks: &[Ask]) -> bool
    ensures { result ≡ is_in_time last now asks.now }
{
    match asks.split_first() {
        Some((ask, _)) => last < ask.1 && now.saturating_sub(ask.1) <= REST_OF_A_WORD,
        None => true,
    }
}

/// Whether the exchange can be that of the next counted request.
#[tactic(auto, unfolding(crate::specs::Fulfilled::is_next_ask))]
fn is_next_ask(last: u64, made: &Ask, asks: &[Ask]) -> bool
    ensures { result ≡ is_next_ask last made.now asks.now }
{
    match asks.split_first() {
        Some((ask, _)) => {
            made.0 == ask.0 && ask.1 <= made.1 && (made.1 == last || is_in_time(last, made.1, asks))
        }
        None => false,
    }
}

/// Whether the first exchange was made for the next counted request. If it could also be that of a free request, the
/// exchanges that follow decide: the exchanges of all due requests come at once.
pub fn is_of_ask(last: u64, asks: &[Ask], exchanges: &[Ask]) -> bool
    ensures { result ≡ is_of_ask last asks.now exchanges.now }
{
    match exchanges.split_first() {
        Some((made, _)) => is_next_ask(last, made, asks)
            && starts_with_due(made.1, asks, exchanges),
        None => false,
    }
}

/// Whether the exchange can be that of the next free request.
#[tactic(auto, unfolding(crate::specs::Fulfilled::is_next_free))]
pub fn is_next_free(last: u64, made: &Ask, asks: &[Ask], free: &[u32]) -> bool
    ensures { result ≡ is_next_free last made.now asks.now free.now }
{
    match free.split_first() {
        Some((at, _)) => made.0 == *at && is_in_time(last, made.1, asks),
        None => false,
    }
}

/// Whether a run may end after `total` instructions with these requests left.
#[tactic(auto, unfolding(crate::specs::Fulfilled::fulfils))]
pub fn may_end(in_mid_word: bool, total: u64, last: u64, asks: &[Ask], free: &[u32]) -> bool
    ensures { result ≡ fulfils in_mid_word total last asks.now free.now [] }
{
    are_done(total, asks, free) || (in_mid_word && is_in_time(last, total, asks))
}

/// Whether no free request, and no counted request that is due, is left after `total` instructions.
#[tactic(auto, unfolding(crate::specs::Fulfilled::are_done))]
fn are_done(total: u64, asks: &[Ask], free: &[u32]) -> bool
    ensures { result ≡ are_done total asks.now free.now }
{
    match (free.split_first(), asks.split_first()) {
        (Some(_), _) => false,
        (None, None) => true,
        (None, Some((ask, _))) => total < ask.1,
    }
}

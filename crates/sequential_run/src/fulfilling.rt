//! Checks whether a log fulfils the requests of its run.
ghost use Rattle.std.specs.Prelude.{◌≡◌, ◌<◌, ◌^◌, IfOk, true, drop, length, if◌then◌else◌};
ghost use Rattle.sequential.specs.Log.{issued};
ghost use Rattle.sequential_run.specs.Fulfilled.{exchanges_after, fulfils};
ghost use Rattle.sequential_run.specs.inner.Judging.{AreWithin};

use crate::exchanges::exchanges;
use crate::judging::{is_next_free, is_of_ask, may_end};
use crate::requests::Ask;
use sequential::Log;
use std::alloc::{AllocError, Global};

/// The requests without the first one, if the first one has its exchange; otherwise all of them.
fn left_of<T>(has_exchange: bool, requests: &[T]) -> &[T]
    requires { has_exchange ≡ true → 0 < length requests.now }
    ensures { result.now ≡ (if has_exchange then drop 1 requests.now else requests.now) }
{
    if has_exchange {
        &requests[1..]
    } else {
        requests
    }
}

/// Assigns every exchange to its request. Returns whether this is possible and the run may end after `total`
/// instructions with the requests that are left.
fn are_given(in_mid_word: bool, total: u64, asks: &[Ask], free: &[u32], exchanges: &[Ask]) -> bool
    requires { AreWithin total exchanges.now }
    ensures { result ≡ fulfils in_mid_word total 0 asks.now free.now exchanges.now }
{
    let (mut asks, mut free, mut left) = (asks, free, exchanges);
    let mut last = 0;
    while let Some((made, more)) = left.split_first() {
        let is_ask = is_of_ask(last, asks, left);
        if !is_ask && !is_next_free(last, made, asks, free) {
            return false;
        }
        asks = left_of(is_ask, asks);
        free = left_of(!is_ask, free);
        last = made.1;
        left = more;
    }
    may_end(in_mid_word, total, last, asks, free)
}

/// Whether a log, from its beginning, fulfils the counted requests `asks` and the free requests `free`. `asks` includes
/// the request for the first package, and both lists are in the order in which the requests are made. `in_mid_word`
/// says whether the machine runs without a fault in the middle of a word at the log's end.
///
/// # Errors
/// `AllocError` if memory runs out.
pub fn are_fulfilled(
    alloc: Global,
    asks: &[Ask],
    free: &[u32],
    in_mid_word: bool,
    log: &Log,
) -> Result<bool, AllocError>
    requires count { issued log.now.steps < 2 ^ 64 }
    ensures { IfOk result (λ fulfilled. fulfilled ≡ fulfils in_mid_word (issued log.now.steps) 0 asks.now free.now
        (exchanges_after 0 log.now.steps)) }
{
    let exchanges = exchanges(alloc, log.entries())?;
    Ok(are_given(in_mid_word, log.issues(), asks, free, exchanges.as_slice()))
}

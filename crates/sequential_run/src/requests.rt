//! The order in which a run makes its counted requests for exchanges, and hence when the run ends.
//!
//! A counted request names a number of instructions. It is due once that many were issued, and a run makes it before it
//! issues the next instruction. While another request waits for its exchange, none is due. Of several requests, the one
//! after the fewest instructions comes first; of equals, the one that was given first. The request for the run's first
//! package comes before all others.
//!
//! A run ends when the machine is drained in one of two situations. Either the machine is halted, faulted or out of
//! budget, and no request waits and none is due. Or the machine is out of budget in the middle of a word, where no
//! exchange can be made. A request after more instructions than a run has issued by its end is not made.
ghost use Rattle.std.specs.Prelude.{◌≡◌, ◌<◌, ◌+◌, ◌^◌, ◌++◌, ◌∷◌, ◌||◌, true, false, None, is_some, option_to_list};
ghost use Rattle.std.specs.Prelude.{IfOk, ℕ, ◌≤◌};
ghost use Rattle.sequential_run.specs.Requests.{AreOrdered, IsInOrder, KeepsTies, IsDue, StartsWithAny};

use std::alloc::{AllocError, Global};
use std::collections::VecDeque;
use std::marker::Model;

/// A counted request for an exchange: the absolute address of the package, and the number of instructions after which
/// the request is made.
pub type Ask = (u32, u64);

/// The counted requests of a run, in the order in which they are made. The request for the first package is first,
/// after no instructions.
///
/// # Errors
/// `AllocError` if memory runs out.
pub fn in_order(alloc: Global, start: u32, asks: &[Ask]) -> Result<Vec<Ask>, AllocError>
    ensures { IfOk result (λ all. AreOrdered start asks.now all.items) }
{
    let mut all = Vec::from_slice(alloc, &[(start, 0)])?;
    all.extend_from_slice(asks)?;
    all.sort_by_key(|ask| ask.1)?;
    Ok(all)
}

/// The counted requests that a run has yet to make, and the run's progress. In contracts this is the requests in the
/// order in which they are made, the number of instructions issued, and whether a request waits for its exchange.
#[derive(Drop)]
pub struct Requests {
    /// The requests, in the order in which they are made.
    left: VecDeque<Ask>,
    /// The number of instructions issued.
    issued: u64,
    /// Whether a request waits for its exchange.
    is_waiting: bool,
}

impl Model for Requests {
    ghost use Rattle.sequential_run.specs.Requests.{ToMake, IsInOrder};

    ghost Value = { ToMake };

    ghost view = { λ s. record { asks = s.left.items; issued = s.issued; is_waiting = s.is_waiting } };

    ghost invariant = { λ s. IsInOrder s.left.items };
}

impl Requests {
    /// The counted requests of a run before its first instruction.
    ///
    /// # Errors
    /// `AllocError` if memory runs out.
    pub fn new(alloc: Global, start: u32, asks: &[Ask]) -> Result<Requests, AllocError>
        ensures left { IfOk result (λ requests. KeepsTies ((start, 0) ∷ asks.now) requests.asks) }
        ensures order { IfOk result (λ requests. IsInOrder requests.asks) }
        ensures issued { IfOk result (λ requests. requests.issued ≡ 0) }
        ensures is_waiting { IfOk result (λ requests. requests.is_waiting ≡ false) }
    {
        let left = in_order(alloc, start, asks)?;
        Ok(Requests {
            left: VecDeque::from_vec(left),
            issued: 0,
            is_waiting: false,
        })
    }

    /// The request that `take_due` would return if no request waited. While a request waits, this is the request to
    /// make as soon as its exchange was made.
    pub fn next_due(&self) -> Option<Ask>
        ensures due { IsDue self.now.asks self.now.issued result }
        ensures first { StartsWithAny self.now.asks result }
    {
        let next = self.left.front()?;
        let after = next.1;
        if after > self.issued {
            return None;
        }
        Some(*next)
    }

    /// The request that is due. None is due while a request waits for its exchange.
    pub fn due(&self) -> Option<Ask>
        ensures due { self.now.is_waiting ≡ false → IsDue self.now.asks self.now.issued result }
        ensures none { self.now.is_waiting ≡ true → result ≡ None }
        ensures first { StartsWithAny self.now.asks result }
    {
        if self.is_waiting {
            return None;
        }
        self.next_due()
    }

    /// Takes the request that is due, if there is one. From then on it waits for its exchange.
    pub fn take_due(&mut self) -> Option<Ask>
        ensures due { self.old.is_waiting ≡ false → IsDue self.old.asks self.old.issued result }
        ensures none { self.old.is_waiting ≡ true → result ≡ None }
        ensures left { self.old.asks ≡ option_to_list result ++ self.new.asks }
        ensures is_waiting { self.new.is_waiting ≡ (self.old.is_waiting || is_some result) }
        ensures issued { self.new.issued ≡ self.old.issued }
    {
        self.due()?;
        self.is_waiting = true;
        self.left.pop_front()
    }

    /// Records the exchange of the waiting request.
    pub fn exchanged(&mut self)
        ensures left { self.new.asks ≡ self.old.asks }
        ensures is_waiting { self.new.is_waiting ≡ false }
        ensures issued { self.new.issued ≡ self.old.issued }
    {
        self.is_waiting = false;
    }

    /// Records an issued instruction.
    pub fn issued(&mut self)
        ensures left { self.new.asks ≡ self.old.asks }
        ensures is_waiting { self.new.is_waiting ≡ self.old.is_waiting }
        ensures issued { self.old.issued + 1 < 2 ^ 64 → self.new.issued ≡ self.old.issued + 1 }
    {
        self.issued = self.issued.saturating_add(1);
    }

    /// Records `count` issued instructions.
    pub fn issued_many(&mut self, count: u64)
        ensures left { self.new.asks ≡ self.old.asks }
        ensures is_waiting { self.new.is_waiting ≡ self.old.is_waiting }
        ensures issued { self.old.issued + count < 2 ^ 64 → self.new.issued ≡ self.old.issued + count }
    {
        self.issued = self.issued.saturating_add(count);
    }

    /// The number of further instructions until a request is due, 0 if one is due now. The largest `u64` if no request
    /// is left.
    pub fn until_due(&self) -> u64
        ensures none { (more : ℕ) → more < result → IsDue self.now.asks (self.now.issued + more) None }
        ensures some { IsDue self.now.asks self.now.issued None → 0 < result }
    {
        match self.left.front() {
            Some(next) => next.1.saturating_sub(self.issued),
            None => u64::MAX,
        }
    }
}

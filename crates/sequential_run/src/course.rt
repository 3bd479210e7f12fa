//! The progress of a run, and the turns that advance it.
ghost use Rattle.std.specs.Prelude.{◌≡◌, ◌≤◌, ◌<◌, ◌+◌, ◌^◌, ◌&&◌, nat_lt, ℕ, true, false, Some, None, is_some};
ghost use Rattle.std.specs.Prelude.{MatchResult};
ghost use Rattle.instructions.specs.declared.refusal.Refusal.TheVariants.{OutOfMemory};
ghost use Rattle.sequential.specs.Log.{issued};
ghost use Rattle.sequential_run.specs.Turns.{is_going, is_in_mid_word};
ghost use Rattle.sequential_run.specs.Requests.{IsDue};
ghost use Rattle.sequential_run.specs.inner.Course.{IsKept, CanIssue, IsWhyRefused, IsIssued, Goes, Went, moment_of};

use crate::requests::Requests;
use crate::stepping::{is_going, is_in_mid_word, issue_many};
use instructions::Refusal;
use sequential::{Log, State};
use std::collections::VecDeque;

/// A run in progress.
#[derive(Drop)]
pub struct Course {
    /// The state of the machine.
    pub state: State,
    /// The instructions and exchanges so far.
    pub log: Log,
    /// The counted requests, which name the number of instructions after which they are made.
    pub requests: Requests,
    /// The free requests, which may be made at any time: the absolute addresses of their packages, in order.
    pub free: VecDeque<u32>,
    /// The absolute address of the package of the request that is waiting for its exchange.
    pub waiting: Option<u32>,
}

impl Course {
    /// Makes the next request that is due or, if none is due, the next free request. Returns false if there is neither.
    fn ask(&mut self, budget: u64) -> bool
        requires kept { IsKept budget self.old }
        requires idle { self.old.waiting ≡ None }
        ensures gone { result ≡ true → Goes budget (moment_of self.old) (moment_of self.new) }
        ensures same { result ≡ false → moment_of self.new ≡ moment_of self.old }
        ensures can_issue { result ≡ false → CanIssue self.new }
        ensures kept { IsKept budget self.new }
    {
        if let Some(ask) = self.requests.take_due() {
            self.waiting = Some(ask.0);
            return true;
        }
        if let Some(at) = self.free.pop_front() {
            self.waiting = Some(at);
            return true;
        }
        false
    }

    /// The number of instructions to execute before the next check of the requests, at most `left`. While a request
    /// waits the number is at most 1, because the exchange may be possible after one instruction.
    fn next_issues(&self, left: u64) -> u64
        ensures most { result ≤ left }
        ensures some { CanIssue self.now → 0 < left → 0 < result }
        ensures single { is_some self.now.waiting ≡ true → result ≤ 1 }
        ensures quiet { is_some self.now.waiting ≡ false → (more : ℕ) → more < result
            → IsDue self.now.requests.asks (self.now.requests.issued + more) None }
    {
        if self.waiting.is_some() {
            return if left > 0 { 1 } else { 0 };
        }
        let until = self.requests.until_due();
        if until < left { until } else { left }
    }

    /// Whether an instruction may be executed: the machine runs without a fault, and some of the budget is left.
    fn may_issue(&self, budget: u64) -> bool
        requires kept { IsKept budget self.now }
        ensures { result ≡ (is_going self.now.state && nat_lt (issued self.now.log.steps) budget) }
    {
        is_going(&self.state) && self.log.issues() < budget
    }

    /// Executes `count` instructions, or fewer if the machine halts or faults.
    fn issue_some(&mut self, count: u64)
        requires room { 0 < self.old.log.room }
        requires count { issued self.old.log.steps + count < 2 ^ 64 }
        requires counted { self.old.requests.issued ≡ issued self.old.log.steps }
        ensures made { IsIssued count self.old self.new }
    {
        let made = issue_many(&mut self.state, count);
        self.log.issued_many(made);
        self.requests.issued_many(made);
    }

    /// Executes instructions up to the next check of the requests. Returns false if no instruction may be executed: the
    /// run has ended.
    ///
    /// # Errors
    /// `OutOfMemory` if memory runs out.
    fn issue(&mut self, budget: u64) -> Result<bool, Refusal>
        requires kept { IsKept budget self.old }
        ensures gone { CanIssue self.old
            → MatchResult result (λ on. Went budget on (moment_of self.old) (moment_of self.new))
            (λ refusal. refusal ≡ OutOfMemory) }
        ensures kept { MatchResult result (λ _. IsKept budget self.new) (λ _. true ≡ true) }
    {
        if !self.may_issue(budget) {
            return Ok(false);
        }
        if self.log.reserve(1).is_err() {
            return Err(Refusal::OutOfMemory);
        }
        let count = self.next_issues(budget - self.log.issues());
        self.issue_some(count);
        Ok(true)
    }

    /// Makes the next turn: an exchange, a request, or some instructions. Returns false if the run has ended.
    ///
    /// # Errors
    /// `OutOfMemory` if memory runs out. `PackageRange` if the sixteen words of the next exchange aren't all in memory.
    pub fn turn(&mut self, budget: u64) -> Result<bool, Refusal>
        requires kept { IsKept budget self.old }
        ensures gone { MatchResult result (λ on. Went budget on (moment_of self.old) (moment_of self.new))
            (λ refusal. IsWhyRefused budget (moment_of self.old) refusal) }
        ensures kept { MatchResult result (λ _. IsKept budget self.new) (λ _. true ≡ true) }
    {
        let Some(at) = self.waiting else {
            if self.ask(budget) {
                return Ok(true);
            }
            return self.issue(budget);
        };
        if is_in_mid_word(&self.state) {
            return self.issue(budget);
        }
        if self.log.reserve(1).is_err() {
            return Err(Refusal::OutOfMemory);
        }
        self.state.exchange(at)?;
        self.log.exchanged(at);
        self.requests.exchanged();
        self.waiting = None;
        Ok(true)
    }
}

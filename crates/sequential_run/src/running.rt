//! A run from boot to its end.
ghost use Rattle.std.specs.Prelude.{IfOk, MatchResult};
ghost use Rattle.sequential_run.specs.inner.Course.{IsBegun};
ghost use Rattle.sequential_run.specs.Run.{IsRun, IsSequentialRun, IsWhyNoRun};

use crate::course::Course;
use crate::requests::{Ask, Requests};
use instructions::Refusal;
use relocation::Storage;
use sequential::{Log, State};
use std::alloc::{AllocError, Global};
use std::collections::VecDeque;

/// The result of a completed run.
#[derive(Drop)]
pub struct CompletedRun {
    /// The final state of the machine.
    pub state: State,
    /// The instructions and exchanges of the run.
    pub log: Log,
}

/// Boots the machine and puts the requests in order.
///
/// # Errors
/// `AllocError` if memory runs out.
fn begin(
    alloc: Global,
    memory: Storage,
    start: u32,
    after: &[Ask],
    free: &[u32],
) -> Result<Course, AllocError>
    ensures begun { IfOk result (λ course. IsBegun memory start after.now free.now course) }
{
    let requests = Requests::new(alloc, start, after)?;
    let free = Vec::from_slice(alloc, free)?;
    Ok(Course {
        state: State::boot(memory),
        log: Log::new(alloc),
        requests,
        free: VecDeque::from_vec(free),
        waiting: None,
    })
}

/// Runs a program to its end, one instruction at a time. The machine boots with `memory`, makes its first exchange with
/// the package at the absolute address `start`, and executes at most `budget` instructions. The counted requests of
/// `after` are made after as many instructions as they name. The free requests of `free`, absolute addresses of
/// packages, are made at the first moment that allows it.
///
/// # Errors
/// `OutOfMemory` if memory runs out. `PackageRange` if the sixteen words of the next exchange aren't all in memory.
pub fn run(
    alloc: Global,
    memory: Storage,
    start: u32,
    after: &[Ask],
    free: &[u32],
    budget: u64,
) -> Result<CompletedRun, Refusal>
    ensures run { MatchResult result
        (λ ended. IsSequentialRun memory start after.now free.now budget ended.log.steps ended.state)
        (λ refusal. IsWhyNoRun memory start after.now free.now budget refusal) }
    ensures promised { IfOk result
        (λ ended. IsRun memory start after.now free.now budget ended.log.steps ended.state) }
{
    let Ok(mut course) = begin(alloc, memory, start, after, free) else {
        return Err(Refusal::OutOfMemory);
    };
    while course.turn(budget)? {}
    Ok(CompletedRun {
        state: course.state,
        log: course.log,
    })
}

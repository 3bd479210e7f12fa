//! Tests of sequential runs of a memory with requests, by callers that know a run from the contract alone.

ghost use Rattle.std.specs.Prelude.{◌≡◌, ◌+◌, ◌<◌, ◌^◌, length, IfSome, IfOk};
ghost use Rattle.sequential_run.specs.Made.{IsMadeByEvents};

use instructions::{Halt, Refusal};
use relocation::Storage;
use sequential::Entry;
use sequential_run::{Ask, CompletedRun, a_run_by_one_is_made_by_events, a_run_has_one_result};
use std::alloc::Global;
use std::test::Fail;

/// Runs the same memory, first package, requests and budget twice. Both runs have the same log and the same final
/// state.
fn runs_twice(
    alloc: Global,
    memory: Storage,
    start: u32,
    after: &[Ask],
    free: &[u32],
    budget: u64,
) -> Option<(CompletedRun, CompletedRun)>
    ensures log { IfSome result (λ ended. ended.0.log.steps ≡ ended.1.log.steps) }
    ensures state { IfSome result (λ ended. ended.0.state ≡ ended.1.state) }
{
    let Ok(again) = memory.copy() else {
        return None;
    };
    let Ok(first) = sequential_run::run(alloc, memory, start, after, free, budget) else {
        return None;
    };
    let Ok(second) = sequential_run::run(alloc, again, start, after, free, budget) else {
        return None;
    };
    a_run_has_one_result();
    Some((first, second))
}

/// A run whose log a machine with several instructions in flight can also make.
fn runs_as_by_events(
    alloc: Global,
    memory: Storage,
    start: u32,
    free: &[u32],
    budget: u64,
) -> Result<CompletedRun, Refusal>
    requires { length free.now < 1000000 }
    ensures { IfOk result (λ ended. IsMadeByEvents memory budget ended.log.steps ended.state) }
{
    match sequential_run::run(alloc, memory, start, &[], free, budget) {
        Ok(ended) => {
            a_run_by_one_is_made_by_events();
            Ok(ended)
        }
        Err(refusal) => Err(refusal),
    }
}

/// The log of a run of zeros with the package at 0 and then the one at 16. The first exchange loads an empty package. Its
/// field length is 0, so the first fetch is out of range.
const EXCHANGED: [Entry; 4] = [
    Entry::Exchange(0),
    Entry::Issued(1),
    Entry::Exchange(16),
    Entry::Issued(1),
];

/// Whether two runs have this log.
fn has_one_log(alloc: Global) -> bool {
    let Ok(memory) = Storage::new(alloc, 32) else {
        return false;
    };
    match runs_twice(alloc, memory, 0, &[(16, 1)], &[], 5) {
        Some((first, second)) => first.log.entries() == EXCHANGED.as_slice()
            && second.log.entries() == EXCHANGED.as_slice(),
        None => false,
    }
}

/// Whether a run with the package at 16 and then the one at 0 ends at its first fetch.
fn ends_at_its_fetch(alloc: Global) -> bool {
    let Ok(memory) = Storage::new(alloc, 32) else {
        return false;
    };
    match runs_as_by_events(alloc, memory, 16, &[0], 5) {
        Ok(ended) => ended.state.halt == Some(Halt::FetchRange) && ended.log.issues() == 1,
        Err(_) => false,
    }
}

/// Whether an exchange with a package that doesn't lie in memory is refused.
fn is_refused(alloc: Global) -> bool {
    let Ok(memory) = Storage::new(alloc, 32) else {
        return false;
    };
    matches!(
        sequential_run::run(alloc, memory, 17, &[], &[], 5),
        Err(Refusal::PackageRange)
    )
}

#[test]
fn runs_by_memory(rt: HostRuntime) -> Result<(), Fail> {
    assert!(rt; has_one_log(rt.alloc()));
    assert!(rt; ends_at_its_fetch(rt.alloc()));
    assert!(rt; is_refused(rt.alloc()));
    Ok(())
}

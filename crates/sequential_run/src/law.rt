//! Laws of sequential runs. The functions do nothing at run time: a caller uses their contracts.
ghost use Rattle.std.specs.Prelude.{◌≡◌, ◌+◌, ◌<◌, ℕ, List, length};
ghost use Rattle.sequential.specs.declared.state.State.{State as SomeState};
ghost use Rattle.sequential.specs.Replay.{LogStep};
ghost use Rattle.sequential_run.specs.Made.{IsMadeByEvents};
ghost use Rattle.sequential_run.specs.Run.{IsSequentialRun};

/// Two sequential runs with the same memory, first package, requests and budget have the same log and the same final
/// state.
pub fn a_run_has_one_result()
    ensures { (memory : List ℕ) → (start : ℕ) → (after : List (ℕ × ℕ)) → (free : List ℕ) → (budget : ℕ)
        → (log : List LogStep) → (other : List LogStep) → (s : SomeState) → (t : SomeState)
        → IsSequentialRun memory start after free budget log s
        → IsSequentialRun memory start after free budget other t → (log ≡ other) × (s ≡ t) }
{}

/// The machine with instructions in flight can make the log of a sequential run by allowed events, and is then drained
/// and in the same state. The bound is the number of requests that this machine accepts; one of them is for the first
/// package.
pub fn a_run_by_one_is_made_by_events()
    ensures { (memory : List ℕ) → (start : ℕ) → (after : List (ℕ × ℕ)) → (free : List ℕ) → (budget : ℕ)
        → (log : List LogStep) → (s : SomeState) → IsSequentialRun memory start after free budget log s
        → length after + length free < 1000000 → IsMadeByEvents memory budget log s }
{}

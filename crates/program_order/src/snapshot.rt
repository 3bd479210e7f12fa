ghost use Rattle.std.specs.Prelude.{◌≡◌, ◌≤◌, true, Some};
ghost use Rattle.sequential.specs.Log.{issued};
ghost use Rattle.sequential.specs.Replay.{boot, replay};
ghost use Rattle.program_order.specs.Headline.{IsFaultedRun};

use relocation::Storage;
use sequential::{Log, State};
use std::marker::Model;

/// A state with the log that leads to it, and the memory and the budget with which the log begins. The state is that of
/// the machine that executes one instruction at a time, after the log, on that memory. The log has no more instructions
/// than the budget. A snapshot promises no more than this. That it is of a drained machine is promised by the call that
/// took it.
#[derive(Drop)]
pub struct Snapshot {
    state: State,
    log: Log,
    boot_memory: Storage,
    budget: u64,
}

impl Model for Snapshot {
    ghost use Rattle.std.specs.Prelude.{◌≡◌, ◌≤◌, Some};
    ghost use Rattle.sequential.specs.Log.{issued};
    ghost use Rattle.sequential.specs.Replay.{boot, replay};
    ghost use Rattle.program_order.specs.SnapshotView.{Snapped};

    ghost Value = { Snapped };

    ghost view = { λ s. record {
      state = s.state;
      log = s.log.steps;
      boot_memory = s.boot_memory;
      budget = s.budget;
    } };

    ghost invariant = { λ s. (replay (boot s.boot_memory) s.log.steps ≡ Some s.state)
        × (issued s.log.steps ≤ s.budget) };
}

impl Snapshot {
    /// A snapshot of any state that is the replay of its log, if the log has no more instructions than the budget.
    pub fn of(state: State, log: Log, boot_memory: Storage, budget: u64) -> Snapshot
        requires replay { replay (boot boot_memory) log.steps ≡ Some state }
        requires within { issued log.steps ≤ budget }
        ensures state { result.state ≡ state }
        ensures log { result.log ≡ log.steps }
        ensures boot_memory { result.boot_memory ≡ boot_memory }
        ensures budget { result.budget ≡ budget }
    {
        Snapshot {
            state,
            log,
            boot_memory,
            budget,
        }
    }

    /// The state after the log.
    #[tactic(auto, using(crate::proofs::theorem::Headline::replay_faulted))]
    pub fn state(&self) -> &State
        ensures value { result.now ≡ self.now.state }
        ensures replay { replay (boot self.now.boot_memory) self.now.log ≡ Some result.now }

        // If the fault is set, the log since the last exchange is a beginning of the program's run that includes the
        // instruction that sets the fault.
        ensures fault { result.now.fault ≡ true → IsFaultedRun self.now.log self.now.boot_memory result.now }
    {
        &self.state
    }

    /// How many instructions may be issued since boot. The log has no more.
    pub fn budget(&self) -> u64
        ensures value { result ≡ self.now.budget }
        ensures within { issued self.now.log ≤ result }
    {
        self.budget
    }

    /// The log since boot, which leads to the state.
    pub fn log(&self) -> &Log
        ensures { result.now.steps ≡ self.now.log }
    {
        &self.log
    }

    /// The memory with which the log begins.
    pub fn boot_memory(&self) -> &Storage
        ensures { result.now ≡ self.now.boot_memory }
    {
        &self.boot_memory
    }
}

//! Logs for which the definition of the steps excludes a wrong body. These functions do nothing at run time.
ghost use Rattle.std.specs.Prelude.{◌≢◌, [], ◌∷◌, ◌++◌};
ghost use Rattle.sequential.specs.declared.log.Entry.TheVariants.{Issued as Count, Exchange, PpRead};
ghost use Rattle.sequential.specs.Log.{steps_of};
ghost use Rattle.sequential.specs.Replay.{Exchanged, ReadAt};

/// After one instruction, the log with an exchange isn't that of an exchange and then an instruction. A body that keeps
/// the count but moves the exchange in front of the instruction leaves these entries.
#[tactic(auto, unfolding(crate::specs::Log::steps_of))]
pub fn an_exchange_stays_after_the_instruction()
    ensures { steps_of (Count 1 ∷ []) ++ Exchanged 0o40 ∷ [] ≢ steps_of (Exchange 0o40 ∷ Count 1 ∷ []) }
{}

/// After one instruction, the log with a peripheral access isn't that of an access and then an instruction. A body that
/// logs the access before an earlier issue leaves these entries.
#[tactic(auto, unfolding(crate::specs::Log::steps_of))]
pub fn an_access_stays_after_the_instruction()
    ensures { steps_of (Count 1 ∷ []) ++ ReadAt 0o40 ∷ [] ≢ steps_of (PpRead 0o40 ∷ Count 1 ∷ []) }
{}

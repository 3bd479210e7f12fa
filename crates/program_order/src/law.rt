ghost use Rattle.std.specs.Prelude.{ℕ, List, ◌++◌, Result, ◌≡◌, ◌<◌, ◌&&◌, ◌||◌, true, false, not, is_none};
ghost use Rattle.std.specs.Prelude.{is_some, Some, None};
ghost use Rattle.instructions.specs.declared.refusal.Refusal.{Refusal};
ghost use Rattle.program_order.specs.declared.event.Event.{Event as SomeEvent};
ghost use Rattle.program_order.specs.declared.event.Done.{Done as SomeDone};
ghost use Rattle.relocation.specs.declared.area.Access.{Access as SomeAccess};
ghost use Rattle.hopper.specs.Hopper.{keep_order};
ghost use Rattle.sequential.specs.declared.state.State.{State as SomeState};
ghost use Rattle.sequential.specs.State.{access_at};
ghost use Rattle.sequential.specs.Log.{issued};
ghost use Rattle.program_order.specs.declared.event.Event.TheVariants.{Issue, Exchange as MakeExchange};
ghost use Rattle.program_order.specs.Headline.{IsFaithful, GainsAccesses, makes_no_exchange};
ghost use Rattle.program_order.specs.EitherOrder.{same_register};
ghost use Rattle.program_order.specs.Reached.{IsReached};
ghost use Rattle.program_order.specs.Run.{IsAnswered, settled_all};
ghost use Rattle.program_order.specs.Processor.{Processor as SomeProcessor};
ghost use Rattle.program_order.specs.Events.{allowed};
ghost use Rattle.in_flight.specs.Lookup.{is_pending};

/// Whichever calls led from boot to a machine, its log is the instructions issued, the exchanges made and the
/// peripheral accesses, in order. If the machine is drained, its state is that of the machine that executes one
/// instruction at a time, after that log. Drained or not, a peripheral processor reads the words of that machine.
pub fn what_is_reached_is_faithful()
    ensures { (memory : List ℕ) → (budget : ℕ) → (events : List SomeEvent) → (answers : List (Result SomeDone Refusal))
        → (w : SomeProcessor)
        → IsReached memory budget events answers w → IsFaithful memory events answers w }
{}

/// While the fault is set and no exchange is made, nothing is issued and the fault stays set, so that the log gains
/// peripheral accesses alone. This holds in a run from any machine, and between two machines that were reached one
/// after the other.
pub fn a_fault_stops_the_program()
    ensures run { (w : SomeProcessor) → (events : List SomeEvent) → (answers : List (Result SomeDone Refusal))
        → w.state.fault ≡ true → IsAnswered w events answers → makes_no_exchange events answers ≡ true
        → GainsAccesses w.log (settled_all w events answers).log
        × ((settled_all w events answers).state.fault ≡ true) }
    ensures reached { (memory : List ℕ) → (budget : ℕ) → (events : List SomeEvent) → (more : List SomeEvent)
        → (answers : List (Result SomeDone Refusal)) → (given : List (Result SomeDone Refusal)) → (w : SomeProcessor)
        → (v : SomeProcessor)
        → IsReached memory budget events answers w → w.state.fault ≡ true
        → IsReached memory budget (events ++ more) (answers ++ given) v → makes_no_exchange more given ≡ true
        → GainsAccesses w.log v.log × (v.state.fault ≡ true) }
{}

/// References that needn't keep their order leave the same state in either order. References that wait load into
/// different registers, because a register that is to be loaded is reserved.
pub fn references_that_pass_commute()
    ensures { (s : SomeState) → (address : ℕ) → (access : SomeAccess) → (other_address : ℕ)
        → (other_access : SomeAccess) → keep_order address access other_address other_access ≡ false
        → same_register access other_access ≡ false
        → access_at (access_at s address access) other_address other_access
        ≡ access_at (access_at s other_address other_access) address access }
{}

/// A drained machine can continue. If it runs without fault and has budget left, it accepts an issue, unless an
/// exchange is asked for and no word is held. It accepts the exchange that is asked for, unless it runs without fault
/// in mid word.
pub fn a_drained_machine_goes_on()
    ensures issue { (w : SomeProcessor) → is_pending w.pending ≡ false → w.state.halt ≡ None → w.state.fault ≡ false
        → issued w.log < w.budget
        → (is_none w.request || is_some w.state.position.held) ≡ true → allowed w Issue ≡ None }
    ensures exchange { (w : SomeProcessor) → (at : ℕ) → is_pending w.pending ≡ false → w.request ≡ Some at
        → (is_none w.state.halt && (not w.state.fault && is_some w.state.position.held)) ≡ false
        → allowed w MakeExchange ≡ None }
{}

//! Instructions in flight for which the definitions exclude a wrong body. These functions do nothing at run time: each
//! contract says what a definition gives for one list, and a body that gives anything else doesn't meet the definition.
ghost use Rattle.std.specs.Prelude.{◌≡◌, [], ◌∷◌, true, false, Some};
ghost use Rattle.std.specs.List.{list_any};
ghost use Rattle.instructions.specs.declared.instr.Addends.TheVariants.{Address, Registers};
ghost use Rattle.instructions.specs.declared.instr.Base.TheVariants.{B as BaseB};
ghost use Rattle.instructions.specs.declared.instr.Instr.TheVariants.{Increment, Logical};
ghost use Rattle.instructions.specs.declared.instr.Logic.TheVariants.{And};
ghost use Rattle.instructions.specs.declared.instr.Pair.TheVariants.{BPlusB};
ghost use Rattle.instructions.specs.declared.instr.Reg.TheVariants.{X};
ghost use Rattle.instructions.specs.declared.instr.Target.TheVariants.{A as TargetA, X as TargetX};
ghost use Rattle.instructions.specs.declared.instr.Unit.TheVariants.{Boolean, Increment1};
ghost use Rattle.instructions.specs.declared.refusal.Refusal.TheVariants.{ResultHeld};
ghost use Rattle.in_flight.specs.declared.pending.Outstanding.TheVariants.{Accepted};
ghost use Rattle.in_flight.specs.declared.pending.Phase.TheVariants.{After, Before};
ghost use Rattle.in_flight.specs.declared.pending.Stage.TheVariants.{Unread};
ghost use Rattle.in_flight.specs.Lookup.{is_pending};
ghost use Rattle.in_flight.specs.Pending.{delays_fetch};
ghost use Rattle.in_flight.specs.Tests.{refusal_of, store_conflicts};

/// A fetch waits while SA6 B0+10, which hasn't come to its store event, is the only pending instruction. A body that
/// looks only at the stores in the hopper doesn't wait.
#[tactic(auto, unfolding(crate::proofs::Opened::on_one_list))]
pub fn a_fetch_waits_for_a_store_to_come()
    ensures { list_any (delays_fetch 0o101) (record {
      instr = Increment TargetA 6 (Address BaseB 0 0o10);
      at = 0o100;
      number = 1;
      unit = Increment1;
      phase = Before Unread;
    } ∷ []) ≡ true }
{}

/// SX2 B1+B2 may not store while BX3 X1*X2, issued before it, is still to read X2. A body that looks for the readers of
/// another unit's result stores too early.
#[tactic(auto, unfolding(crate::proofs::Opened::on_one_list))]
pub fn a_result_waits_for_its_earlier_reader()
    ensures { refusal_of (store_conflicts [] (record {
      instr = Logical And 3 1 2;
      at = 0o100;
      number = 1;
      unit = Boolean;
      phase = Before Unread;
    } ∷ []) (Increment TargetX 2 (Registers BPlusB 1 2)) false) ≡ Some (ResultHeld (X 2)) }
{}

/// A load that was accepted is pending until it returns. A body that looks only at the hopper's places says that
/// nothing is pending, and exchanges with the load still to return.
#[tactic(auto, unfolding(crate::specs::Lookup::is_pending))]
pub fn a_load_to_return_is_pending()
    ensures { is_pending (record {
      instr = Increment TargetA 1 (Address BaseB 0 0o10);
      at = 0o100;
      number = 1;
      unit = Increment1;
      phase = After (Accepted 1 7);
    } ∷ []) ≡ true }
{}

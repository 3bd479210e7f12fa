//! Machines for which the definitions exclude a wrong body. These functions do nothing at run time: each contract says
//! what a definition gives for such a machine, and a body that gives anything else doesn't meet the definition.
ghost use Rattle.std.specs.Prelude.{◌≡◌, ◌≢◌, [], ◌∷◌, Some, None};
ghost use Rattle.instructions.specs.declared.instr.Unit.TheVariants.{Boolean};
ghost use Rattle.unit_ops.specs.declared.UnitValue.TheVariants.{Word};
ghost use Rattle.relocation.specs.Saved.{original};
ghost use Rattle.in_flight.specs.declared.pending.Stage.TheVariants.{Read as HasRead, Finished as HasFinished};
ghost use Rattle.program_order.specs.declared.event.Done.TheVariants.{Word as DoneWord};
ghost use Rattle.program_order.specs.declared.event.Event.TheVariants.{Finish, PpRead};
ghost use Rattle.program_order.specs.Events.{after};
ghost use Rattle.program_order.specs.Processor.{Processor as SomeProcessor};
ghost use Rattle.program_order.specs.Run.{done_by};
ghost use Rattle.machine.specs.Instances.{copy_at, operands_of, token_with};
ghost use Rattle.machine.specs.Tokens.{Seating as SomeSeat, reading_in, slot};

/// BX1 X2 read X2 when it was 5, so it finishes with 5, whatever X2 is by then. A body that reads an operand again at
/// the finish gives another value if X2 has changed.
pub fn a_value_is_of_the_operands_read()
    ensures { (w : SomeProcessor) → w.pending ≡ copy_at (HasRead (operands_of 5)) ∷ []
        → (after w (Finish Boolean)).pending ≡ copy_at (HasFinished (Word 5)) ∷ [] }
{}

/// BX1 X2 read X2 when it was 5, so a token whose value was computed from 7 is a stranger's. A body that doesn't
/// compare the operands finishes with an older value.
pub fn a_token_is_of_its_operands()
    ensures { (w : SomeProcessor) → (seat : SomeSeat) → w.pending ≡ copy_at (HasRead (operands_of 5)) ∷ []
        → reading_in seat (slot w Boolean) ≢ Some (token_with seat 1 (operands_of 7)) }
{}

/// Reservation 1 is in the unit, so a token of reservation 2 is a stranger's. A body that doesn't compare the numbers
/// finishes another reservation.
pub fn a_token_is_of_its_number()
    ensures { (w : SomeProcessor) → (seat : SomeSeat) → w.pending ≡ copy_at (HasRead (operands_of 5)) ∷ []
        → reading_in seat (slot w Boolean) ≢ Some (token_with seat 2 (operands_of 5)) }
{}

/// Memory was booted with 3 in word 0, and has 5 there now, so a peripheral processor reads 5. A body that answers with
/// the boot memory's word reads 3.
pub fn a_word_is_read_from_memory()
    ensures { (w : SomeProcessor) → w.boot_memory ≡ 3 ∷ [] → w.state.memory ≡ 5 ∷ []
        → done_by w (PpRead 0) ≡ DoneWord 5 }
{}

/// Word 0 is 3, and 5 is written to it. A body that saves the word after the write saves 5, and the memory as it was
/// before is lost.
pub fn a_word_is_saved_before_its_write()
    ensures { original (Some 5 ∷ []) (5 ∷ []) ≢ original (None ∷ []) (3 ∷ []) }
{}

//! Boards for which the definitions exclude a wrong body. These functions do nothing at run time: each contract says
//! what a definition gives for one board, and a body that gives anything else doesn't meet the definition.
ghost use Rattle.std.specs.Prelude.{◌≡◌, [], ◌∷◌, Some, Ok, Err};
ghost use Rattle.instructions.specs.declared.instr.Instr.TheVariants.{Copy, ShiftBy};
ghost use Rattle.instructions.specs.declared.instr.Direction.TheVariants.{Left};
ghost use Rattle.instructions.specs.declared.instr.Reg.TheVariants.{X};
ghost use Rattle.instructions.specs.declared.instr.Unit.TheVariants.{Boolean, Shift};
ghost use Rattle.instructions.specs.declared.refusal.Refusal.TheVariants.{ResultReserved};
ghost use Rattle.instructions.specs.Finding.{seek};
ghost use Rattle.scoreboard.specs.Answers.{held_in, new_issued, read_answer, reserve_answer};

/// First order: while BX1 X2 is still to write X1, LX1 3 is refused, although its unit is free. A body that issues over
/// a reserved result answers with the unit and the number 2.
#[tactic(auto, unfolding(crate::proofs::Opened::on_one_board))]
pub fn a_reserved_result_is_refused()
    ensures { reserve_answer (record { issued = new_issued (Copy 1 2) Boolean 1 ∷ []; last = 1 }) (ShiftBy Left 1 3)
        (Some Shift) ≡ Err (ResultReserved (X 1)) }
{}

/// Second order: LX1 3 reads X1 and writes it, and if nothing else is issued it may read. A body that finds the
/// producers after it has reserved the result waits for the instruction itself, and answers that X1 is awaited.
#[tactic(auto, unfolding(crate::proofs::Opened::on_one_board))]
pub fn an_instruction_does_not_wait_for_itself()
    ensures { read_answer (seek (held_in Shift) (new_issued (ShiftBy Left 1 3) Shift 1 ∷ [])) ≡ Ok tt }
{}

//! The refusal of a unit's finish.

ghost use Rattle.std.specs.Prelude.{◌≡◌, IfOk, Some};
ghost use Rattle.in_flight.specs.declared.pending.Stage.TheVariants.{Read as HasRead};
ghost use Rattle.in_flight.specs.Lookup.{located, stage_at};
ghost use Rattle.in_flight.specs.Tests.{refusal_in, refusal_of, tests_found};
ghost use Rattle.instructions.specs.Finding.{seek};
ghost use Rattle.program_order.specs.Units.{finish_tests};

use in_flight::{InFlight, Located, Pending, Stage};
use instructions::{Refusal, Unit};
use unit_ops::Operands;

/// Judges whether the unit may finish. If so, returns its instruction and its operands.
///
/// # Errors
/// `Nothing` if no instruction in the unit has read its operands and is still to finish.
#[tactic(auto, unfolding(crate::proofs::Opened::unit_tests))]
pub(crate) fn judge_finish(in_flight: &InFlight, unit: Unit) -> Result<(Pending, Operands), Refusal>
    ensures answer { refusal_of (tests_found (seek (stage_at unit) in_flight.now.pending) (λ f. finish_tests f.answer))
        ≡ refusal_in result }
    ensures found { IfOk result (λ r. located (seek (stage_at unit) in_flight.now.pending)
        ≡ Some (record { pending = r.0; answer = HasRead r.1 })) }
{
    let Some(Located { pending, answer }) = in_flight.find(unit) else {
        return Err(Refusal::Nothing);
    };
    let Stage::Read(operands) = answer else {
        return Err(Refusal::Nothing);
    };
    Ok((pending, operands))
}

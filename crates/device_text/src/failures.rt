//! The refusals of a failed read and of a failed write.

use crate::input::ReadFailed;
use crate::output::WriteFailed;
use instructions::Refusal;

impl From<ReadFailed> for Refusal {
    ghost use Rattle.std.specs.Prelude.{◌≡◌};
    ghost use Rattle.instructions.specs.declared.refusal.Refusal.TheVariants.{Read};

    ghost from_gives = { λ failed refusal. refusal ≡ Read };

    fn from(_failed: ReadFailed) -> Refusal {
        Refusal::Read
    }
}

impl From<WriteFailed> for Refusal {
    ghost use Rattle.std.specs.Prelude.{◌≡◌};
    ghost use Rattle.instructions.specs.declared.refusal.Refusal.TheVariants.{Write};

    ghost from_gives = { λ failed refusal. refusal ≡ Write };

    fn from(_failed: WriteFailed) -> Refusal {
        Refusal::Write
    }
}

ghost use Rattle.std.specs.Prelude.{◌≡◌, map};
ghost use Rattle.scoreboard.specs.Writers.{is_expected, forget};

use instructions::{Digit, Unit};

/// The writer of a register that is a result still to come (Thornton's result designators; that a load channel can be a
/// writer is this project's choice).
#[derive(Clone, Copy, Debug, Drop, PartialEq, Eq)]
pub enum Writer {
    /// A unit, at its store event.
    OfUnit(Unit),
    /// The load channel of this number, when its load returns.
    OfChannel(Digit),
}

/// Removes a writer that has written from the expected writers.
#[tactic(auto, unfolding(crate::proofs::Opened::expecting))]
pub(crate) fn forget_in(expected: &mut [Option<Writer>], writer: &Writer)
    ensures { expected.new ≡ map (forget writer.now) expected.old }
{
    let is_expected = |found: &Option<Writer>|
        ensures { result ≡ is_expected writer.entry.now found.now }
    { found.is_some_and(|other| other == *writer) };
    for index in 0..expected.len() {
        if is_expected(&expected[index]) {
            expected[index] = None;
        }
    }
}

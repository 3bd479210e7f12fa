//! The rule of the progress word: each pass knows a beginning of one log, and the word holds that log's length. There
//! are two kinds of step. The machine's pass adds one to the word, for a caller whose pass it took in. Any pass loads
//! the word, and has then seen the log.

use atomic_table::{Join, Play, Seat, Split, Table, TableRule};
use std::alloc::Global;
use std::marker::{Brand, Model, PhantomData};

/// Names a progress word. As a type parameter it makes the types of the lock and of its callers name the same word. The
/// function that makes the word picks the name for the functions that it calls.
pub trait Naming {
    ghost use Rattle.atomic_table.specs.Seated.{TableId};

    ghost table: { TableId };
}

impl Naming for Brand {
    ghost use Rattle.machine_lock.specs.inner.Rules.{no_table};

    ghost table = { no_table };
}

/// The knowledge of a pass. No value of this type is made: it is the model of the passes' views.
pub struct PassView {
    nothing: (),
}

impl Model for PassView {
    ghost use Rattle.machine_lock.specs.inner.Rules.{Knowing, spent};

    ghost Value = { Knowing };

    ghost view = { λ v. spent };
}

/// The invariant of the word and of everything that the passes know, between any two steps.
pub struct Law;

impl TableRule<u8, PassView, ()> for Law {
    ghost use Rattle.machine_lock.specs.inner.Rules.{IsCounted, fresh};

    ghost holds = { λ key s. IsCounted s };

    ghost first = { λ key. fresh };
}

/// Names the step that is added to the log.
pub trait Chosen {
    ghost use Rattle.sequential.specs.Replay.{LogStep};

    ghost step: { LogStep };
}

impl Chosen for Brand {
    ghost use Rattle.sequential.specs.Replay.{Issued};

    ghost step = { Issued };
}

/// An add of one, for a step of the log.
pub(crate) struct Adds<J: Chosen>(PhantomData<J>);

impl<J: Chosen> Play<u8, PassView> for Adds<J> {
    ghost use Rattle.std.specs.Prelude.{◌≡◌};
    ghost use Rattle.machine_lock.specs.inner.Rules.{Added};

    ghost then = { λ s v n w. (w.1 ≡ v.1) × Added J.step v.0 w.0 };
}

/// Names the boot memory and the budget of the machine whose log begins.
pub(crate) trait Begun {
    ghost use Rattle.machine_lock.specs.CallerKnowledge.{Booted};

    ghost booted: { Booted };
}

impl Begun for Brand {
    ghost use Rattle.std.specs.Prelude.{[]};
    ghost use Rattle.machine_lock.specs.CallerKnowledge.{booted_with};

    ghost booted = { booted_with [] 0 };
}

/// The load that begins a log.
pub(crate) struct Begins<J: Begun>(PhantomData<J>);

impl<J: Begun> Play<u8, PassView> for Begins<J> {
    ghost use Rattle.std.specs.Prelude.{◌≡◌, []};
    ghost use Rattle.machine_lock.specs.inner.Rules.{history, keeper};

    ghost then = { λ s v n w. (w.1 ≡ v.1) × (w.0 ≡ keeper (history J.booted [])) };
}

/// A load, with which a pass sees the log so far.
pub(crate) struct Looks;

impl Play<u8, PassView> for Looks {
    ghost use Rattle.std.specs.Prelude.{◌≡◌};
    ghost use Rattle.machine_lock.specs.inner.Rules.{Looked};

    ghost then = { λ s v n w. (w.1 ≡ v.1) × Looked v.0 w.0 };
}

/// Moves all that a pass knows to a new pass.
pub(crate) struct HandsOver;

impl Split<PassView> for HandsOver {
    ghost use Rattle.machine_lock.specs.inner.Rules.{spent};

    ghost left = { λ v. spent };

    ghost right = { λ v. v };
}

/// Splits off the pass that was taken in, which then knows all that this pass has seen.
pub(crate) struct HandsBack;

impl Split<PassView> for HandsBack {
    ghost use Rattle.machine_lock.specs.inner.Rules.{kept_back, handed_back};

    ghost left = { λ v. kept_back v };

    ghost right = { λ v. handed_back v };
}

/// A new pass that knows the same steps, none of them its own.
pub(crate) struct Shares;

impl Split<PassView> for Shares {
    ghost use Rattle.machine_lock.specs.inner.Rules.{shared_out};

    ghost left = { λ v. v };

    ghost right = { λ v. shared_out v };
}

/// Takes another pass into this one.
pub(crate) struct TakesIn;

impl Join<PassView> for TakesIn {
    ghost use Rattle.machine_lock.specs.inner.Rules.{with_told, spent};

    ghost both = { λ v w. with_told v w };

    ghost spent = { spent };
}

/// The progress word, with the passes of all users who know its log.
pub type ProgressTable = Table<u8, PassView, (), Law, Global>;

/// One user's knowledge of the log: the machine's, or a caller's.
pub type Pass = Seat<u8, PassView>;

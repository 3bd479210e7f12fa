ghost use Rattle.std.specs.Prelude.{◌≡◌, ◌<◌, ◌++◌, ◌∷◌, [], length, MatchResult};
ghost use Rattle.instructions.specs.declared.refusal.Refusal.TheVariants.{OutOfMemory};

use instructions::Refusal;
use std::alloc::Global;
use std::marker::Model;

/// The number of lines of one kind for which a list has room: `show` lines or `ask` lines.
pub const LINES_OF_A_KIND: usize = 64;

/// The values of the lines of one kind, in the order of the lines. The list has room for all of them from the
/// beginning.
#[derive(Drop)]
pub struct LineList<T> {
    values: Vec<T>,
}

impl<T> Model for LineList<T> {
    ghost use Rattle.std.specs.Prelude.{List, ◌≤◌};
    ghost use Rattle.std.specs.Vec.{vec_capacity};

    ghost Value = { List T };

    ghost view = { λ list. list.values.items };

    ghost invariant = { λ list. 64 ≤ vec_capacity list.values };
}

impl<T: Drop> LineList<T> {
    /// Creates an empty list.
    ///
    /// # Errors
    /// `OutOfMemory` if memory runs out.
    pub(crate) fn new(alloc: Global) -> Result<Self, Refusal>
        ensures { MatchResult result (λ list. list ≡ []) (λ refusal. refusal ≡ OutOfMemory) }
    {
        match Vec::with_capacity(alloc, LINES_OF_A_KIND) {
            Ok(values) => Ok(LineList { values }),
            Err(_) => Err(Refusal::OutOfMemory),
        }
    }

    /// The number of values.
    pub(crate) fn len(&self) -> usize
        ensures { result ≡ length self.now }
    {
        self.values.len()
    }

    /// Adds a value at the end.
    pub(crate) fn push(&mut self, value: T)
        requires { length self.old < 64 }
        ensures { self.new ≡ self.old ++ value ∷ [] }
    {
        self.values.push_reserved(value);
    }

    /// All values, in the order of the lines.
    pub fn as_slice(&self) -> &[T]
        ensures { result.now ≡ self.now }
    {
        self.values.as_slice()
    }
}

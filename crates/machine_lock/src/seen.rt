ghost use Rattle.std.specs.Prelude.{◌≡◌, [], MatchResult};
ghost use Rattle.instructions.specs.declared.refusal.Refusal.TheVariants.{OutOfMemory};
ghost use Rattle.machine_lock.specs.CallerKnowledge.{known};

use crate::rule::{Naming, Pass};
use crate::word::Word;
use instructions::Refusal;
use std::alloc::Global;
use std::marker::Model;
use std::sync::Arc;

/// A caller's knowledge of the machine under the lock: its boot memory and budget, the steps of the log from boot on,
/// as far as the caller has seen it, and which of these steps the caller made.
#[derive(Drop)]
pub struct Seen<K: Naming> {
    pub pass: Pass,
    pub word: Arc<Word<K>, Global>,
}

impl<K: Naming> Model for Seen<K> {
    ghost use Rattle.machine_lock.specs.CallerKnowledge.{Known, known};
    ghost use Rattle.machine_lock.specs.inner.Rules.{IsCaller};

    ghost Value = { Known };

    ghost view = { λ s. known s.pass.me.0.seen.booted s.pass.me.0.seen.log s.pass.me.0.mine };

    ghost invariant = { λ s. IsCaller K.table s.pass.me.0.seen s.pass.me.0.mine s.pass };
}

impl<K: Naming> Seen<K> {
    /// A second `Seen`, which has seen the same steps and made none of them. This call never blocks.
    ///
    /// # Errors
    /// `OutOfMemory` if memory runs out.
    pub fn split(&mut self) -> Result<Seen<K>, Refusal>
        ensures same { self.new ≡ self.old }
        ensures other { MatchResult result (λ other. other ≡ known self.old.booted self.old.log [])
            (λ refusal. refusal ≡ OutOfMemory) }
    {
        let Ok(word) = Arc::try_clone(&self.word) else {
            return Err(Refusal::OutOfMemory);
        };
        Ok(Seen {
            pass: self.word.again(&mut self.pass),
            word,
        })
    }
}

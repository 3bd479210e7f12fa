//! The progress word, with the moves that its rule allows.
ghost use Rattle.std.specs.Prelude.{◌≡◌, ◌++◌, ◌∷◌, [], true, length, replicate};
ghost use Rattle.sequential.specs.Log.{steps_of};
ghost use Rattle.sequential.specs.Replay.{Issued};
ghost use Rattle.machine_lock.specs.CallerKnowledge.{AreApart};
ghost use Rattle.machine_lock.specs.inner.Rules.{history, past, fresh, Continues, kept_back};
ghost use Rattle.machine_lock.specs.inner.Rules.{handed_back, Looked, IsKeeper, IsCaller};

use crate::rule::{
    Adds, Begins, Begun, Chosen, HandsBack, HandsOver, Looks, Naming, Pass, ProgressTable, Shares,
    TakesIn,
};
use machine::Machine;
use sequential::Entry;
use std::marker::{Brand, PhantomData};

/// The progress word that K names.
#[derive(Drop)]
pub struct Word<K: Naming> {
    table: ProgressTable,
    of: PhantomData<K>,
    ghost named: { table.shared.table_id ≡ K.table },
    ghost one: { table.shared.table_id.words ≡ 1 },
}

impl<K: Naming> Word<K> {
    pub fn of(table: ProgressTable) -> Word<K>
        requires named { table.shared.table_id ≡ K.table }
        requires one { table.shared.table_id.words ≡ 1 }
    {
        Word {
            table,
            of: PhantomData,
        }
    }

    // ---- moves of one step ----

    /// Begins the log of a machine, by a load with the first pass. From then on the word belongs to this machine.
    fn begin<J: Begun>(&self, pass: &mut Pass, machine: &Machine)
        requires pass { (pass.old.table_id ≡ K.table) × (pass.old.me ≡ (fresh, [])) }
        ensures { IsKeeper K.table (history J.booted []) pass.new }
    {
        // Not used at run time: the ghost choice of `J` at the call may mention it.
        let _ = machine;
        self.table.shared.load::<Begins<J>>(pass, 0);
    }

    /// Loads the word, so that the pass sees the log so far.
    fn look(&self, pass: &mut Pass)
        requires pass { (pass.old.table_id ≡ K.table) × (pass.old.me.1 ≡ []) × (pass.old.me.0.knows ≡ true) }
        ensures pass { (pass.new.table_id ≡ K.table) × (pass.new.me.1 ≡ []) }
        ensures looked { Looked pass.old.me.0 pass.new.me.0 }
    {
        self.table.shared.load::<Looks>(pass, 0);
    }

    // ---- moves of no step ----

    /// A new pass that knows the same steps, none of them its own.
    pub fn again(&self, pass: &mut Pass) -> Pass
        requires pass { (pass.old.table_id ≡ K.table) × (pass.old.me.1 ≡ []) × (pass.old.me.0.knows ≡ true) }
        ensures pass { (pass.new.table_id ≡ K.table) × (pass.new.me ≡ pass.old.me) }
        ensures new { IsCaller K.table pass.old.me.0.seen [] result }
    {
        self.table.shared.split_seat::<Shares>(pass)
    }

    // ---- the machine and its callers ----

    /// Adds a step that a caller made to the knowledge of the machine's pass. The caller then knows the whole log, and
    /// the step is the caller's own. The step is chosen at the call, as a ghost that may mention `from`.
    pub fn record<J: Chosen, T>(&self, pass: &mut Pass, me: &mut Pass, from: &T)
        requires pass { IsKeeper K.table pass.old.me.0.seen pass.old }
        requires me { IsCaller K.table me.old.me.0.seen me.old.me.0.mine me.old }
        ensures pass { IsKeeper K.table
            (history pass.old.me.0.seen.booted (pass.old.me.0.seen.log ++ J.step ∷ [])) pass.new }
        ensures me { IsCaller K.table
            (history pass.old.me.0.seen.booted (pass.old.me.0.seen.log ++ J.step ∷ []))
            (me.old.me.0.mine ++ length pass.old.me.0.seen.log ∷ []) me.new }
        ensures begins { Continues pass.old.me.0.seen me.old.me.0.seen }
    {
        let _ = from;
        let given = self.table.shared.split_seat::<HandsOver>(me);
        self.table.shared.join_seat::<TakesIn>(pass, given);
        self.table.shared.fetch_add::<Adds<J>>(pass, 0, 1);
        *me = self.table.shared.split_seat::<HandsBack>(pass);
    }

    /// Shows the caller all that the machine's pass knows.
    pub fn compare(&self, pass: &mut Pass, me: &mut Pass)
        requires pass { IsKeeper K.table pass.old.me.0.seen pass.old }
        requires me { IsCaller K.table me.old.me.0.seen me.old.me.0.mine me.old }
        ensures pass { (pass.new.table_id ≡ K.table) × (pass.new.me ≡ pass.old.me) }
        ensures me { IsCaller K.table pass.old.me.0.seen me.old.me.0.mine me.new }
        ensures begins { Continues pass.old.me.0.seen me.old.me.0.seen }
    {
        let given = self.table.shared.split_seat::<HandsOver>(me);
        self.table.shared.join_seat::<TakesIn>(pass, given);
        self.look(pass);
        *me = self.table.shared.split_seat::<HandsBack>(pass);
    }

    /// Shares what two callers know: both then know all steps so far. No step belongs to both.
    pub fn meet(&self, one: &mut Pass, other: &mut Pass)
        requires one { IsCaller K.table one.old.me.0.seen one.old.me.0.mine one.old }
        requires other { IsCaller K.table other.old.me.0.seen other.old.me.0.mine other.old }
        ensures one { IsCaller K.table one.new.me.0.seen one.old.me.0.mine one.new }
        ensures other { IsCaller K.table one.new.me.0.seen other.old.me.0.mine other.new }
        ensures begins { Continues one.new.me.0.seen one.old.me.0.seen
            × Continues one.new.me.0.seen other.old.me.0.seen }
        ensures apart { AreApart one.old.me.0.mine other.old.me.0.mine }
    {
        let given = self.table.shared.split_seat::<HandsOver>(other);
        self.table.shared.join_seat::<TakesIn>(one, given);
        self.look(one);
        *other = self.table.shared.split_seat::<HandsBack>(one);
    }

    // ---- the start ----

    /// Records `count` issues.
    fn record_issues(&self, pass: &mut Pass, me: &mut Pass, count: u64)
        requires pass { IsKeeper K.table pass.old.me.0.seen pass.old }
        requires me { IsCaller K.table me.old.me.0.seen me.old.me.0.mine me.old }
        ensures pass { IsKeeper K.table
            (history pass.old.me.0.seen.booted (pass.old.me.0.seen.log ++ replicate count Issued)) pass.new }
        ensures me { IsCaller K.table me.new.me.0.seen me.new.me.0.mine me.new }
    {
        for _ in 0..count {
            self.record::<Brand, ()>(pass, me, &());
        }
    }

    /// Records the steps of an entry.
    fn record_entry(&self, pass: &mut Pass, me: &mut Pass, entry: &Entry)
        requires pass { IsKeeper K.table pass.old.me.0.seen pass.old }
        requires me { IsCaller K.table me.old.me.0.seen me.old.me.0.mine me.old }
        ensures pass { IsKeeper K.table
            (history pass.old.me.0.seen.booted (pass.old.me.0.seen.log ++ steps_of (entry.now ∷ []))) pass.new }
        ensures me { IsCaller K.table me.new.me.0.seen me.new.me.0.mine me.new }
    {
        match entry {
            Entry::Issued(count) => self.record_issues(pass, me, *count),
            Entry::Exchange(_) => self.record::<Brand, Entry>(pass, me, entry),
            Entry::PpRead(_) => self.record::<Brand, Entry>(pass, me, entry),
            Entry::PpWrite(_, _) => self.record::<Brand, Entry>(pass, me, entry),
        }
    }

    /// Records what a machine was booted with and all steps of its log in the first pass. No caller owns these steps.
    pub fn start(&self, pass: &mut Pass, machine: &Machine)
        requires pass { (pass.old.table_id ≡ K.table) × (pass.old.me ≡ (fresh, [])) }
        ensures { IsKeeper K.table (past machine.now) pass.new }
    {
        self.begin::<Brand>(pass, machine);
        let mut nobody = self.again(pass);
        for entry in machine.log().entries() {
            self.record_entry(pass, &mut nobody, entry);
        }
    }
}

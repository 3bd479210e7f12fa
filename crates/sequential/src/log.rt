ghost use Rattle.std.specs.Prelude.{◌≡◌, ◌<◌, ◌≤◌, ◌+◌, ◌++◌, ◌^◌, [], ◌∷◌, true, false, MatchResult, if◌then◌else◌};
ghost use Rattle.std.specs.Prelude.{◌-◌, ◌||◌, min, nat_lt, replicate};
ghost use Rattle.instructions.specs.declared.refusal.Refusal.TheVariants.{OutOfMemory};
ghost use Rattle.sequential.specs.Log.{issued, last_run, steps_of, entries_of, ends_issuing};
ghost use Rattle.sequential.specs.Replay.{Issued, Exchanged, ReadAt, Wrote};

use instructions::Refusal;
use std::alloc::Global;
use std::marker::Model;
use word60::Word60;

/// An entry of the log.
#[derive(Clone, Copy, Debug, Drop, PartialEq, Eq)]
pub enum Entry {
    /// An exchange with the package at this absolute address.
    Exchange(u32),
    /// This many consecutive instructions.
    Issued(u64),
    /// A peripheral processor read the word at this absolute address.
    PpRead(u32),
    /// A peripheral processor wrote this word to this absolute address.
    PpWrite(u32, Word60),
}

/// The steps that a machine made, in order: instructions, exchanges and peripheral accesses.
#[derive(Drop)]
pub struct Log {
    entries: Vec<Entry>,
    /// The number of instructions, or the largest `u64` if there are more.
    issues: u64,
}

impl Model for Log {
    ghost use Rattle.std.specs.Prelude.{◌≡◌, ◌≤◌, ◌-◌, ◌^◌, min};
    ghost use Rattle.std.specs.Vec.{vec_len, vec_capacity};
    ghost use Rattle.sequential.specs.Log.{Logged, steps_of, entries_of, issued, last_run};

    ghost Value = { Logged };

    ghost view = { λ l. record {
      steps = steps_of l.entries.items;
      room = vec_capacity l.entries - vec_len l.entries;
    } };

    ghost invariant = { λ l. record {
      count : l.issues ≡ min (issued (steps_of l.entries.items)) (2 ^ 64 - 1);
      run : last_run (steps_of l.entries.items) ≤ l.issues;
      shortest : l.entries.items ≡ entries_of (steps_of l.entries.items);
    } };
}

impl Log {
    /// An empty log.
    #[tactic(auto, unfolding(crate::proofs::Opened::no_entries))]
    pub fn new(alloc: Global) -> Log
        ensures steps { result.steps ≡ [] }
    {
        Log {
            entries: Vec::new(alloc),
            issues: 0,
        }
    }

    /// Copies the log.
    ///
    /// # Errors
    /// `OutOfMemory` if memory runs out.
    pub fn copy(&self) -> Result<Log, Refusal>
        ensures { MatchResult result (λ log. log.steps ≡ self.now.steps) (λ refusal. refusal ≡ OutOfMemory) }
    {
        match self.entries.clone() {
            Ok(entries) => Ok(Log {
                entries,
                issues: self.issues,
            }),
            Err(_) => Err(Refusal::OutOfMemory),
        }
    }

    /// The entries, in order. No count is 0, and no two counts are adjacent.
    pub fn entries(&self) -> &[Entry]
        ensures steps { steps_of result.now ≡ self.now.steps }
        ensures shortest { result.now ≡ entries_of self.now.steps }
    {
        self.entries.as_slice()
    }

    /// The number of instructions, or the largest `u64` if there are more.
    pub fn issues(&self) -> u64
        ensures total { result ≡ min (issued self.now.steps) (2 ^ 64 - 1) }
        ensures run { last_run self.now.steps ≤ result }
    {
        self.issues
    }

    /// Makes room for `more` further entries. The steps don't change, even if memory runs out.
    ///
    /// # Errors
    /// `OutOfMemory` if memory runs out.
    pub fn reserve(&mut self, more: u32) -> Result<(), Refusal>
        ensures steps { self.new.steps ≡ self.old.steps }
        ensures room { MatchResult result (λ _. more ≤ self.new.room) (λ refusal. refusal ≡ OutOfMemory) }
        ensures kept { self.old.room ≤ self.new.room }
    {
        match self.entries.reserve(more as usize) {
            Ok(()) => Ok(()),
            Err(_) => Err(Refusal::OutOfMemory),
        }
    }

    /// Appends an exchange.
    pub fn exchanged(&mut self, at: u32)
        requires { 0 < self.old.room }
        ensures steps { self.new.steps ≡ self.old.steps ++ Exchanged at ∷ [] }
        ensures room { self.new.room + 1 ≡ self.old.room }
        ensures issuing { ends_issuing self.new.steps ≡ false }
    {
        self.entries.push_reserved(Entry::Exchange(at));
    }

    /// Appends a peripheral processor's read of the word at an absolute address.
    pub fn read_at(&mut self, at: u32)
        requires { 0 < self.old.room }
        ensures steps { self.new.steps ≡ self.old.steps ++ ReadAt at ∷ [] }
        ensures room { self.new.room + 1 ≡ self.old.room }
        ensures issuing { ends_issuing self.new.steps ≡ false }
    {
        self.entries.push_reserved(Entry::PpRead(at));
    }

    /// Appends a peripheral processor's write of a word to an absolute address.
    pub fn wrote(&mut self, at: u32, word: Word60)
        requires { 0 < self.old.room }
        ensures steps { self.new.steps ≡ self.old.steps ++ Wrote at word ∷ [] }
        ensures room { self.new.room + 1 ≡ self.old.room }
        ensures issuing { ends_issuing self.new.steps ≡ false }
    {
        self.entries.push_reserved(Entry::PpWrite(at, word));
    }

    /// Appends an instruction: adds 1 to the last entry if it is a count, and otherwise makes a new entry.
    pub fn issued(&mut self)
        requires room { ends_issuing self.old.steps ≡ false → 0 < self.old.room }
        requires count { last_run self.old.steps + 1 < 2 ^ 64 }
        ensures steps { self.new.steps ≡ self.old.steps ++ Issued ∷ [] }
        ensures room { self.new.room + (if ends_issuing self.old.steps then 0 else 1) ≡ self.old.room }
        ensures issuing { ends_issuing self.new.steps ≡ true }
    {
        self.issued_many(1);
    }

    /// Appends `count` instructions: adds them to the last entry if it is a count, and otherwise makes a new entry. A
    /// count of 0 needs no room.
    #[tactic(auto, using(crate::proofs::Entries::count_last, crate::proofs::Entries::raised_steps, crate::proofs::Entries::raised_open, crate::proofs::Entries::open_at_count, crate::proofs::Entries::raised_after, crate::proofs::Entries::closed_at_last, crate::proofs::Entries::none_last, crate::proofs::Entries::count_added, crate::proofs::Entries::opened_by_count, crate::proofs::Entries::added_after, crate::proofs::Entries::issuing_many))]
    pub fn issued_many(&mut self, count: u64)
        requires room { ends_issuing self.old.steps ≡ false → 0 < count → 0 < self.old.room }
        requires count { last_run self.old.steps + count < 2 ^ 64 }
        ensures steps { self.new.steps ≡ self.old.steps ++ replicate count Issued }
        ensures room { self.new.room + (if ends_issuing self.old.steps then 0 else min count 1) ≡ self.old.room }
        ensures issuing { ends_issuing self.new.steps ≡ (nat_lt 0 count || ends_issuing self.old.steps) }
    {
        if count == 0 {
            return;
        }
        self.issues = self.issues.saturating_add(count);
        if let Some(last) = self.entries.last() {
            if let Entry::Issued(before) = *last {
                let position = self.entries.len() - 1;
                self.entries[position] = Entry::Issued(before + count);
                return;
            }
        }
        self.entries.push_reserved(Entry::Issued(count));
    }
}

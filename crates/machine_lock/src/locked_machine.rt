//! The machine with its lock held.
ghost use Rattle.std.specs.Prelude.{◌≡◌, ◌≢◌, ◌<◌, ◌≤◌, ◌||◌, ◌⊎◌, ℕ, true, false, None, Some, not, Err, IfErr, IfOk};
ghost use Rattle.std.specs.Prelude.{MatchResult, if◌then◌else◌};
ghost use Rattle.instructions.specs.declared.refusal.Refusal.TheVariants.{Nothing, NotDrained, OutOfMemory, Stranger};
ghost use Rattle.sequential.specs.Log.{issued};
ghost use Rattle.sequential.specs.Replay.{Issued, Exchanged, ReadAt, Wrote, boot, replay};
ghost use Rattle.in_flight.specs.Lookup.{is_pending};
ghost use Rattle.program_order.specs.declared.event.Done.TheVariants.{Issued as DoneIssue, Word as DoneWord};
ghost use Rattle.program_order.specs.declared.event.Event.TheVariants.{Issue, Read, Finish, Store, Accept, Return};
ghost use Rattle.program_order.specs.declared.event.Event.TheVariants.{BankFree, Ask, Exchange, PpRead, PpWrite};
ghost use Rattle.program_order.specs.Events.{after, allowed};
ghost use Rattle.program_order.specs.Headline.{IsFaultedRun};
ghost use Rattle.program_order.specs.Refusals.{is_stranger, is_read_refusal, is_store_refusal, is_ask_refusal};
ghost use Rattle.program_order.specs.Refusals.{is_exchange_refusal};
ghost use Rattle.program_order.specs.Run.{IsAnswer, settled};
ghost use Rattle.machine.specs.Tokens.{can_claim, finished_in, one_more, read_of, reading_in, refusal_to, refused};
ghost use Rattle.machine.specs.Tokens.{slot, unread_in};
ghost use Rattle.machine_lock.specs.CallerKnowledge.{IsMade, Learnt, HasReplay, IsNoteOf, IsWhyOf, IsWordOf};
ghost use Rattle.machine_lock.specs.Held.{IsAskedNext, IsCurrent, IsHeldEvent, made_or_refused, answered, with_processor};
ghost use Rattle.program_order.specs.Invariant.{IsReplay, IsWithinBudget};
ghost use Rattle.machine_lock.specs.inner.LockInvariant.{IsLogged, last_step};
ghost use Rattle.machine_lock.specs.inner.Rules.{IsKeeper, past};

use crate::rule::{Naming, Pass};
use crate::seen::Seen;
use crate::word::Word;
use instructions::Refusal;
use machine::{Computed, Finished, Loaded, Machine, Reserved, Seat};
use program_order::{Answer, Done, Note, Snapshot};
use signals::Wakeups;
use std::alloc::Global;
use std::marker::{Brand, Model};
use std::sync::{Arc, MutexGuard};
use word60::Word60;

/// The machine that the lock protects, the pass that knows its log, and whether the machine's users were told to end.
/// The holder of the lock can make several events with none of another thread between them. Each method makes the event
/// of the call of `Shared` with the same name. Besides what that call promises, the method's contract states in full
/// the answer and the machine afterwards. `Shared::release` releases the lock and then wakes the threads that wait for
/// these events.
///
/// Whenever the lock is acquired, the effects made so far, together with those still to come, are the replay of the
/// machine's log on its boot memory. Each method preserves this, by `Machine::keeps_replay`. The pass's list is the
/// log: each step is recorded, for the caller who made it, before the lock is released.
#[derive(Drop)]
pub struct LockedMachine<K: Naming> {
    machine: Machine,
    pass: Pass,
    word: Arc<Word<K>, Global>,
    pub(crate) wakeups: Wakeups,
    is_ended: bool,
}

/// The guard of the lock, with the machine that it protects.
pub type MachineGuard<'a, K> = MutexGuard<'a, LockedMachine<K>>;

impl<K: Naming> Model for LockedMachine<K> {
    ghost use Rattle.machine_lock.specs.Held.{Kept};
    ghost use Rattle.machine_lock.specs.inner.LockInvariant.{IsLocked};

    ghost Value = { Kept };

    ghost view = { λ l. record { processor = l.machine; is_ended = l.is_ended } };

    ghost invariant = { λ l. IsLocked K.table l.machine l.pass };
}

/// Brings the caller's knowledge up to date with the machine's log.
fn compare<K: Naming>(word: &Word<K>, pass: &mut Pass, seen: &mut Seen<K>, machine: &Machine)
    requires { IsKeeper K.table (past machine.now) pass.old }
    ensures pass { IsKeeper K.table (past machine.now) pass.new }
    ensures replay { IsReplay machine.now }
    ensures within { IsWithinBudget machine.now }
    ensures current { IsCurrent machine.now seen.new }
    ensures replayed { HasReplay seen.new }
    ensures seen { Learnt seen.old seen.new }
{
    machine.keeps_replay();
    word.compare(pass, &mut seen.pass);
}

/// Records an event that is logged. If the event was made, the log's last step becomes the caller's own. If the event
/// was refused, the caller learns the log.
fn record_or_compare<K: Naming>(
    word: &Word<K>,
    pass: &mut Pass,
    seen: &mut Seen<K>,
    machine: &Machine,
    answer: &Answer,
)
    requires pass { IsKeeper K.table pass.old.me.0.seen pass.old }
    requires logged { IsLogged answer.now pass.old.me.0.seen machine.now }
    ensures pass { IsKeeper K.table (past machine.now) pass.new }
    ensures replay { IsReplay machine.now }
    ensures within { IsWithinBudget machine.now }
    ensures current { IsCurrent machine.now seen.new }
    ensures replayed { HasReplay seen.new }
    ensures seen { MatchResult answer.now (λ done. IsMade (last_step machine.now.log) seen.old seen.new)
        (λ refusal. Learnt seen.old seen.new) }
{
    machine.keeps_replay();
    match answer {
        Ok(_) => word.record::<Brand, Machine>(pass, &mut seen.pass, machine),
        Err(_) => word.compare(pass, &mut seen.pass),
    }
}

impl<K: Naming> LockedMachine<K> {
    /// A machine whose users weren't told to end, with the pass that knows its log and the word that counts its steps.
    pub(crate) fn new(machine: Machine, pass: Pass, word: Arc<Word<K>, Global>) -> LockedMachine<K>
        requires { IsKeeper K.table (past machine) pass }
        ensures { result ≡ record { processor = machine; is_ended = false } }
    {
        machine.keeps_replay();
        LockedMachine {
            machine,
            pass,
            word,
            wakeups: Wakeups::default(),
            is_ended: false,
        }
    }

    /// Makes the release wake the storage worker, because there is a new reference.
    pub fn leave_to_memory(&mut self)
        ensures { self.new ≡ self.old }
    {
        self.wakeups.referred = true;
    }

    /// Issues the next instruction, as `Shared::issue` does.
    ///
    /// # Errors
    /// Any refusal of an issue.
    #[tactic(auto, unfolding(program_order::specs::Refusals::may_refuse, program_order::specs::Run::settled))]
    pub fn issue(&mut self, seen: &mut Seen<K>) -> Result<Option<Note>, Refusal>
        ensures event { IsHeldEvent self.old Issue (answered DoneIssue result) self.new }
        ensures seen { MatchResult result (λ note. IsMade Issued seen.old seen.new × IsNoteOf seen.new note)
            (λ refusal. Learnt seen.old seen.new × IsWhyOf seen.new refusal) }
        ensures current { IsCurrent self.new.processor seen.new }
        ensures replayed { HasReplay seen.new }
    {
        let answer = self.machine.issue();
        record_or_compare(&self.word, &mut self.pass, seen, &self.machine, &answer);
        match answer? {
            Done::Issued(note) => Ok(note),
            Done::Word(_) | Done::Made => Ok(None),
        }
    }

    /// Asks for an exchange with the package at an absolute address, as `Shared::ask` does.
    ///
    /// # Errors
    /// Any refusal of a request.
    #[tactic(auto, unfolding(program_order::specs::Refusals::may_refuse, program_order::specs::Run::settled))]
    pub fn ask(&mut self, seen: &mut Seen<K>, at: u32) -> Result<(), Refusal>
        ensures event { IsHeldEvent self.old (Ask at) (made_or_refused result) self.new }
        ensures seen { Learnt seen.old seen.new }
        ensures current { IsCurrent self.new.processor seen.new }
        ensures replayed { HasReplay seen.new }
    {
        let answer = self.machine.ask(at);
        compare(&self.word, &mut self.pass, seen, &self.machine);
        answer?;
        self.wakeups.asked = true;
        Ok(())
    }

    /// Makes the exchange that was asked for, as `Shared::exchange` does.
    ///
    /// # Errors
    /// Any refusal of an exchange.
    #[tactic(auto, unfolding(program_order::specs::Refusals::may_refuse, program_order::specs::Run::settled))]
    pub fn exchange(&mut self, seen: &mut Seen<K>) -> Result<(), Refusal>
        ensures event { IsHeldEvent self.old Exchange (made_or_refused result) self.new }
        ensures seen { MatchResult result
            (λ _. (n : ℕ) × (self.old.processor.request ≡ Some n) × IsMade (Exchanged n) seen.old seen.new)
            (λ refusal. Learnt seen.old seen.new × IsWhyOf seen.new refusal) }
        ensures current { IsCurrent self.new.processor seen.new }
        ensures replayed { HasReplay seen.new }
    {
        let answer = self.machine.exchange();
        record_or_compare(&self.word, &mut self.pass, seen, &self.machine, &answer);
        answer?;
        self.wakeups.exchanged = true;
        Ok(())
    }

    /// Makes the exchange that was asked for, and then asks for the next one, as `Shared::exchange_and_ask` does.
    /// `next` is the absolute address of its package, if there is one.
    ///
    /// # Errors
    /// Any refusal of an exchange. Within `Ok`, any refusal of a request.
    #[tactic(auto, unfolding(program_order::specs::Refusals::may_refuse, program_order::specs::Run::settled))]
    pub fn exchange_and_ask(
        &mut self,
        seen: &mut Seen<K>,
        next: Option<u32>,
    ) -> Result<Result<(), Refusal>, Refusal>
        ensures answer { IsAnswer self.old.processor Exchange (made_or_refused result) }
        ensures asked { IsAskedNext (settled self.old.processor Exchange (made_or_refused result)) next result
            self.new.processor }
        ensures after { self.new ≡ with_processor self.old self.new.processor }
        ensures seen { MatchResult result
            (λ _. (n : ℕ) × (self.old.processor.request ≡ Some n) × IsMade (Exchanged n) seen.old seen.new)
            (λ refusal. Learnt seen.old seen.new × IsWhyOf seen.new refusal) }
        ensures current { IsCurrent self.new.processor seen.new }
        ensures replayed { HasReplay seen.new }
        ensures named { MatchResult result (λ asked. IfErr asked (λ refusal. is_ask_refusal refusal ≡ true))
            (λ refusal. is_exchange_refusal refusal ≡ true) }
    {
        self.exchange(seen)?;
        match next {
            Some(at) => Ok(self.ask(seen, at)),
            None => Ok(Ok(())),
        }
    }

    /// Reads the word at an absolute address for a peripheral processor, as `Shared::pp_read` does.
    ///
    /// # Errors
    /// Any refusal of a peripheral access.
    #[tactic(auto, unfolding(program_order::specs::Refusals::may_refuse, program_order::specs::Run::settled))]
    pub fn pp_read(&mut self, seen: &mut Seen<K>, at: u32) -> Result<Word60, Refusal>
        ensures event { IsHeldEvent self.old (PpRead at) (answered DoneWord result) self.new }
        ensures seen { MatchResult result (λ word. IsMade (ReadAt at) seen.old seen.new × IsWordOf seen.new at word)
            (λ refusal. Learnt seen.old seen.new) }
        ensures current { IsCurrent self.new.processor seen.new }
        ensures replayed { HasReplay seen.new }
    {
        let answer = self.machine.pp_read(at);
        record_or_compare(&self.word, &mut self.pass, seen, &self.machine, &answer);
        match answer? {
            Done::Word(word) => Ok(word),
            Done::Issued(_) | Done::Made => Ok(Word60::default()),
        }
    }

    /// Writes a word to an absolute address for a peripheral processor, as `Shared::pp_write` does.
    ///
    /// # Errors
    /// Any refusal of a peripheral access.
    #[tactic(auto, unfolding(program_order::specs::Refusals::may_refuse, program_order::specs::Run::settled))]
    pub fn pp_write(&mut self, seen: &mut Seen<K>, at: u32, word: Word60) -> Result<(), Refusal>
        ensures event { IsHeldEvent self.old (PpWrite at word) (made_or_refused result) self.new }
        ensures seen { MatchResult result (λ _. IsMade (Wrote at word) seen.old seen.new)
            (λ refusal. Learnt seen.old seen.new) }
        ensures current { IsCurrent self.new.processor seen.new }
        ensures replayed { HasReplay seen.new }
    {
        let answer = self.machine.pp_write(at, word);
        record_or_compare(&self.word, &mut self.pass, seen, &self.machine, &answer);
        answer?;
        Ok(())
    }

    /// Claims a reservation with the seat of its unit, as `Shared::claim` does.
    ///
    /// # Errors
    /// `Stranger`, with the seat.
    pub fn claim(&mut self, seat: Seat, note: Note) -> Result<Reserved, (Refusal, Seat)>
        ensures answer { refusal_to (can_claim self.old.processor seat note) None ≡ refused result }
        ensures after { self.new ≡ self.old }
        ensures claimed { IfOk result (λ token. token ≡ record { seat = seat; number = note.number }) }
        ensures given_back { IfErr result (λ back. (back.1 ≡ seat) × (back.0 ≡ Stranger)) }
    {
        let claimed = self.machine.claim(seat, note);
        self.machine.keeps_replay();
        claimed
    }

    /// Reads the operands of the token's reservation, as `Shared::read` does.
    ///
    /// # Errors
    /// `OperandAwaited` or `Stranger`, with the token.
    pub fn read(&mut self, token: Reserved) -> Result<Loaded, (Refusal, Reserved)>
        ensures answer { refusal_to (unread_in token.number (slot self.old.processor token.seat.unit))
            (allowed self.old.processor (Read token.seat.unit)) ≡ refused result }
        ensures after { MatchResult result
            (λ loaded. self.new ≡ with_processor self.old (after self.old.processor (Read token.seat.unit)))
            (λ back. self.new ≡ self.old) }
        ensures operands { IfOk result
            (λ loaded. reading_in token.seat (slot self.new.processor token.seat.unit) ≡ Some loaded) }
        ensures loaded { IfOk result (λ loaded. (loaded.seat ≡ token.seat) × (loaded.number ≡ token.number)) }
        ensures given_back { IfErr result
            (λ back. (back.1 ≡ token) × ((is_stranger back.0 || is_read_refusal back.0) ≡ true)) }
    {
        let loaded = self.machine.read(token);
        self.machine.keeps_replay();
        self.wakeups.read = self.wakeups.read || loaded.is_ok();
        loaded
    }

    /// Gives the token's value to the unit, as `Shared::finish` does.
    ///
    /// # Errors
    /// `Stranger`, with the token.
    pub fn finish(&mut self, token: Computed) -> Result<Finished, (Refusal, Computed)>
        ensures answer { MatchResult result
            (λ finished. (reading_in token.seat (slot self.old.processor token.seat.unit) ≡ Some (read_of token))
            × (allowed self.old.processor (Finish token.seat.unit) ≡ None))
            (λ back. reading_in token.seat (slot self.old.processor token.seat.unit) ≢ Some (read_of token)) }
        ensures after { MatchResult result
            (λ finished. self.new ≡ with_processor self.old (after self.old.processor (Finish token.seat.unit)))
            (λ back. self.new ≡ self.old) }
        ensures finished { IfOk result (λ finished. finished ≡ record { seat = token.seat; number = token.number }) }
        ensures given_back { IfErr result (λ back. (back.1 ≡ token) × (back.0 ≡ Stranger)) }
    {
        let finished = self.machine.finish(token);
        self.machine.keeps_replay();
        finished
    }

    /// Stores the result of the token's reservation, as `Shared::store` does.
    ///
    /// # Errors
    /// `ResultHeld`, `HopperFull`, `OutOfTurn` or `Stranger`, with the token.
    pub fn store(&mut self, token: Finished) -> Result<Seat, (Refusal, Finished)>
        ensures answer { refusal_to (finished_in token.number (slot self.old.processor token.seat.unit))
            (allowed self.old.processor (Store token.seat.unit)) ≡ refused result }
        ensures after { MatchResult result
            (λ seat. self.new ≡ with_processor self.old (after self.old.processor (Store token.seat.unit)))
            (λ back. self.new ≡ self.old) }
        ensures seat { IfOk result (λ seat. seat ≡ one_more token) }
        ensures given_back { IfErr result
            (λ back. (back.1 ≡ token) × ((is_stranger back.0 || is_store_refusal back.0) ≡ true)) }
    {
        let stored = self.machine.store(token);
        self.machine.keeps_replay();
        self.wakeups.changed = self.wakeups.changed || stored.is_ok();
        stored
    }

    /// Accepts the reference in a place of the hopper, 0 to 3, as `Shared::accept` does.
    ///
    /// # Errors
    /// `BankBusy` or `OlderAtAddress`. `Nothing` if the place is empty.
    #[tactic(auto, using(crate::proofs::Laws::only_nothing))]
    pub fn accept(&mut self, place: u8) -> Result<(), Refusal>
        ensures event { IsHeldEvent self.old (Accept place) (made_or_refused result) self.new }
        ensures no_place { 3 < place → result ≡ Err Nothing }
    {
        self.machine.keeps_limits();
        let accepted = self.machine.accept(place);
        self.machine.keeps_replay();
        accepted?;
        self.wakeups.changed = true;
        Ok(())
    }

    /// Writes the word of the load in a channel, 1 to 5, to its register, as `Shared::return_load` does.
    ///
    /// # Errors
    /// `ResultHeld`. `Nothing` if the channel is empty.
    #[tactic(auto, using(crate::proofs::Laws::only_nothing))]
    pub fn return_load(&mut self, channel: u8) -> Result<(), Refusal>
        ensures event { IsHeldEvent self.old (Return channel) (made_or_refused result) self.new }
        ensures no_channel { channel ≡ 0 → result ≡ Err Nothing }
        ensures channels { 5 < channel → result ≡ Err Nothing }
    {
        self.machine.keeps_limits();
        let returned = self.machine.return_load(channel);
        self.machine.keeps_replay();
        returned?;
        self.wakeups.changed = true;
        Ok(())
    }

    /// Frees a bank, 0 to 31, as `Shared::bank_free` does.
    ///
    /// # Errors
    /// `Nothing` if the bank isn't busy.
    #[tactic(auto, using(crate::proofs::Laws::only_nothing))]
    pub fn bank_free(&mut self, bank: u8) -> Result<(), Refusal>
        ensures event { IsHeldEvent self.old (BankFree bank) (made_or_refused result) self.new }
        ensures no_bank { 31 < bank → result ≡ Err Nothing }
    {
        self.machine.keeps_limits();
        let freed = self.machine.bank_free(bank);
        self.machine.keeps_replay();
        freed?;
        Ok(())
    }

    /// Returns the state, the log, the boot memory and the budget of the machine, if it is drained, as
    /// `Shared::snapshot` does.
    ///
    /// # Errors
    /// `NotDrained` if an issued instruction has an effect still to come. `OutOfMemory` if memory runs out.
    pub fn snapshot(&mut self, seen: &mut Seen<K>) -> Result<Snapshot, Refusal>
        ensures after { self.new ≡ self.old }
        ensures seen { Learnt seen.old seen.new }
        ensures current { IsCurrent self.new.processor seen.new }
        ensures replayed { HasReplay seen.new }
        ensures fresh { IfOk result
            (λ snapshot. (snapshot.boot_memory ≡ seen.new.booted.memory) × (snapshot.budget ≡ seen.new.booted.budget)
            × (snapshot.log ≡ seen.new.log)) }
        ensures within { IfOk result (λ snapshot. issued snapshot.log ≤ seen.new.booted.budget) }
        ensures replay { IfOk result (λ snapshot. replay (boot snapshot.boot_memory) snapshot.log
            ≡ Some snapshot.state) }
        ensures fault { IfOk result (λ snapshot. snapshot.state.fault ≡ true
            → IsFaultedRun snapshot.log snapshot.boot_memory snapshot.state) }
        ensures taken { MatchResult result (λ _. is_pending self.old.processor.pending ≡ false)
            (λ refusal. refusal ≡ (if is_pending self.old.processor.pending then NotDrained else OutOfMemory)) }
    {
        compare(&self.word, &mut self.pass, seen, &self.machine);
        self.machine.snapshot()
    }

    /// Whether no issued instruction has an effect still to come.
    pub fn drained(&self) -> bool
        ensures { result ≡ not (is_pending self.now.processor.pending) }
    {
        self.machine.drained()
    }

    /// Tells the threads that use the machine to end.
    pub(crate) fn end(&mut self)
        ensures { self.new ≡ record self.old { is_ended = true } }
    {
        self.is_ended = true;
    }

    /// Whether the threads that use the machine were told to end.
    pub(crate) fn ended(&self) -> bool
        ensures { result ≡ self.now.is_ended }
    {
        self.is_ended
    }
}

ghost use Rattle.std.specs.Prelude.{◌≡◌, ◌<◌, ◌≤◌, ◌||◌, ◌⊎◌, ℕ, true, false, [], Some, Err, IfErr, IfOk};
ghost use Rattle.std.specs.Prelude.{MatchResult};
ghost use Rattle.instructions.specs.declared.refusal.Refusal.TheVariants.{Nothing, NotDrained, OutOfMemory, Stranger};
ghost use Rattle.sequential.specs.Log.{issued};
ghost use Rattle.sequential.specs.Replay.{Issued, Exchanged, ReadAt, Wrote, boot, replay};
ghost use Rattle.program_order.specs.Headline.{IsFaultedRun};
ghost use Rattle.program_order.specs.Refusals.{is_stranger, is_nothing, is_issue_refusal, is_read_refusal};
ghost use Rattle.program_order.specs.Refusals.{is_store_refusal, is_accept_refusal, is_return_refusal, is_ask_refusal};
ghost use Rattle.program_order.specs.Refusals.{is_exchange_refusal, is_access_refusal};
ghost use Rattle.machine.specs.Tokens.{new_seats, one_more};
ghost use Rattle.machine_lock.specs.CallerKnowledge.{booted_by, known, IsMade, Learnt, HasReplay, IsNoteOf, IsWhyOf};
ghost use Rattle.machine_lock.specs.CallerKnowledge.{IsWordOf};
ghost use Rattle.machine_lock.specs.CallerKnowledge.{AreApart, NumbersApart};

use crate::locked_machine::{LockedMachine, MachineGuard};
use crate::rule::{Naming, Pass, ProgressTable};
use crate::seen::Seen;
use crate::word::Word;
use instructions::{PerUnit, Refusal};
use machine::{Computed, Finished, Loaded, Machine, Reserved, Seat};
use program_order::{Note, Snapshot};
use signals::Signals;
use std::alloc::Global;
use std::hint::spin_loop;
use std::marker::Model;
use std::mem;
use std::sync::{Arc, Mutex, Wait};
use word60::Word60;

/// How often a thread tries to acquire the lock before it blocks on it. These tries take longer than most holds.
const LOCK_TRIES: u32 = 128;

/// A progress word, which counts the steps of a machine's log, before it belongs to a machine. Contracts can name the
/// word.
#[derive(Drop)]
pub struct Ground {
    table: ProgressTable,
    pass: Pass,
}

impl Model for Ground {
    ghost use Rattle.std.specs.Prelude.{◌≡◌, []};
    ghost use Rattle.atomic_table.specs.Seated.{TableId};
    ghost use Rattle.machine_lock.specs.inner.Rules.{fresh};

    ghost Value = { TableId };

    ghost view = { λ g. g.table.shared.table_id };

    ghost invariant = { λ g. (g.table.shared.table_id.words ≡ 1) × (g.pass.table_id ≡ g.table.shared.table_id)
        × (g.pass.me ≡ (fresh, [])) };
}

impl Ground {
    /// Creates a progress word.
    ///
    /// # Errors
    /// `OutOfMemory` if memory runs out.
    pub fn new(alloc: Global) -> Result<Ground, Refusal>
        ensures { IfErr result (λ refusal. refusal ≡ OutOfMemory) }
    {
        let Ok((table, pass)) = ProgressTable::of_words(alloc, &[0], &()) else {
            return Err(Refusal::OutOfMemory);
        };
        Ok(Ground { table, pass })
    }
}

/// Gives up all seats.
fn leave_all(seats: [Seat; 7]) {
    let _ = PerUnit::from_array(seats).map(|seat| seat.leave());
}

/// A machine that several threads drive, and its progress word. A call that makes an event acquires the lock, calls the
/// method of `LockedMachine` with the same name, and releases the lock.
///
/// No contract here names the machine's state when the lock is acquired, because other threads may have changed it. The
/// methods of `LockedMachine` state in full what an event answers and which machine it leaves. The contracts here speak
/// of what the caller keeps: a token, a snapshot, and the caller's `Seen`.
#[derive(Drop)]
pub struct Shared<K: Naming> {
    word: Arc<Word<K>, Global>,
    locked: Mutex<LockedMachine<K>>,
    signals: Signals,
}

impl<K: Naming> Shared<K> {
    /// Puts a machine under the lock, with the progress word that K names. Returns the machine's seats, one for each
    /// unit in use in the order of the units' numbers, and a `Seen`. That `Seen` knows the boot memory, the budget and
    /// the log so far, and has no steps of its own.
    ///
    /// # Errors
    /// `Nothing` if the machine's seats were given out before. `OutOfMemory` if memory runs out. Either way the machine
    /// is dropped.
    pub fn open(
        alloc: Global,
        ground: Ground,
        machine: Machine,
    ) -> Result<(Shared<K>, [Seat; 7], Seen<K>), Refusal>
        requires { ground ≡ K.table }
        ensures { MatchResult result
            (λ opened. (machine.seats_given ≡ false) × (opened.1 ≡ new_seats)
            × (opened.2 ≡ known (booted_by machine) machine.log []))
            (λ refusal. ((machine.seats_given ≡ true) × (refusal ≡ Nothing))
            ⊎ ((machine.seats_given ≡ false) × (refusal ≡ OutOfMemory))) }
    {
        let mut machine = machine;
        let Some(seats) = machine.seats() else {
            return Err(Refusal::Nothing);
        };
        match Self::beside(alloc, ground, machine) {
            Ok((shared, seen)) => Ok((shared, seats, seen)),
            Err(refusal) => {
                leave_all(seats);
                Err(refusal)
            }
        }
    }

    /// Puts a machine under the lock, with its progress word.
    ///
    /// # Errors
    /// `OutOfMemory` if memory runs out; the machine is dropped.
    fn beside(
        alloc: Global,
        ground: Ground,
        machine: Machine,
    ) -> Result<(Shared<K>, Seen<K>), Refusal>
        requires { ground ≡ K.table }
        ensures { MatchResult result (λ made. made.1 ≡ known (booted_by machine) machine.log [])
            (λ refusal. refusal ≡ OutOfMemory) }
    {
        let Ground { table, mut pass } = ground;
        let word: Arc<Word<K>, Global> = match Arc::new(alloc, Word::of(table)) {
            Ok(word) => word,
            Err(_) => return Err(Refusal::OutOfMemory),
        };
        let (Ok(of_machine), Ok(of_seen)) = (Arc::try_clone(&word), Arc::try_clone(&word)) else {
            return Err(Refusal::OutOfMemory);
        };
        word.start(&mut pass, &machine);
        let seen = Seen {
            pass: word.again(&mut pass),
            word: of_seen,
        };
        let locked = Mutex::new(LockedMachine::new(machine, pass, of_machine));
        let shared = Shared {
            word,
            locked,
            signals: Signals::new(),
        };
        Ok((shared, seen))
    }

    /// Acquires the lock. Until it is released, no other thread makes an event. Most holds are short, so the thread
    /// spins for many tries before it blocks.
    pub fn lock<R: Wait>(&self, rt: &R) -> MachineGuard<'_, K> {
        for _ in 0..LOCK_TRIES {
            if let Some(machine) = self.locked.try_lock() {
                return machine;
            }
            spin_loop();
        }
        self.locked.lock(rt)
    }

    /// Releases the lock, and then wakes the threads that wait for the events that were made. A thread woken earlier
    /// would only block on the lock.
    pub fn release(&self, machine: MachineGuard<'_, K>) {
        let mut held = machine;
        let wakeups = mem::take(&mut held.wakeups);
        drop(held);
        self.signals.wake(&wakeups);
    }

    /// Issues the next instruction: the event `Issue`. Returns the reservation if the instruction has a unit. `seen`
    /// then ends with this issue, as one of the caller's own steps. If the issue is refused, `seen` is brought up to
    /// date with the log.
    ///
    /// # Errors
    /// Any refusal of an issue.
    #[tactic(auto, unfolding(program_order::specs::Refusals::may_refuse))]
    pub fn issue<R: Wait>(&self, rt: &R, seen: &mut Seen<K>) -> Result<Option<Note>, Refusal>
        ensures seen { MatchResult result (λ note. IsMade Issued seen.old seen.new × IsNoteOf seen.new note)
            (λ refusal. Learnt seen.old seen.new × IsWhyOf seen.new refusal) }
        ensures replayed { HasReplay seen.new }
        ensures named { IfErr result (λ refusal. is_issue_refusal refusal ≡ true) }
    {
        let mut machine = self.lock(rt);
        let issued = machine.issue(seen);
        self.release(machine);
        issued
    }

    /// Asks for an exchange with the package at an absolute address: the event `Ask`. `seen` is then up to date with
    /// the log.
    ///
    /// # Errors
    /// Any refusal of a request.
    #[tactic(auto, unfolding(program_order::specs::Refusals::may_refuse))]
    pub fn ask<R: Wait>(&self, rt: &R, seen: &mut Seen<K>, at: u32) -> Result<(), Refusal>
        ensures seen { Learnt seen.old seen.new }
        ensures replayed { HasReplay seen.new }
        ensures named { IfErr result (λ refusal. is_ask_refusal refusal ≡ true) }
    {
        let mut machine = self.lock(rt);
        let asked = machine.ask(seen, at);
        self.release(machine);
        asked
    }

    /// Makes the exchange that was asked for: the event `Exchange`. `seen` then ends with this exchange, as one of the
    /// caller's own steps. If the exchange is refused, `seen` is brought up to date with the log.
    ///
    /// # Errors
    /// Any refusal of an exchange.
    #[tactic(auto, unfolding(program_order::specs::Refusals::may_refuse))]
    pub fn exchange<R: Wait>(&self, rt: &R, seen: &mut Seen<K>) -> Result<(), Refusal>
        ensures seen { MatchResult result (λ _. (n : ℕ) × IsMade (Exchanged n) seen.old seen.new)
            (λ refusal. Learnt seen.old seen.new × IsWhyOf seen.new refusal) }
        ensures replayed { HasReplay seen.new }
        ensures named { IfErr result (λ refusal. is_exchange_refusal refusal ≡ true) }
    {
        let mut machine = self.lock(rt);
        let made = machine.exchange(seen);
        self.release(machine);
        made
    }

    /// Makes the exchange that was asked for, and then asks for the next one, before another thread can: the events
    /// `Exchange` and `Ask` in one hold of the lock. `next` is the absolute address of the next package, if there is
    /// one. If the exchange is made, the call returns the answer to the request, or `Ok` if there is no next package.
    /// `seen` then ends with the exchange, as one of the caller's own steps. If the exchange is refused, nothing is
    /// asked for and `seen` is brought up to date with the log.
    ///
    /// # Errors
    /// Any refusal of an exchange. Within `Ok`, any refusal of a request.
    pub fn exchange_and_ask<R: Wait>(
        &self,
        rt: &R,
        seen: &mut Seen<K>,
        next: Option<u32>,
    ) -> Result<Result<(), Refusal>, Refusal>
        ensures seen { MatchResult result (λ _. (n : ℕ) × IsMade (Exchanged n) seen.old seen.new)
            (λ refusal. Learnt seen.old seen.new × IsWhyOf seen.new refusal) }
        ensures replayed { HasReplay seen.new }
        ensures named { MatchResult result (λ asked. IfErr asked (λ refusal. is_ask_refusal refusal ≡ true))
            (λ refusal. is_exchange_refusal refusal ≡ true) }
    {
        let mut machine = self.lock(rt);
        let made = machine.exchange_and_ask(seen, next);
        self.release(machine);
        made
    }

    /// Reads the word at an absolute address, as a peripheral processor does: the event `PpRead`. `seen` then ends with
    /// this access, as one of the caller's own steps, and the word is that of the log's replay. If the access is
    /// refused, `seen` is brought up to date with the log.
    ///
    /// # Errors
    /// Any refusal of a peripheral access.
    #[tactic(auto, unfolding(program_order::specs::Refusals::may_refuse))]
    pub fn pp_read<R: Wait>(&self, rt: &R, seen: &mut Seen<K>, at: u32) -> Result<Word60, Refusal>
        ensures seen { MatchResult result (λ word. IsMade (ReadAt at) seen.old seen.new × IsWordOf seen.new at word)
            (λ refusal. Learnt seen.old seen.new) }
        ensures replayed { HasReplay seen.new }
        ensures named { IfErr result (λ refusal. is_access_refusal refusal ≡ true) }
    {
        let mut machine = self.lock(rt);
        let word = machine.pp_read(seen, at);
        self.release(machine);
        word
    }

    /// Writes a word to an absolute address, as a peripheral processor does: the event `PpWrite`. `seen` then ends with
    /// this access, as one of the caller's own steps. If the access is refused, `seen` is brought up to date with the
    /// log.
    ///
    /// # Errors
    /// Any refusal of a peripheral access.
    #[tactic(auto, unfolding(program_order::specs::Refusals::may_refuse))]
    pub fn pp_write<R: Wait>(
        &self,
        rt: &R,
        seen: &mut Seen<K>,
        at: u32,
        word: Word60,
    ) -> Result<(), Refusal>
        ensures seen { MatchResult result (λ _. IsMade (Wrote at word) seen.old seen.new)
            (λ refusal. Learnt seen.old seen.new) }
        ensures replayed { HasReplay seen.new }
        ensures named { IfErr result (λ refusal. is_access_refusal refusal ≡ true) }
    {
        let mut machine = self.lock(rt);
        let written = machine.pp_write(seen, at, word);
        self.release(machine);
        written
    }

    /// Claims a reservation with the seat of its unit.
    ///
    /// # Errors
    /// `Stranger`, with the seat.
    pub fn claim<R: Wait>(
        &self,
        rt: &R,
        seat: Seat,
        note: Note,
    ) -> Result<Reserved, (Refusal, Seat)>
        ensures claimed { IfOk result (λ token. token ≡ record { seat = seat; number = note.number }) }
        ensures given_back { IfErr result (λ back. (back.1 ≡ seat) × (back.0 ≡ Stranger)) }
    {
        let mut machine = self.lock(rt);
        let claimed = machine.claim(seat, note);
        self.release(machine);
        claimed
    }

    /// Reads the operands of the token's reservation: the event `Read`.
    ///
    /// # Errors
    /// `OperandAwaited` or `Stranger`, with the token.
    pub fn read<R: Wait>(&self, rt: &R, token: Reserved) -> Result<Loaded, (Refusal, Reserved)>
        ensures loaded { IfOk result (λ loaded. (loaded.seat ≡ token.seat) × (loaded.number ≡ token.number)) }
        ensures given_back { IfErr result
            (λ back. (back.1 ≡ token) × ((is_stranger back.0 || is_read_refusal back.0) ≡ true)) }
    {
        let mut machine = self.lock(rt);
        let loaded = machine.read(token);
        self.release(machine);
        loaded
    }

    /// Gives the token's value to the unit: the event `Finish` for the token's reservation.
    ///
    /// # Errors
    /// `Stranger`, with the token.
    pub fn finish<R: Wait>(&self, rt: &R, token: Computed) -> Result<Finished, (Refusal, Computed)>
        ensures finished { IfOk result (λ finished. finished ≡ record { seat = token.seat; number = token.number }) }
        ensures given_back { IfErr result (λ back. (back.1 ≡ token) × (back.0 ≡ Stranger)) }
    {
        let mut machine = self.lock(rt);
        let finished = machine.finish(token);
        self.release(machine);
        finished
    }

    /// Stores the result of the token's reservation and releases the unit: the event `Store`.
    ///
    /// # Errors
    /// `ResultHeld`, `HopperFull`, `OutOfTurn` or `Stranger`, with the token.
    pub fn store<R: Wait>(&self, rt: &R, token: Finished) -> Result<Seat, (Refusal, Finished)>
        ensures seat { IfOk result (λ seat. seat ≡ one_more token) }
        ensures given_back { IfErr result
            (λ back. (back.1 ≡ token) × ((is_stranger back.0 || is_store_refusal back.0) ≡ true)) }
    {
        let mut machine = self.lock(rt);
        let stored = machine.store(token);
        machine.leave_to_memory();
        self.release(machine);
        stored
    }

    /// Accepts the reference in a place of the hopper, 0 to 3: the event `Accept`.
    ///
    /// # Errors
    /// `BankBusy` or `OlderAtAddress`. `Nothing` if the place is empty.
    #[tactic(auto, unfolding(program_order::specs::Refusals::may_refuse))]
    pub fn accept<R: Wait>(&self, rt: &R, place: u8) -> Result<(), Refusal>
        ensures named { IfErr result (λ refusal. (is_nothing refusal || is_accept_refusal refusal) ≡ true) }
        ensures no_place { 3 < place → result ≡ Err Nothing }
    {
        let mut machine = self.lock(rt);
        let accepted = machine.accept(place);
        self.release(machine);
        accepted
    }

    /// Writes the word of the load in a channel, 1 to 5, to its register: the event `Return`.
    ///
    /// # Errors
    /// `ResultHeld`. `Nothing` if the channel is empty.
    #[tactic(auto, unfolding(program_order::specs::Refusals::may_refuse))]
    pub fn return_load<R: Wait>(&self, rt: &R, channel: u8) -> Result<(), Refusal>
        ensures named { IfErr result (λ refusal. (is_nothing refusal || is_return_refusal refusal) ≡ true) }
        ensures no_channel { channel ≡ 0 → result ≡ Err Nothing }
        ensures channels { 5 < channel → result ≡ Err Nothing }
    {
        let mut machine = self.lock(rt);
        let returned = machine.return_load(channel);
        self.release(machine);
        returned
    }

    /// Frees a bank, 0 to 31: the event `BankFree`.
    ///
    /// # Errors
    /// `Nothing` if the bank isn't busy.
    #[tactic(auto, unfolding(program_order::specs::Refusals::may_refuse))]
    pub fn bank_free<R: Wait>(&self, rt: &R, bank: u8) -> Result<(), Refusal>
        ensures named { IfErr result (λ refusal. is_nothing refusal ≡ true) }
        ensures no_bank { 31 < bank → result ≡ Err Nothing }
    {
        let mut machine = self.lock(rt);
        let freed = machine.bank_free(bank);
        self.release(machine);
        freed
    }

    /// Returns the state, the log, the boot memory and the budget of the machine, if it is drained. The state is the
    /// replay of the log on that memory, and the log has no more instructions than the budget. If the state has the
    /// fault, the log since the last exchange is a beginning of the program's run that includes the instruction that
    /// set it. The log begins with what the caller had seen, and `seen` is then that log.
    ///
    /// # Errors
    /// `NotDrained` if an issued instruction has an effect still to come. `OutOfMemory` if memory runs out.
    pub fn snapshot<R: Wait>(&self, rt: &R, seen: &mut Seen<K>) -> Result<Snapshot, Refusal>
        ensures seen { Learnt seen.old seen.new }
        ensures replayed { HasReplay seen.new }
        ensures fresh { IfOk result
            (λ snapshot. (snapshot.boot_memory ≡ seen.new.booted.memory) × (snapshot.budget ≡ seen.new.booted.budget)
            × (snapshot.log ≡ seen.new.log)) }
        ensures within { IfOk result (λ snapshot. issued snapshot.log ≤ seen.new.booted.budget) }
        ensures replay { IfOk result (λ snapshot. replay (boot snapshot.boot_memory) snapshot.log
            ≡ Some snapshot.state) }
        ensures fault { IfOk result (λ snapshot. snapshot.state.fault ≡ true
            → IsFaultedRun snapshot.log snapshot.boot_memory snapshot.state) }
        ensures named { IfErr result (λ refusal. (refusal ≡ NotDrained) ⊎ (refusal ≡ OutOfMemory)) }
    {
        let mut machine = self.lock(rt);
        let snapshot = machine.snapshot(seen);
        self.release(machine);
        snapshot
    }

    /// Shares what two callers have seen: both have then seen the same steps, which begin with what each had seen
    /// before. No step was made by both, and no reservation's number was returned to both. This call never blocks.
    pub fn meet(&self, one: &mut Seen<K>, other: &mut Seen<K>)
        ensures one { Learnt one.old one.new }
        ensures other { Learnt other.old other.new }
        ensures same { (one.new.booted ≡ other.new.booted) × (one.new.log ≡ other.new.log) }
        ensures apart { AreApart one.new.mine other.new.mine }
        ensures numbers { NumbersApart one.new other.new }
    {
        self.word.meet(&mut one.pass, &mut other.pass)
    }

    /// Whether no issued instruction has an effect still to come.
    pub fn drained<R: Wait>(&self, rt: &R) -> bool {
        self.locked.lock(rt).drained()
    }

    /// Tells the threads that use the machine to end.
    pub fn end<R: Wait>(&self, rt: &R) {
        self.locked.lock(rt).end();
        self.signals.raise_all();
    }

    /// Whether the threads that use the machine were told to end.
    pub fn ended<R: Wait>(&self, rt: &R) -> bool {
        self.locked.lock(rt).ended()
    }

    /// The signals by which the threads that use the machine wake each other.
    pub fn signals(&self) -> &Signals {
        &self.signals
    }
}

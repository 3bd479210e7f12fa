//! The machine as a list of pending instructions that is scanned for each conflict, for comparison with `Machine`, and
//! the generated events that both machines are given.

use crate::fixtures::{Words, memory_of};
use arrayvec::ArrayVec;
use hopper::{Reference, bank_of};
use in_flight::{Arrival, Outstanding, Pending, Phase, Stage};
use instructions::{Instr, MOST_ISSUES, Refusal, Reg, Unit, UnitKind, results, sources, unit_kind};
use machine::Machine;
use program_order::{Answer, Done, Event, Note, Snapshot};
use relocation::{Access, PACKAGE_WORDS, Storage, relocate};
use scoreboard::{Occupancy, Reservation, is_same_unit};
use sequential::{Fetched, State, Work, operands};
use std::alloc::Global;
use unit_ops::{UnitValue, value};
use word60::Word60;

/// How many events of each kind were accepted, in the order of `Event`. Peripheral accesses aren't counted.
pub type Accepted = [u32; 9];

/// The number of an event's kind.
fn kind(event: &Event) -> usize {
    match event {
        Event::Issue => 0,
        Event::Read(_) => 1,
        Event::Finish(_) => 2,
        Event::Store(_) => 3,
        Event::Accept(_) => 4,
        Event::Return(_) => 5,
        Event::BankFree(_) => 6,
        Event::Ask(_) => 7,
        Event::Exchange => 8,
        Event::PpRead(_) => 9,
        Event::PpWrite(_, _) => 10,
    }
}

/// The central processor and its memory.
#[derive(Drop)]
struct ListMachine {
    state: State,
    /// In issue order.
    pending: ArrayVec<Pending, 16>,
    busy: [bool; 32],
    request: Option<u32>,
    budget: u64,
    issues: u64,
    asked: u32,
    accessed: u32,
    last: u64,
    accepted: Accepted,
}

// ---- questions about a pending instruction, and about a list of them ----

/// The instruction as the scoreboard sees it.
fn reservation(pending: &Pending) -> Reservation {
    let occupancy = match pending.phase {
        Phase::Before(Stage::Unread) => Occupancy::Reserved { has_read: false },
        Phase::Before(_) => Occupancy::Reserved { has_read: true },
        Phase::After(Outstanding::Entered(_, _, Access::Store(_))) => Occupancy::Left {
            returning: None,
        },
        Phase::After(Outstanding::Entered(_, _, Access::Load(n))) => Occupancy::Left {
            returning: Some(n),
        },
        Phase::After(Outstanding::Accepted(n, _)) => Occupancy::Left { returning: Some(n) },
    };
    Reservation {
        instr: pending.instr,
        unit: pending.unit,
        occupancy,
    }
}

/// The stage of the instruction, if it holds the unit.
fn stage_in(pending: &Pending, unit: Unit) -> Option<Stage> {
    if !is_same_unit(pending.unit, unit) {
        return None;
    }
    match pending.phase {
        Phase::Before(stage) => Some(stage),
        Phase::After(_) => None,
    }
}

/// The reference of the instruction, if it waits in this place of the hopper.
fn entry_in(pending: &Pending, place: u8) -> Option<Reference> {
    match pending.phase {
        Phase::After(Outstanding::Entered(taken, a, access)) => if taken == place {
            Some(Reference { address: a, access })
        } else {
            None
        },
        _ => None,
    }
}

/// The load of the instruction, if it waits in this channel.
fn arrival_in(pending: &Pending, given: u8) -> Option<Arrival> {
    match pending.phase {
        Phase::After(Outstanding::Accepted(channel, word)) => if channel.get() == given {
            Some(Arrival { channel, word })
        } else {
            None
        },
        _ => None,
    }
}

/// Whether a reference that entered later waits for this one: both are to one absolute address, and at least one of
/// them stores.
fn holds_back(pending: &Pending, later: &Reference) -> bool {
    match (pending.phase, later.access) {
        (Phase::After(Outstanding::Entered(_, _, Access::Load(_))), Access::Load(_)) => false,
        (Phase::After(Outstanding::Entered(_, address, _)), _) => address == later.address,
        _ => false,
    }
}

/// Whether a fetch of the word at the absolute address waits for the instruction.
fn delays_fetch(pending: &Pending, address: u32) -> bool {
    match pending.phase {
        Phase::Before(_) => reservation(pending).has_store_turn(),
        Phase::After(Outstanding::Entered(_, at, Access::Store(_))) => at == address,
        Phase::After(_) => false,
    }
}

/// Whether a peripheral access to the word at the absolute address waits for the instruction.
fn delays_access(pending: &Pending, address: u32) -> bool {
    match pending.phase {
        Phase::Before(_) => reservation(pending).has_turn(),
        Phase::After(Outstanding::Entered(_, at, _)) => at == address,
        Phase::After(_) => false,
    }
}

/// The instructions before this position in the list.
fn before(in_flight: &[Pending], index: usize) -> &[Pending] {
    if index < in_flight.len() {
        &in_flight[..index]
    } else {
        in_flight
    }
}

/// The first of the registers that is a result still to come of one of the instructions.
fn first_awaited(in_flight: &[Pending], registers: &[Reg]) -> Option<Reg> {
    for register in registers {
        if in_flight
            .iter()
            .any(|pending| reservation(pending).has_to_come(register))
        {
            return Some(*register);
        }
    }
    None
}

/// The register, if there is one and one of the instructions still has to read it.
fn result_to_be_read(in_flight: &[Pending], register: Option<Reg>) -> Option<Reg> {
    let register = register?;
    if in_flight
        .iter()
        .any(|pending| reservation(pending).has_to_read(&register))
    {
        Some(register)
    } else {
        None
    }
}

/// Whether one of the instructions holds the unit.
fn is_held(in_flight: &[Pending], unit: Unit) -> bool {
    in_flight
        .iter()
        .any(|pending| reservation(pending).holds(unit))
}

/// The lower-numbered unit of an instruction's kind.
fn first_unit(instr: &Instr) -> Unit {
    match unit_kind(instr) {
        None => Unit::Branch,
        Some(UnitKind::Branch) => Unit::Branch,
        Some(UnitKind::Boolean) => Unit::Boolean,
        Some(UnitKind::Shift) => Unit::Shift,
        Some(UnitKind::LongAdd) => Unit::LongAdd,
        Some(UnitKind::Divide) => Unit::Divide,
        Some(UnitKind::Increment) => Unit::Increment1,
    }
}

/// The unit that an instruction takes: the lower-numbered free one of its kind.
fn unit_for(in_flight: &[Pending], instr: &Instr) -> Result<Unit, Refusal> {
    let first = first_unit(instr);
    if !is_held(in_flight, first) {
        return Ok(first);
    }
    if is_same_unit(first, Unit::Increment1) && !is_held(in_flight, Unit::Increment2) {
        return Ok(Unit::Increment2);
    }
    Err(Refusal::UnitBusy(first))
}

/// The lowest-numbered free place of the hopper.
fn place_for(in_flight: &[Pending]) -> Option<u8> {
    for place in 0..4u8 {
        if !in_flight
            .iter()
            .any(|pending| entry_in(pending, place).is_some())
        {
            return Some(place);
        }
    }
    None
}

/// The instruction that holds the unit, with its position in the list and its stage.
fn find_stage(in_flight: &[Pending], unit: Unit) -> Option<(usize, Pending, Stage)> {
    for index in 0..in_flight.len() {
        if let Some(stage) = stage_in(&in_flight[index], unit) {
            return Some((index, in_flight[index], stage));
        }
    }
    None
}

/// The position in the list of the instruction in this place of the hopper, and its reference.
fn find_entry(in_flight: &[Pending], place: u8) -> Option<(usize, Reference)> {
    for index in 0..in_flight.len() {
        if let Some(entry) = entry_in(&in_flight[index], place) {
            return Some((index, entry));
        }
    }
    None
}

/// The position in the list of the instruction in this channel, and its load.
fn find_arrival(in_flight: &[Pending], channel: u8) -> Option<(usize, Arrival)> {
    for index in 0..in_flight.len() {
        if let Some(arrival) = arrival_in(&in_flight[index], channel) {
            return Some((index, arrival));
        }
    }
    None
}

/// The word at an absolute address, if the address is in memory.
fn word_of(memory: &Storage, address: u32) -> Option<Word60> {
    if address < memory.size() {
        Some(memory.load(address))
    } else {
        None
    }
}

// ---- the events ----

impl ListMachine {
    /// A machine that was just booted with a memory.
    fn boot(memory: Storage, budget: u64) -> ListMachine {
        ListMachine {
            state: State::boot(memory),
            pending: ArrayVec::new(),
            busy: [false; 32],
            request: None,
            budget,
            issues: 0,
            asked: 0,
            accessed: 0,
            last: 0,
            accepted: [0; 9],
        }
    }

    /// Makes an event and counts it, or refuses it and stays unchanged.
    fn apply(&mut self, event: Event) -> Answer {
        let answer = self.make(event);
        if answer.is_ok() {
            if let Some(count) = self.accepted.get_mut(kind(&event)) {
                *count = count.saturating_add(1);
            }
        }
        answer
    }

    fn make(&mut self, event: Event) -> Answer {
        match event {
            Event::Issue => self.issue(),
            Event::Read(unit) => self.read(unit),
            Event::Finish(unit) => self.finish(unit),
            Event::Store(unit) => self.store(unit),
            Event::Accept(place) => self.accept(place),
            Event::Return(channel) => self.return_load(channel),
            Event::BankFree(bank) => self.bank_free(bank),
            Event::Ask(at) => self.ask(at),
            Event::Exchange => self.exchange(),
            Event::PpRead(at) => self.pp_read(at),
            Event::PpWrite(at, word) => self.pp_write(at, word),
        }
    }

    /// Whether a fetch has to wait: no word is held, P is in range, and a store may still change the word.
    fn fetch_waits(&self) -> bool {
        if self.state.position.held.is_some() {
            return false;
        }
        let area = self.state.area;
        match relocate(
            self.state.position.p,
            area.ra,
            area.fl,
            self.state.memory.size(),
        ) {
            Some(address) => self
                .pending
                .iter()
                .any(|pending| delays_fetch(pending, address)),
            None => false,
        }
    }

    /// Whether the next word or parcel may be taken.
    fn judge_issue(&self) -> Result<(), Refusal> {
        if let Some(halt) = self.state.halt {
            return Err(Refusal::Halted(halt));
        }
        if self.state.fault {
            return Err(Refusal::Faulted);
        }
        if self.issues >= self.budget {
            return Err(Refusal::Budget);
        }
        if self
            .pending
            .iter()
            .any(|pending| reservation(pending).is_branch())
        {
            return Err(Refusal::BranchPending);
        }
        if self.request.is_some() && self.state.position.held.is_none() {
            return Err(Refusal::ExchangeWaiting);
        }
        if self.fetch_waits() {
            return Err(Refusal::FetchWait);
        }
        Ok(())
    }

    /// First order: reserves a unit for an instruction, and adds the instruction to the list.
    fn reserve(&mut self, instr: Instr) -> Result<Note, Refusal> {
        let unit = unit_for(self.pending.as_slice(), &instr)?;
        if let Some(register) = first_awaited(self.pending.as_slice(), results(&instr).as_slice()) {
            return Err(Refusal::ResultReserved(register));
        }
        self.last = self.last.saturating_add(1);
        let pending = Pending {
            instr,
            at: self.state.position.p,
            number: self.last,
            unit,
            phase: Phase::Before(Stage::Unread),
        };
        if self.pending.len() < 16 {
            self.pending.push(pending);
        }
        Ok(Note {
            unit,
            number: self.last,
        })
    }

    fn issue(&mut self) -> Answer {
        if let Err(refusal) = self.judge_issue() {
            return Err(refusal);
        }
        let (place, note) = match self.state.fetch() {
            Fetched::Halting(halt, place) => {
                self.state.halt = Some(halt);
                (place, None)
            }
            Fetched::Passing(place) => (place, None),
            Fetched::Taking(instr, place) => match self.reserve(instr) {
                Ok(note) => (place, Some(note)),
                Err(refusal) => return Err(refusal),
            },
        };
        self.state.position = place;
        self.issues = self.issues.saturating_add(1);
        Ok(Done::Issued(note))
    }

    /// Puts the instruction at this position into another phase, or removes it if nothing is left of it.
    fn put(&mut self, index: usize, phase: Option<Phase>) {
        if index >= self.pending.len() {
            return;
        }
        match phase {
            Some(phase) => self.pending[index].phase = phase,
            None => {
                self.pending.remove(index);
            }
        }
    }

    fn read(&mut self, unit: Unit) -> Answer {
        let Some((index, pending, stage)) = find_stage(self.pending.as_slice(), unit) else {
            return Err(Refusal::Nothing);
        };
        let Stage::Unread = stage else {
            return Err(Refusal::Nothing);
        };
        let earlier = before(self.pending.as_slice(), index);
        if let Some(register) = first_awaited(earlier, sources(&pending.instr).as_slice()) {
            return Err(Refusal::OperandAwaited(register));
        }
        let operands = operands(&pending.instr, pending.at, &self.state.registers);
        self.put(index, Some(Phase::Before(Stage::Read(operands))));
        Ok(Done::Made)
    }

    fn finish(&mut self, unit: Unit) -> Answer {
        let Some((index, pending, stage)) = find_stage(self.pending.as_slice(), unit) else {
            return Err(Refusal::Nothing);
        };
        let Stage::Read(operands) = stage else {
            return Err(Refusal::Nothing);
        };
        // Every instruction that was issued to a unit has a kind of unit.
        if unit_kind(&pending.instr).is_none() {
            return Err(Refusal::Nothing);
        }
        let value = value(&pending.instr, &operands);
        self.put(index, Some(Phase::Before(Stage::Finished(value))));
        Ok(Done::Made)
    }

    /// The rest of an instruction after its store event.
    fn rest_of(&self, instr: &Instr, value: &UnitValue) -> Option<Phase> {
        let place = place_for(self.pending.as_slice()).unwrap_or(0);
        let Some(reference) = Work::of(instr, value).reference else {
            return None;
        };
        let access = reference.access;
        let area = &self.state.area;
        match relocate(
            reference.address,
            area.ra,
            area.fl,
            self.state.memory.size(),
        ) {
            Some(address) => Some(Phase::After(Outstanding::Entered(place, address, access))),
            None => match access {
                Access::Load(n) => Some(Phase::After(Outstanding::Accepted(n, Word60::default()))),
                Access::Store(_) => None,
            },
        }
    }

    /// Whether the rest of the instruction would enter the hopper and no place there is free.
    fn finds_no_place(&self, instr: &Instr, value: &UnitValue) -> bool {
        match self.rest_of(instr, value) {
            Some(Phase::After(Outstanding::Entered(_, _, _))) => {
                place_for(self.pending.as_slice()).is_none()
            }
            _ => false,
        }
    }

    /// Judges a store event by third order, the hopper's room and the turn of references.
    fn judge_store(&self, index: usize, instr: &Instr, value: &UnitValue) -> Result<(), Refusal> {
        let earlier = before(self.pending.as_slice(), index);
        if let Some(register) = result_to_be_read(earlier, instr.sets()) {
            return Err(Refusal::ResultHeld(register));
        }
        if self.finds_no_place(instr, value) {
            return Err(Refusal::HopperFull);
        }
        if instr.has_reference()
            && earlier
                .iter()
                .any(|pending| reservation(pending).has_turn())
        {
            return Err(Refusal::OutOfTurn);
        }
        Ok(())
    }

    /// Makes a unit's changes at its store event to the registers, P and the fault flag.
    fn carry_out(&mut self, instr: &Instr, value: &UnitValue) {
        self.state.write_and_jump(&Work::of(instr, value));
    }

    fn store(&mut self, unit: Unit) -> Answer {
        let Some((index, pending, stage)) = find_stage(self.pending.as_slice(), unit) else {
            return Err(Refusal::Nothing);
        };
        let Stage::Finished(value) = stage else {
            return Err(Refusal::Nothing);
        };
        if let Err(refusal) = self.judge_store(index, &pending.instr, &value) {
            return Err(refusal);
        }
        let rest = self.rest_of(&pending.instr, &value);
        self.carry_out(&pending.instr, &value);
        self.put(index, rest);
        Ok(Done::Made)
    }

    /// Whether a bank is busy; `false` for a number above 31.
    fn is_busy(&self, bank: u8) -> bool {
        usize::from(bank) < 32 && self.busy[usize::from(bank)]
    }

    /// Marks a bank as busy or free.
    fn mark(&mut self, bank: u8, mark: bool) {
        if usize::from(bank) < 32 {
            self.busy[usize::from(bank)] = mark;
        }
    }

    /// Makes a reference in memory, and returns the rest of its instruction.
    fn perform(&mut self, entry: &Reference) -> Option<Phase> {
        if entry.address >= self.state.memory.size() {
            return None;
        }
        match entry.access {
            Access::Load(n) => Some(Phase::After(Outstanding::Accepted(
                n,
                self.state.memory.load(entry.address),
            ))),
            Access::Store(word) => {
                self.state.memory.store(entry.address, word);
                None
            }
        }
    }

    fn accept(&mut self, place: u8) -> Answer {
        let Some((index, entry)) = find_entry(self.pending.as_slice(), place) else {
            return Err(Refusal::Nothing);
        };
        let bank = bank_of(entry.address);
        if self.is_busy(bank) {
            return Err(Refusal::BankBusy(bank));
        }
        if before(self.pending.as_slice(), index)
            .iter()
            .any(|pending| holds_back(pending, &entry))
        {
            return Err(Refusal::OlderAtAddress);
        }
        let rest = self.perform(&entry);
        self.put(index, rest);
        self.mark(bank, true);
        Ok(Done::Made)
    }

    fn return_load(&mut self, channel: u8) -> Answer {
        let Some((index, arrival)) = find_arrival(self.pending.as_slice(), channel) else {
            return Err(Refusal::Nothing);
        };
        let register = Reg::X(arrival.channel);
        let earlier = before(self.pending.as_slice(), index);
        if earlier
            .iter()
            .any(|pending| reservation(pending).has_to_read(&register))
        {
            return Err(Refusal::ResultHeld(register));
        }
        self.state.registers.set(register, arrival.word);
        self.put(index, None);
        Ok(Done::Made)
    }

    fn bank_free(&mut self, bank: u8) -> Answer {
        if !self.is_busy(bank) {
            return Err(Refusal::Nothing);
        }
        self.mark(bank, false);
        Ok(Done::Made)
    }

    fn ask(&mut self, at: u32) -> Answer {
        let size = self.state.memory.size();
        if self.asked >= 1_000_000 {
            return Err(Refusal::Budget);
        }
        if self.request.is_some() {
            return Err(Refusal::ExchangeBusy);
        }
        if at > size || size - at < PACKAGE_WORDS {
            return Err(Refusal::PackageRange);
        }
        self.request = Some(at);
        self.asked += 1;
        Ok(Done::Made)
    }

    fn exchange(&mut self) -> Answer {
        let Some(at) = self.request else {
            return Err(Refusal::Nothing);
        };
        if !self.pending.is_empty() {
            return Err(Refusal::NotDrained);
        }
        if self.state.halt.is_none() && !self.state.fault && self.state.position.held.is_some() {
            return Err(Refusal::MidWord);
        }
        self.state.exchange(at)?;
        self.request = None;
        Ok(Done::Made)
    }

    /// The word at an address that a peripheral processor may access.
    fn accessible(&self, at: u32) -> Result<Word60, Refusal> {
        if self.accessed >= 1_000_000 {
            return Err(Refusal::Budget);
        }
        if self
            .pending
            .iter()
            .any(|pending| delays_access(pending, at))
        {
            return Err(Refusal::PeripheralWait);
        }
        match word_of(&self.state.memory, at) {
            Some(word) => Ok(word),
            None => Err(Refusal::PeripheralRange),
        }
    }

    fn pp_read(&mut self, at: u32) -> Answer {
        let word = match self.accessible(at) {
            Ok(word) => word,
            Err(refusal) => return Err(refusal),
        };
        self.accessed = self.accessed.saturating_add(1);
        Ok(Done::Word(word))
    }

    fn pp_write(&mut self, at: u32, word: Word60) -> Answer {
        if let Err(refusal) = self.accessible(at) {
            return Err(refusal);
        }
        if at < self.state.memory.size() {
            self.state.memory.store(at, word);
        }
        self.accessed = self.accessed.saturating_add(1);
        Ok(Done::Made)
    }

    // ---- the state and the counts ----

    /// The lowest-numbered busy bank, or 0 if no bank is busy.
    fn lowest_busy(&self) -> u8 {
        for bank in 0..32u8 {
            if self.is_busy(bank) {
                return bank;
            }
        }
        0
    }

    /// Whether the memory has the same words as this one.
    fn has_memory(&self, other: &Storage) -> bool {
        for address in 0..other.size() {
            if word_of(&self.state.memory, address) != word_of(other, address) {
                return false;
            }
        }
        self.state.memory.size() == other.size()
    }

    /// Whether nothing is pending, the state is the snapshot's, and as many instructions were issued as its log has.
    fn is_left_as(&self, snapshot: &Snapshot) -> bool {
        let state = snapshot.state();
        self.pending.is_empty()
            && self.state.registers == state.registers
            && self.state.position == state.position
            && self.state.area == state.area
            && self.state.halt == state.halt
            && self.state.fault == state.fault
            && self.issues == snapshot.log().issues()
            && self.has_memory(&state.memory)
    }
}

// ---- generated events ----

/// A program, the events generated for it, and how many of them are accepted.
#[derive(Clone, Copy, Drop)]
pub struct Program {
    /// The text that names the program.
    pub name: &'static str,
    /// The words of memory, stored over a package at 40 with RA 100 and FL 20 (octal).
    pub words: Words<'static>,
    /// How often the events are generated, from boot each time.
    pub rounds: u32,
    /// How many events are generated in each round.
    pub events: u32,
    /// The package of the exchanges that are asked for in between, if any.
    pub package: Option<u32>,
    /// How many events of each kind are accepted in all rounds.
    pub accepted: Accepted,
}

/// The unit with this number.
fn unit_of(number: u64) -> Unit {
    match number {
        0 => Unit::Branch,
        1 => Unit::Boolean,
        2 => Unit::Shift,
        3 => Unit::Add,
        4 => Unit::LongAdd,
        5 => Unit::Multiply1,
        6 => Unit::Multiply2,
        7 => Unit::Divide,
        8 => Unit::Increment1,
        _ => Unit::Increment2,
    }
}

/// A sequence of pseudo-random numbers.
#[derive(Drop)]
struct Drawing {
    number: u64,
}

impl Drawing {
    fn draw(&mut self) -> u64 {
        self.number = self.number.wrapping_mul(1_103_515_245).wrapping_add(12_345) % 2_147_483_648;
        self.number
    }
}

/// The event for a number that was drawn. A bank that may be busy is given.
fn event_of(number: u64, bank: u8) -> Event {
    let choice = number / 65_536 % 64;
    if choice < 10 {
        Event::Read(unit_of(choice))
    } else if choice < 20 {
        Event::Finish(unit_of(choice - 10))
    } else if choice < 30 {
        Event::Store(unit_of(choice - 20))
    } else if choice < 34 {
        Event::Accept((choice - 30) as u8)
    } else if choice < 39 {
        Event::Return((choice - 33) as u8)
    } else if choice < 52 {
        Event::Issue
    } else {
        Event::BankFree(bank)
    }
}

/// Whether both machines give the same answer to an event.
fn agree_on(machine: &mut Machine, list_machine: &mut ListMachine, event: &Event) -> bool {
    let answer = machine.apply(*event);
    list_machine.apply(*event) == answer
}

/// Whether they agree on an exchange that is asked for and made at once.
fn agree_on_exchange(machine: &mut Machine, list_machine: &mut ListMachine, at: u32) -> bool {
    agree_on(machine, list_machine, &Event::Ask(at))
        && agree_on(machine, list_machine, &Event::Exchange)
}

/// A word that belongs to no program and that no program refers to.
const SPARE: u32 = 0o370;

/// Whether they agree on peripheral accesses: one of the program's words is read, and the spare word is written and
/// read.
fn agree_on_accesses(machine: &mut Machine, list_machine: &mut ListMachine, made: u32) -> bool {
    let word = Word60::from_bits(u64::from(made));
    agree_on(machine, list_machine, &Event::PpRead(0o100 + made % 0o40))
        && agree_on(machine, list_machine, &Event::PpWrite(SPARE, word))
        && agree_on(machine, list_machine, &Event::PpRead(SPARE))
}

/// Whether they agree on this many generated events. After each 13th event come peripheral accesses. After each 97th an
/// exchange is asked for, if a package is given.
fn agree_on_all(
    machine: &mut Machine,
    list_machine: &mut ListMachine,
    package: Option<u32>,
    events: u32,
    drawing: &mut Drawing,
) -> bool {
    for made in 0..events {
        let event = event_of(drawing.draw(), list_machine.lowest_busy());
        if !agree_on(machine, list_machine, &event) {
            return false;
        }
        if made % 13 == 12 && !agree_on_accesses(machine, list_machine, made) {
            return false;
        }
        if let Some(at) = package {
            if made % 97 == 96 && !agree_on_exchange(machine, list_machine, at) {
                return false;
            }
        }
    }
    true
}

/// Whether they agree on all events of a unit.
fn agree_on_unit(machine: &mut Machine, list_machine: &mut ListMachine, unit: Unit) -> bool {
    agree_on(machine, list_machine, &Event::Read(unit))
        && agree_on(machine, list_machine, &Event::Finish(unit))
        && agree_on(machine, list_machine, &Event::Store(unit))
}

/// Whether they agree on an acceptance. If its bank is busy, the bank is freed.
fn agree_on_place(machine: &mut Machine, list_machine: &mut ListMachine, place: u8) -> bool {
    let answer = machine.apply(Event::Accept(place));
    if list_machine.apply(Event::Accept(place)) != answer {
        return false;
    }
    match answer {
        Err(Refusal::BankBusy(bank)) => agree_on(machine, list_machine, &Event::BankFree(bank)),
        _ => true,
    }
}

/// Whether they agree on one turn through units, places and channels.
fn agree_on_turn(machine: &mut Machine, list_machine: &mut ListMachine) -> bool {
    (0..10u64).all(|number| agree_on_unit(machine, list_machine, unit_of(number)))
        && (0..4u8).all(|place| agree_on_place(machine, list_machine, place))
        && (1..6u8).all(|channel| agree_on(machine, list_machine, &Event::Return(channel)))
}

/// Whether the same events drain both machines, and leave the same state.
fn agree_at_the_end(machine: &mut Machine, list_machine: &mut ListMachine) -> bool {
    for _ in 0..40u32 {
        if !agree_on_turn(machine, list_machine) {
            return false;
        }
    }
    match machine.snapshot() {
        Ok(snapshot) => list_machine.is_left_as(&snapshot),
        Err(_) => false,
    }
}

/// Whether they agree on the first exchange, on the generated events and at the end.
fn agree(
    machine: &mut Machine,
    list_machine: &mut ListMachine,
    package: Option<u32>,
    events: u32,
    drawing: &mut Drawing,
) -> bool {
    agree_on_exchange(machine, list_machine, 0o40)
        && agree_on_all(machine, list_machine, package, events, drawing)
        && agree_at_the_end(machine, list_machine)
}

/// A machine that was just booted with the program's words, and the list machine.
fn booted(alloc: Global, words: Words<'_>) -> Result<(Machine, ListMachine), Refusal> {
    let scanned = memory_of(alloc, words)?;
    let memory = memory_of(alloc, words)?;
    let machine = Machine::boot(alloc, memory, MOST_ISSUES)?;
    Ok((machine, ListMachine::boot(scanned, MOST_ISSUES)))
}

/// How many events of each kind are accepted in one round; `None` if the machines disagree.
fn accepted_in_round(alloc: Global, program: &Program, drawing: &mut Drawing) -> Option<Accepted> {
    let (mut machine, mut list_machine) = booted(alloc, program.words).ok()?;
    if agree(
        &mut machine,
        &mut list_machine,
        program.package,
        program.events,
        drawing,
    ) {
        Some(list_machine.accepted)
    } else {
        None
    }
}

/// The sum of the counts of each kind.
fn added(one: &Accepted, other: &Accepted) -> Accepted {
    let mut sums = *one;
    for kind in 0..9usize {
        sums[kind] = sums[kind].saturating_add(other[kind]);
    }
    sums
}

/// How many events of each kind are accepted of the program, in a memory of 256 words; `None` if the machines disagree.
pub fn accepted(alloc: Global, program: &Program) -> Option<Accepted> {
    let mut drawing = Drawing { number: 1 };
    let mut sums = [0; 9];
    for _ in 0..program.rounds {
        let round = accepted_in_round(alloc, program, &mut drawing);
        sums = added(&sums, &round?);
    }
    Some(sums)
}

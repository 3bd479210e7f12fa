//! For the tests: a machine under its lock with all its seats. Its events are made by the calls of `Shared`.

ghost use Rattle.std.specs.Prelude.{◌≡◌};

use instructions::{PerUnit, Refusal, Unit};
use machine::{Computed, Finished, Machine, Reserved, Seat};
use machine_lock::{Ground, Naming, Seen, Shared};
use program_order::{Answer, Done, Event, Note, Snapshot};
use std::alloc::Global;
use std::mem;
use std::sync::Wait;

/// A unit's seat, or the token of the reservation that was claimed with the seat.
enum Held {
    Idle(Seat),
    Reserved(Reserved),
    Computed(Computed),
    Finished(Finished),
    /// Nothing, because a call has the seat or the token.
    Lent,
}

/// The seat or token after a call, and the call's answer.
type Step = (Held, Answer);

const MADE: Answer = Ok(Done::Made);

impl Held {
    /// Leaves the seat. Returns `None` if there is no seat or its reservation isn't stored.
    fn leave(self) -> Option<(Unit, u64)> {
        match self {
            Held::Idle(seat) => Some((seat.unit(), seat.leave())),
            Held::Reserved(token) => abandoned(token.abandon()),
            Held::Computed(token) => abandoned(token.abandon()),
            Held::Finished(token) => abandoned(token.abandon()),
            Held::Lent => None,
        }
    }

    fn claim<K: Naming, R: Wait>(self, rt: &R, shared: &Shared<K>, note: Note) -> Step {
        match self {
            Held::Idle(seat) => match shared.claim(rt, seat, note) {
                Ok(token) => (Held::Reserved(token), Ok(Done::Issued(Some(note)))),
                Err((refusal, seat)) => (Held::Idle(seat), Err(refusal)),
            },
            held => (held, Err(Refusal::Stranger)),
        }
    }

    /// Reads the operands and computes the result.
    fn read<K: Naming, R: Wait>(self, rt: &R, shared: &Shared<K>) -> Step {
        match self {
            Held::Reserved(token) => match shared.read(rt, token) {
                Ok(token) => (Held::Computed(token.compute()), MADE),
                Err((refusal, token)) => (Held::Reserved(token), Err(refusal)),
            },
            held => (held, Err(Refusal::Nothing)),
        }
    }

    fn finish<K: Naming, R: Wait>(self, rt: &R, shared: &Shared<K>) -> Step {
        match self {
            Held::Computed(token) => match shared.finish(rt, token) {
                Ok(token) => (Held::Finished(token), MADE),
                Err((refusal, token)) => (Held::Computed(token), Err(refusal)),
            },
            held => (held, Err(Refusal::Nothing)),
        }
    }

    fn store<K: Naming, R: Wait>(self, rt: &R, shared: &Shared<K>) -> Step {
        match self {
            Held::Finished(token) => match shared.store(rt, token) {
                Ok(seat) => (Held::Idle(seat), MADE),
                Err((refusal, token)) => (Held::Finished(token), Err(refusal)),
            },
            held => (held, Err(Refusal::Nothing)),
        }
    }
}

fn abandoned(seat: Seat) -> Option<(Unit, u64)> {
    seat.leave();
    None
}

/// A machine under its lock, the part of its log that its user has seen, and the seat or token of each unit in use.
pub struct SeatHolder<K: Naming> {
    shared: Shared<K>,
    seen: Seen<K>,
    held: PerUnit<Held>,
}

/// The answer of a call that returns nothing.
fn made(called: Result<(), Refusal>) -> Answer {
    match called {
        Ok(()) => MADE,
        Err(refusal) => Err(refusal),
    }
}

impl<K: Naming> SeatHolder<K> {
    pub fn open(alloc: Global, ground: Ground, machine: Machine) -> Result<SeatHolder<K>, Refusal>
        requires { ground ≡ K.table }
    {
        let (shared, seats, seen) = Shared::<K>::open(alloc, ground, machine)?;
        let held = PerUnit::from_array(seats).map(Held::Idle);
        Ok(SeatHolder { shared, seen, held })
    }

    /// Takes out the seat or token of a unit for a call.
    fn lend(&mut self, unit: Unit) -> Held {
        match self.held.get_mut(unit) {
            Some(held) => mem::replace(held, Held::Lent),
            None => Held::Lent,
        }
    }

    /// Puts back the seat or token after a call, and returns the call's answer.
    fn take_back(&mut self, unit: Unit, step: Step) -> Answer {
        let (held, answer) = step;
        let left = match self.held.get_mut(unit) {
            Some(lent) => mem::replace(lent, held),
            None => held,
        };
        left.leave();
        answer
    }

    /// Issues an instruction, and claims its reservation, if there is one, with the seat of its unit.
    fn issue<R: Wait>(&mut self, rt: &R) -> Answer {
        match self.shared.issue(rt, &mut self.seen) {
            Ok(Some(note)) => {
                let step = self.lend(note.unit).claim(rt, &self.shared, note);
                self.take_back(note.unit, step)
            }
            Ok(None) => Ok(Done::Issued(None)),
            Err(refusal) => Err(refusal),
        }
    }

    /// Makes the event of a unit with the unit's token.
    fn work<R: Wait>(&mut self, rt: &R, unit: Unit, event: Event) -> Answer {
        let held = self.lend(unit);
        let step = match event {
            Event::Read(_) => held.read(rt, &self.shared),
            Event::Finish(_) => held.finish(rt, &self.shared),
            _ => held.store(rt, &self.shared),
        };
        self.take_back(unit, step)
    }

    /// Makes the event by the call of its name.
    pub fn call<R: Wait>(&mut self, rt: &R, event: Event) -> Answer {
        match event {
            Event::Issue => self.issue(rt),
            Event::Read(unit) => self.work(rt, unit, event),
            Event::Finish(unit) => self.work(rt, unit, event),
            Event::Store(unit) => self.work(rt, unit, event),
            Event::Accept(position) => made(self.shared.accept(rt, position)),
            Event::Return(channel) => made(self.shared.return_load(rt, channel)),
            Event::BankFree(bank) => made(self.shared.bank_free(rt, bank)),
            Event::Ask(at) => made(self.shared.ask(rt, &mut self.seen, at)),
            Event::Exchange => made(self.shared.exchange(rt, &mut self.seen)),
            Event::PpRead(at) => match self.shared.pp_read(rt, &mut self.seen, at) {
                Ok(word) => Ok(Done::Word(word)),
                Err(refusal) => Err(refusal),
            },
            Event::PpWrite(at, word) => { made(self.shared.pp_write(rt, &mut self.seen, at, word)) }
        }
    }

    /// Whether nothing is pending.
    pub fn drained<R: Wait>(&self, rt: &R) -> bool {
        self.shared.drained(rt)
    }

    /// The snapshot of the drained machine.
    pub fn snapshot<R: Wait>(&mut self, rt: &R) -> Result<Snapshot, Refusal> {
        self.shared.snapshot(rt, &mut self.seen)
    }

    /// Leaves the seats. Returns each unit and the number of reservations stored with its seat, in the order of the
    /// units' numbers.
    pub fn leave(self) -> [Option<(Unit, u64)>; 7] {
        let SeatHolder { shared, seen, held } = self;
        drop(seen);
        drop(shared);
        held.map(Held::leave).into_array()
    }
}

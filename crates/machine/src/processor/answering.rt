//! The answer that an event would get, without making it.

ghost use Rattle.std.specs.Prelude.{◌≡◌};
ghost use Rattle.program_order.specs.declared.event.Event.TheVariants.{BankFree, Issue, PpRead};
ghost use Rattle.program_order.specs.Run.{answer_of};

use crate::judging::{judge_access, judge_ask, judge_exchange, judge_finish, judge_issue};
use crate::processor::made;
use crate::{Answer, Done, Event, Machine, Note};
use instructions::Refusal;
use sequential::Fetched;

impl Machine {
    /// The answer that an issue would get.
    fn answer_to_issue(&self) -> Answer
        ensures { result ≡ answer_of self.now Issue }
    {
        let judged = judge_issue(
            &self.state,
            &self.in_flight,
            &self.request,
            self.budget,
            self.log.issues(),
        );
        match judged {
            Err(refusal) => Err(refusal),
            Ok(Fetched::Halting(_, _)) => Ok(Done::Issued(None)),
            Ok(Fetched::Passing(_)) => Ok(Done::Issued(None)),
            Ok(Fetched::Taking(instr, _)) => match self.in_flight.may_reserve(&instr) {
                Ok((unit, number)) => Ok(Done::Issued(Some(Note { unit, number }))),
                Err(refusal) => Err(refusal),
            },
        }
    }

    /// The answer that the release of a bank would get.
    fn answer_to_release(&self, bank: u8) -> Answer
        ensures { result ≡ answer_of self.now (BankFree bank) }
    {
        if self.in_flight.is_bank_busy(bank) {
            Ok(Done::Made)
        } else {
            Err(Refusal::Nothing)
        }
    }

    /// The answer that the reading of a word by a peripheral processor would get.
    fn answer_to_read(&self, at: u32) -> Answer
        ensures { result ≡ answer_of self.now (PpRead at) }
    {
        let size = self.state.memory.size();
        match judge_access(self.accessed, &self.in_flight, size, at) {
            Ok(()) => Ok(Done::Word(self.state.memory.load(at))),
            Err(refusal) => Err(refusal),
        }
    }

    /// The answer that an event would get now. The machine doesn't change. `Ask`, `PpRead` and `PpWrite` allocate
    /// memory, so they may then be refused with `OutOfMemory`, which this call never foretells.
    ///
    /// # Errors
    /// The first refusal that applies, in the order of their numbers.
    pub fn judge(&self, event: Event) -> Answer
        ensures { result ≡ answer_of self.now event }
    {
        let size = self.state.memory.size();
        match event {
            Event::Issue => self.answer_to_issue(),
            Event::Read(unit) => made(&self.in_flight.may_read(unit)),
            Event::Finish(unit) => made(&judge_finish(&self.in_flight, unit)),
            Event::Store(unit) => made(&self.may_store(unit)),
            Event::Accept(place) => made(&self.in_flight.may_accept(place)),
            Event::Return(channel) => made(&self.in_flight.may_return(channel)),
            Event::BankFree(bank) => self.answer_to_release(bank),
            Event::Ask(at) => made(&judge_ask(self.asked, &self.request, size, at)),
            Event::Exchange => made(&judge_exchange(&self.request, &self.in_flight, &self.state)),
            Event::PpRead(at) => self.answer_to_read(at),
            Event::PpWrite(at, _) => made(&judge_access(self.accessed, &self.in_flight, size, at)),
        }
    }
}

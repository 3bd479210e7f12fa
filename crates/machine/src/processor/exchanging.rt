//! The events of exchanges: `Ask` and `Exchange`.

ghost use Rattle.program_order.specs.declared.event.Event.TheVariants.{Ask, Exchange};
ghost use Rattle.machine.specs.OneEvent.{IsEvent};

use crate::changing::exchange;
use crate::judging::{judge_ask, judge_exchange};
use crate::processor::made;
use crate::{Answer, Done, Machine};
use instructions::Refusal;
use relocation::PACKAGE_WORDS;

/// The log entries that a request reserves: one for an instruction, one for the exchange and one for an instruction
/// after it. Issues and exchanges then allocate no memory.
const REQUEST_ROOM: u32 = 3;

impl Machine {
    /// Asks for an exchange: the event `Ask`. Reserves three entries in the log, so that issues and exchanges allocate
    /// no memory.
    ///
    /// # Errors
    /// The first that applies: `Budget`, `ExchangeBusy`, `PackageRange` or `OutOfMemory`. The machine is then
    /// unchanged.
    pub fn ask(&mut self, at: u32) -> Answer
        ensures { IsEvent self.old (Ask at) result self.new }
    {
        let size = self.state.memory.size();
        judge_ask(self.asked, &self.request, size, at)?;
        if self.log.reserve(REQUEST_ROOM).is_err() {
            return Err(Refusal::OutOfMemory);
        }
        self.request = Some(at);
        self.asked += 1;
        Ok(Done::Made)
    }

    /// Makes the exchange that was asked for: the event `Exchange`.
    ///
    /// # Errors
    /// The first that applies: `Nothing`, `NotDrained` or `MidWord`. The machine is then unchanged.
    pub fn exchange(&mut self) -> Answer
        ensures { IsEvent self.old Exchange result self.new }
    {
        let judged = judge_exchange(&self.request, &self.in_flight, &self.state);
        if let Ok(at) = &judged {
            self.saved
                .save_before_write(&self.state.memory, *at, PACKAGE_WORDS);
            exchange(&mut self.state, *at);
            self.log.exchanged(*at);
            self.request = None;
        }
        made(&judged)
    }
}

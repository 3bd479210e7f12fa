//! The events of memory: `Accept`, `Return` and `BankFree`.

ghost use Rattle.program_order.specs.declared.event.Event.TheVariants.{Accept, Return, BankFree};
ghost use Rattle.machine.specs.OneEvent.{IsEvent};

use crate::changing::perform;
use crate::processor::made;
use crate::{Answer, Machine};
use instructions::Reg;

impl Machine {
    /// Accepts the reference in a place of the hopper, 0 to 3, and makes its bank busy: the event `Accept`.
    ///
    /// # Errors
    /// The first that applies: `Nothing`, `BankBusy` or `OlderAtAddress`. The machine is then unchanged.
    pub fn accept(&mut self, place: u8) -> Answer
        ensures { IsEvent self.old (Accept place) result self.new }
    {
        let accepted = self.in_flight.accept(place, &self.state.memory);
        if let Ok(reference) = &accepted {
            perform(&mut self.state, &mut self.saved, reference);
        }
        made(&accepted)
    }

    /// Writes the word of the load in a channel, 1 to 5, to its register: the event `Return`.
    ///
    /// # Errors
    /// The first that applies: `Nothing` or `ResultHeld`. The machine is then unchanged.
    pub fn return_load(&mut self, channel: u8) -> Answer
        ensures { IsEvent self.old (Return channel) result self.new }
    {
        let returned = self.in_flight.return_load(channel);
        if let Ok(arrival) = &returned {
            self.state
                .registers
                .set(Reg::X(arrival.channel), arrival.word);
        }
        made(&returned)
    }

    /// Frees a bank, 0 to 31: the event `BankFree`.
    ///
    /// # Errors
    /// `Nothing` if the bank isn't busy. The machine is then unchanged.
    pub fn bank_free(&mut self, bank: u8) -> Answer
        ensures { IsEvent self.old (BankFree bank) result self.new }
    {
        made(&self.in_flight.bank_free(bank))
    }
}

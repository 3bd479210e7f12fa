//! The event `Issue`.

ghost use Rattle.program_order.specs.declared.event.Event.TheVariants.{Issue};
ghost use Rattle.machine.specs.OneEvent.{IsEvent};

use crate::judging::judge_issue;
use crate::{Answer, Done, Machine, Note};
use sequential::Fetched;

impl Machine {
    /// Issues the next instruction: the event `Issue`.
    ///
    /// # Errors
    /// The first that applies: `Halted`, `Faulted`, `Budget`, `BranchPending`, `ExchangeWaiting`, `FetchWait`,
    /// `UnitBusy` or `ResultReserved`. The machine is then unchanged.
    pub fn issue(&mut self) -> Answer
        ensures { IsEvent self.old Issue result self.new }
    {
        let judged = judge_issue(
            &self.state,
            &self.in_flight,
            &self.request,
            self.budget,
            self.log.issues(),
        );
        let fetched = match judged {
            Ok(fetched) => fetched,
            Err(refusal) => return Err(refusal),
        };
        let note = match fetched {
            Fetched::Halting(halt, position) => {
                self.state.position = position;
                self.state.halt = Some(halt);
                None
            }
            Fetched::Passing(position) => {
                self.state.position = position;
                None
            }
            Fetched::Taking(instr, position) => {
                let (unit, number) = self.in_flight.reserve(&instr, self.state.position.p)?;
                self.state.position = position;
                Some(Note { unit, number })
            }
        };
        self.log.issued_many(1);
        Ok(Done::Issued(note))
    }
}

//! The events of a unit: `Read`, `Finish` and `Store`.

ghost use Rattle.std.specs.Prelude.{◌≡◌, IfOk, MatchResult};
ghost use Rattle.program_order.specs.declared.event.Event.TheVariants.{Read, Finish, Store};
ghost use Rattle.in_flight.specs.Tests.{refusal_in};
ghost use Rattle.program_order.specs.Events.{allowed, after};
ghost use Rattle.machine.specs.OneEvent.{IsEvent};
ghost use Rattle.machine.specs.inner.Storing.{IsStoreOf};

use crate::judging::judge_finish;
use crate::processor::made;
use crate::{Answer, Machine};
use in_flight::{Located, Relocated, Stage};
use instructions::{Refusal, Unit};
use sequential::Work;
use unit_ops::value;

impl Machine {
    /// Reads all operands of a unit in one step.
    pub(crate) fn read_unit(&mut self, unit: Unit) -> Answer
        ensures { IsEvent self.old (Read unit) result self.new }
    {
        made(&self.in_flight.read(unit, &self.state.registers))
    }

    /// Finishes a unit, which then has its value.
    pub(crate) fn finish_unit(&mut self, unit: Unit) -> Answer
        ensures { IsEvent self.old (Finish unit) result self.new }
    {
        let judged = judge_finish(&self.in_flight, unit);
        if let Ok((pending, operands)) = &judged {
            self.in_flight.finish(unit, value(&pending.instr, operands));
        }
        made(&judged)
    }

    /// What the store of a unit's result does: its work, and the reference that it makes, if it makes one.
    ///
    /// # Errors
    /// The first that applies: `Nothing`, `ResultHeld`, `HopperFull` or `OutOfTurn`.
    pub(crate) fn may_store(&self, unit: Unit) -> Result<(Work, Option<Relocated>), Refusal>
        ensures answer { allowed self.now (Store unit) ≡ refusal_in result }
        ensures work { IfOk result (λ store. IsStoreOf self.now unit store.0 store.1) }
    {
        let Some(Located { pending, answer }) = self.in_flight.find(unit) else {
            return Err(Refusal::Nothing);
        };
        let Stage::Finished(value) = answer else {
            return Err(Refusal::Nothing);
        };
        let work = Work::of(&pending.instr, &value);
        let size = self.state.memory.size();
        let reference = Relocated::of(&self.state.area, size, &work.reference);
        self.in_flight.may_store(unit, &reference)?;
        Ok((work, reference))
    }

    /// Stores a unit's result, makes its jump or its reference, and releases the unit.
    pub(crate) fn store_result(&mut self, unit: Unit) -> Result<(), Refusal>
        ensures answer { allowed self.old (Store unit) ≡ refusal_in result }
        ensures after { MatchResult result (λ _. self.new ≡ after self.old (Store unit))
            (λ refusal. self.new ≡ self.old) }
    {
        let (work, reference) = match self.may_store(unit) {
            Ok(store) => store,
            Err(refusal) => return Err(refusal),
        };
        self.state.write_and_jump(&work);
        self.in_flight.leave(unit, &reference);
        Ok(())
    }

    /// Stores a unit's result, makes its jump or its reference, and releases the unit.
    pub(crate) fn store_unit(&mut self, unit: Unit) -> Answer
        ensures { IsEvent self.old (Store unit) result self.new }
    {
        self.keeps_replay();
        made(&self.store_result(unit))
    }
}

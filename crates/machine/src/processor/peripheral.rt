//! The events of peripheral processors: `PpRead` and `PpWrite`.

ghost use Rattle.program_order.specs.declared.event.Event.TheVariants.{PpRead, PpWrite};
ghost use Rattle.machine.specs.OneEvent.{IsEvent};

use crate::changing::perform;
use crate::judging::judge_access;
use crate::{Answer, Done, Machine};
use hopper::Reference;
use instructions::Refusal;
use relocation::Access;
use word60::Word60;

/// The log entries that an access reserves: its own, and one each for an instruction, an exchange and an instruction
/// after it. Issues and exchanges then allocate no memory.
const ACCESS_ROOM: u32 = 4;

impl Machine {
    /// Reads the word at an absolute address for a peripheral processor: the event `PpRead`. Reserves room in the log
    /// for what may follow.
    ///
    /// # Errors
    /// The first that applies: `Budget`, `PeripheralWait`, `PeripheralRange` or `OutOfMemory`. The machine is then
    /// unchanged.
    pub fn pp_read(&mut self, at: u32) -> Answer
        ensures { IsEvent self.old (PpRead at) result self.new }
    {
        let size = self.state.memory.size();
        judge_access(self.accessed, &self.in_flight, size, at)?;
        if self.log.reserve(ACCESS_ROOM).is_err() {
            return Err(Refusal::OutOfMemory);
        }
        let word = self.state.memory.load(at);
        self.log.read_at(at);
        self.accessed += 1;
        Ok(Done::Word(word))
    }

    /// Writes a word to an absolute address for a peripheral processor, after saving the page of that word: the event
    /// `PpWrite`. Reserves room in the log for what may follow.
    ///
    /// # Errors
    /// The first that applies: `Budget`, `PeripheralWait`, `PeripheralRange` or `OutOfMemory`. The machine is then
    /// unchanged.
    pub fn pp_write(&mut self, at: u32, word: Word60) -> Answer
        ensures { IsEvent self.old (PpWrite at word) result self.new }
    {
        let size = self.state.memory.size();
        judge_access(self.accessed, &self.in_flight, size, at)?;
        if self.log.reserve(ACCESS_ROOM).is_err() {
            return Err(Refusal::OutOfMemory);
        }
        let reference = Reference {
            address: at,
            access: Access::Store(word),
        };
        perform(&mut self.state, &mut self.saved, &reference);
        self.log.wrote(at, word);
        self.accessed += 1;
        Ok(Done::Made)
    }
}

ghost use Rattle.std.specs.Prelude.{◌≡◌, ◌<◌};
ghost use Rattle.sequential.specs.State.{bounds_of};
ghost use Rattle.sequential.specs.Step.{at_instruction, fetched_by, word_seen, fetch};

use crate::{ProgramPosition, State};
use instruction_table::{Decoded, decode};
use instructions::{Halt, Instr};
use relocation::relocate;
use word60::Word60;

/// The effect of the next instruction on the machine before any unit works.
#[derive(Clone, Copy, Debug, Drop, PartialEq, Eq)]
pub enum Fetched {
    /// The instruction halts the machine, which stays at this position.
    Halting(Halt, ProgramPosition),
    /// The instruction does nothing, and the next one is at this position.
    Passing(ProgramPosition),
    /// The instruction goes to a unit, and the next one is at this position.
    Taking(Instr, ProgramPosition),
}

/// The effect of a decoded instruction, given its position and its word.
#[tactic(auto, unfolding(crate::specs::Step::fetched_by, crate::specs::Step::classify))]
#[inline(always)]
pub fn fetched_by(position: ProgramPosition, word: Word60, reading: Decoded) -> Fetched
    ensures { result ≡ fetched_by position.p position.parcel word reading }
{
    let at_instruction = ProgramPosition {
        held: Some(word),
        ..position
    };
    match reading {
        Decoded::Legal(Instr::Stop, _) => Fetched::Halting(Halt::Stop, at_instruction),
        Decoded::Legal(instr, next) => {
            let after = ProgramPosition::after_parcel(position.p, word, next);
            match instr {
                Instr::Pass => Fetched::Passing(after),
                _ => Fetched::Taking(instr, after),
            }
        }
        Decoded::Refused(op) => Fetched::Halting(Halt::Illegal(op), at_instruction),
        Decoded::Straddle => Fetched::Halting(Halt::Straddle, at_instruction),
    }
}

impl State {
    /// The word that instructions are taken from: the held word or, if no word is held, the word at P, if P is in
    /// range.
    #[tactic(auto, unfolding(crate::proofs::Opened::word_to_take))]
    #[inline(always)]
    pub(crate) fn word_here(&self) -> Option<Word60>
        ensures { result ≡ word_seen (bounds_of self.now) self.now.memory self.now.position.p self.now.position.held }
    {
        match self.position.held {
            Some(word) => Some(word),
            None => match relocate(
                self.position.p,
                self.area.ra,
                self.area.fl,
                self.memory.size(),
            ) {
                Some(address) => Some(self.memory.load(address)),
                None => None,
            },
        }
    }

    /// Fetches the next instruction. A fetch out of range halts.
    #[tactic(auto, unfolding(crate::specs::Step::fetch, crate::specs::Step::fetched_from))]
    #[inline(always)]
    pub fn fetch(&self) -> Fetched
        ensures { result ≡ fetch (bounds_of self.now) self.now.memory self.now.position }
    {
        match self.word_here() {
            Some(word) => fetched_by(
                self.position,
                word,
                decode(word, self.position.parcel.get()),
            ),
            None => Fetched::Halting(Halt::FetchRange, ProgramPosition::at(self.position.p)),
        }
    }
}

ghost use Rattle.std.specs.Prelude.{◌≡◌, ◌<◌, IfSome, length};
ghost use Rattle.instructions.specs.Shape.{shape_of, sets_of};
ghost use Rattle.unit_ops.specs.Values.{value_of};
ghost use Rattle.sequential.specs.State.{bounds_of};
ghost use Rattle.instruction_table.specs.Decoding.{digits_at, reading_at};
ghost use Rattle.sequential.specs.Step.{do_fetched, do_instruction, fetched_by, step};
ghost use Rattle.sequential.specs.Work.{fault_of, refer_at, refer, written};

use crate::fetching::fetched_by;
use crate::{Fetched, ProgramPosition, ProgramReference, State, Work, operands};
use instruction_table::{decode_as, first_digits};
use instructions::{Halt, Instr, Reg};
use relocation::{Access, Area, relocate};
use unit_ops::{Operands, UnitValue, value};
use word60::{Word18, Word60};

/// The value of an instruction. A pass and a stop have no unit, and the value +0.
#[inline(always)]
fn computed(instr: &Instr, operands: &Operands) -> UnitValue
    ensures { result ≡ value_of instr.now operands.now }
{
    match *instr {
        Instr::Stop | Instr::Pass => UnitValue::Index(Word18::default()),
        _ => value(instr, operands),
    }
}

/// Executes the next instruction of a word, with a match arm for each pair of opcode digits.
macro_rules! take_by_digits {
    ($state:ident, $word:ident, $digits:expr => $($known:literal)*) => {
        match $digits {
            $($known => $state.take_as::<$known>($word),)*
            _ => unreachable!(),
        }
    };
}

impl State {
    /// Makes a reference to a relocated address. Out of range, a load gives +0 and a store writes nothing.
    #[tactic(auto, unfolding(crate::proofs::Opened::reference_cases))]
    #[inline(always)]
    fn refer_at(&mut self, address: Option<u32>, access: &Access)
        requires { IfSome address (λ a. a < length self.old.memory) }
        ensures { self.new ≡ refer_at self.old address access.now }
    {
        match (address, *access) {
            (Some(address), Access::Load(n)) => {
                self.registers.set(Reg::X(n), self.memory.load(address));
            }
            (None, Access::Load(n)) => self.registers.set(Reg::X(n), Word60::default()),
            (Some(address), Access::Store(word)) => self.memory.store(address, word),
            (None, Access::Store(_)) => {}
        }
    }

    /// Makes a reference, if there is one.
    #[tactic(auto, unfolding(crate::specs::Work::refer, crate::specs::State::bounds_of, crate::specs::State::absolute))]
    #[inline(always)]
    fn refer(&mut self, reference: &Option<ProgramReference>)
        ensures { self.new ≡ refer (bounds_of self.old) self.old reference.now }
    {
        if let Some(reference) = reference {
            let size = self.memory.size();
            let address = relocate(reference.address, self.area.ra, self.area.fl, size);
            self.refer_at(address, &reference.access);
        }
    }

    /// Writes the result of an instruction, jumps, and sets the fault flag if the reference is out of range and the
    /// exit mode says so. The flag stays set. The caller makes the reference itself.
    #[tactic(auto, unfolding(crate::specs::Work::put_any, crate::specs::Work::fault_of, crate::specs::Position::after_jump, crate::specs::State::stops_at_fault, crate::specs::State::bounds_of, crate::specs::State::absolute))]
    #[inline(always)]
    pub fn write_and_jump(&mut self, work: &Work)
        ensures { self.new ≡ written self.old work.now (fault_of (bounds_of self.old) work.now.reference) }
    {
        if let Some(register) = work.register {
            self.registers.set(register, work.number);
        }
        if let Some(to) = work.jump {
            self.position = ProgramPosition::at(to);
        }
        // Bit 010000 (octal) of the exit mode: a reference out of range sets the flag.
        if let Some(reference) = work.reference
            && (self.area.mode.get() >> 12) % 2 == 1
        {
            let Area { ra, fl, .. } = self.area;
            let address = relocate(reference.address, ra, fl, self.memory.size());
            self.fault = self.fault || address.is_none();
        }
    }

    /// Executes an instruction of the word at the address `at`, including its reference.
    #[inline(always)]
    fn perform(&mut self, instr: &Instr, at: Word18)
        ensures { self.new ≡ do_instruction (bounds_of self.old) self.old instr.now at }
    {
        let value = computed(instr, &operands(instr, at, &self.registers));
        let work = Work::of(instr, &value);
        self.write_and_jump(&work);
        self.refer(&work.reference);
    }

    /// Carries out a fetched instruction.
    #[tactic(auto, unfolding(crate::proofs::Opened::fetched_cases))]
    #[inline(always)]
    fn make(&mut self, fetched: Fetched)
        ensures { self.new ≡ do_fetched (bounds_of self.old) self.old self.old.position.p fetched }
    {
        let at = self.position.p;
        match fetched {
            Fetched::Halting(halt, position) => {
                self.position = position;
                self.halt = Some(halt);
            }
            Fetched::Passing(position) => self.position = position,
            Fetched::Taking(instr, position) => {
                self.position = position;
                self.perform(&instr, at);
            }
        }
    }

    /// Executes the next instruction of this word, whose first two digits are `DIGITS`. In the copy of this function
    /// for each `DIGITS` the compiler knows the kind of instruction and omits the code for all others.
    #[inline(always)]
    fn take_as<const DIGITS: u16>(&mut self, word: Word60)
        requires { DIGITS ≡ digits_at word self.old.position.parcel }
        ensures { self.new ≡ do_fetched (bounds_of self.old) self.old self.old.position.p
            (fetched_by self.old.position.p self.old.position.parcel word (reading_at word self.old.position.parcel)) }
    {
        let reading = decode_as(word, self.position.parcel.get(), DIGITS);
        self.make(fetched_by(self.position, word, reading));
    }

    /// Executes the next instruction of this word.
    #[inline(always)]
    fn take(&mut self, word: Word60)
        ensures { self.new ≡ do_fetched (bounds_of self.old) self.old self.old.position.p
            (fetched_by self.old.position.p self.old.position.parcel word (reading_at word self.old.position.parcel)) }
    {
        take_by_digits! {
            self, word, first_digits(word, self.position.parcel.get()) =>
            0o00 0o01 0o02 0o03 0o04 0o05 0o06 0o07
            0o10 0o11 0o12 0o13 0o14 0o15 0o16 0o17
            0o20 0o21 0o22 0o23 0o24 0o25 0o26 0o27
            0o30 0o31 0o32 0o33 0o34 0o35 0o36 0o37
            0o40 0o41 0o42 0o43 0o44 0o45 0o46 0o47
            0o50 0o51 0o52 0o53 0o54 0o55 0o56 0o57
            0o60 0o61 0o62 0o63 0o64 0o65 0o66 0o67
            0o70 0o71 0o72 0o73 0o74 0o75 0o76 0o77
        }
    }
}

/// Makes one step. A halted machine doesn't change. Otherwise the next instruction is fetched, and is executed or halts
/// the machine. A set fault flag doesn't stop this machine.
#[tactic(auto, unfolding(crate::proofs::Opened::step_cases))]
#[inline(always)]
pub fn step(state: &mut State)
    ensures { state.new ≡ step state.old }
{
    if state.halt.is_some() {
        return;
    }
    match state.word_here() {
        Some(word) => state.take(word),
        None => {
            state.position = ProgramPosition::at(state.position.p);
            state.halt = Some(Halt::FetchRange);
        }
    }
}

ghost use Rattle.std.specs.Prelude.{◌≡◌, MatchResult, true, false, length};
ghost use Rattle.relocation.specs.Relocation.{package_fits};
ghost use Rattle.instructions.specs.declared.refusal.Refusal.TheVariants.{OutOfMemory, PackageRange};
ghost use Rattle.sequential.specs.Replay.{boot};
ghost use Rattle.sequential.specs.Swap.{swap, package_of};

use crate::ProgramPosition;
use exchange_package::Package;
use instructions::{Halt, Refusal};
use registers::RegisterFile;
use relocation::{Area, Storage};

/// The state of the machine that executes one instruction at a time.
#[derive(Drop)]
pub struct State {
    /// X0 to X7, A0 to A7 and B1 to B7.
    pub registers: RegisterFile,
    /// Central memory.
    pub memory: Storage,
    /// P, the next parcel and the held word.
    pub position: ProgramPosition,
    /// RA, FL and the exit mode.
    pub area: Area,
    /// The reason why the machine is halted, `None` while it runs.
    pub halt: Option<Halt>,
    /// The fault flag, set by a reference out of range if the exit mode has bit 010000 (octal). Only an exchange clears
    /// it.
    pub fault: bool,
}

impl State {
    /// The machine just after boot: registers, P, RA, FL and mode +0, halted by a stop.
    #[tactic(auto, unfolding(crate::specs::Replay::boot))]
    pub fn boot(memory: Storage) -> State
        ensures { result ≡ boot memory }
    {
        State {
            registers: RegisterFile::default(),
            memory,
            position: ProgramPosition::default(),
            area: Area::default(),
            halt: Some(Halt::Stop),
            fault: false,
        }
    }

    /// Copies the state.
    ///
    /// # Errors
    /// `OutOfMemory` if memory runs out.
    pub fn copy(&self) -> Result<State, Refusal>
        ensures { MatchResult result (λ state. state ≡ self.now) (λ refusal. refusal ≡ OutOfMemory) }
    {
        Ok(State {
            registers: self.registers,
            memory: self.memory.copy()?,
            position: self.position,
            area: self.area,
            halt: self.halt,
            fault: self.fault,
        })
    }

    /// The package that an exchange leaves in memory.
    #[tactic(auto, unfolding(crate::specs::Swap::package_of))]
    fn to_package(&self) -> Package
        ensures { result ≡ package_of self.now }
    {
        Package {
            p: self.position.p,
            registers: self.registers,
            area: self.area,
            halted: self.halt.is_some(),
            fault: self.fault,
        }
    }

    /// The exchange jump: exchanges the registers and the sixteen words at an absolute address. The new program starts
    /// at parcel 0, running, without a fault.
    ///
    /// # Errors
    /// `PackageRange` if the sixteen words aren't all in memory; the state doesn't change then.
    #[tactic(auto, unfolding(crate::specs::Swap::swap, crate::specs::Swap::program_entered))]
    pub fn exchange(&mut self, at: u32) -> Result<(), Refusal>
        ensures answer { MatchResult result
            (λ _. package_fits at (length self.old.memory) ≡ true)
            (λ refusal. (package_fits at (length self.old.memory) ≡ false) × (refusal ≡ PackageRange)) }
        ensures after { MatchResult result (λ _. self.new ≡ swap at self.old) (λ _. self.new ≡ self.old) }
    {
        let outgoing = self.to_package();
        let Ok(incoming) = Package::swap(&mut self.memory, at, &outgoing) else {
            return Err(Refusal::PackageRange);
        };
        self.registers = incoming.registers;
        self.position = ProgramPosition::at(incoming.p);
        self.area = incoming.area;
        self.halt = None;
        self.fault = false;
        Ok(())
    }
}

ghost use Rattle.std.specs.Prelude.{◌≡◌};
ghost use Rattle.registers.specs.Registers.{get, put};

use instructions::Reg;
use word60::{Word18, Word60};

/// The registers of the central processor (Control Data 60100000, operating registers).
#[derive(Clone, Copy, Debug, Default, PartialEq, Eq)]
pub struct RegisterFile {
    /// X0 to X7.
    pub x: [Word60; 8],
    /// A0 to A7.
    pub a: [Word18; 8],
    /// B1 to B7. B0 isn't stored, because it is always +0.
    pub b: [Word18; 7],
}

impl RegisterFile {
    /// The content of a register. A and B registers are in the low 18 bits.
    #[tactic(auto, unfolding(crate::specs::Registers::get))]
    #[inline(always)]
    pub fn get(&self, register: Reg) -> Word60
        ensures { result ≡ get self.now register }
    {
        match register {
            Reg::X(n) => self.x[usize::from(n.get())],
            Reg::A(n) => self.a[usize::from(n.get())].widen(),
            Reg::B(n) => match n.get() {
                0 => Word60::default(),
                number => self.b[usize::from(number) - 1].widen(),
            },
        }
    }

    /// Writes a register. An A or B register takes the low 18 bits of the word, and B0 doesn't change.
    #[tactic(auto, unfolding(crate::specs::Registers::put))]
    #[inline(always)]
    pub fn set(&mut self, register: Reg, word: Word60)
        ensures { self.new ≡ put self.old register word }
    {
        match register {
            Reg::X(n) => self.x[usize::from(n.get())] = word,
            Reg::A(n) => self.a[usize::from(n.get())] = word.low18(),
            Reg::B(n) => match n.get() {
                0 => {}
                number => self.b[usize::from(number) - 1] = word.low18(),
            },
        }
    }
}

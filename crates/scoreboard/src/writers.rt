ghost use Rattle.std.specs.Prelude.{option_to_list};
ghost use Rattle.std.specs.Prelude.{◌≡◌, ◌≤◌, None, length, slice_get, IfSome, replicate};
ghost use Rattle.scoreboard.specs.Writers.{IsRegister, writer_at, writer_if, set_each};
ghost use Rattle.instructions.specs.Each.{Each};
ghost use Rattle.scoreboard.specs.inner.View.{AreProducers};

use crate::Writer;
use instructions::Reg;

/// The writer of each register, `None` if no result for it is still to come (Thornton, result register designators).
#[derive(Clone, Copy, Debug, Drop, PartialEq, Eq)]
pub struct Writers {
    /// The writers of X0 to X7.
    pub x: [Option<Writer>; 8],
    /// The writers of A0 to A7.
    pub a: [Option<Writer>; 8],
    /// The writers of B0 to B7. B0 has no writer, because it is never a result.
    pub b: [Option<Writer>; 8],
}

impl Writers {
    /// No register has a writer.
    pub(crate) fn new() -> Writers
        ensures { result ≡ record { x = replicate 8 None; a = replicate 8 None; b = replicate 8 None } }
    {
        Writers {
            x: [None; 8],
            a: [None; 8],
            b: [None; 8],
        }
    }

    /// Sets the writer of the register, if there is a register.
    #[tactic(auto, unfolding(crate::specs::Writers::set_writer))]
    pub(crate) fn set(&mut self, register: Option<Reg>, writer: Option<Writer>)
        ensures value { self.new ≡ set_each self.old (option_to_list register) writer }
        ensures registers { Each IsRegister (option_to_list register) }
    {
        let Some(register) = register else {
            return;
        };
        match register {
            Reg::X(n) => self.x[usize::from(n.get())] = writer,
            Reg::A(n) => self.a[usize::from(n.get())] = writer,
            Reg::B(n) => self.b[usize::from(n.get())] = writer,
        }
    }

    /// The writer of each of the registers. There are at most three registers.
    #[tactic(auto, unfolding(crate::proofs::Opened::writer_of_one))]
    pub(crate) fn of(&self, registers: &[Reg]) -> [Option<Writer>; 3]
        requires { length registers.now ≤ 3 }
        ensures writers { AreProducers (writer_at self.now) registers.now result }
        ensures registers { Each IsRegister registers.now }
    {
        let at = |index: usize|
            ensures value { result ≡ writer_if (writer_at self.entry.now) (slice_get registers.entry.now index) }
            ensures register { IfSome (slice_get registers.entry.now index) IsRegister }
        {
            match registers.get(index) {
                Some(Reg::X(n)) => self.x[usize::from(n.get())],
                Some(Reg::A(n)) => self.a[usize::from(n.get())],
                Some(Reg::B(n)) => self.b[usize::from(n.get())],
                None => None,
            }
        };
        [at(0), at(1), at(2)]
    }
}

ghost use Rattle.std.specs.Prelude.{◌≡◌};
ghost use Rattle.instructions.specs.Shape.{shape_of};
ghost use Rattle.sequential.specs.Work.{IsWorkOf, operand_at, operands, link_word};

use instructions::{Instr, MemoryUse, Reg, operand_registers};
use registers::RegisterFile;
use relocation::Access;
use unit_ops::{Operands, UnitValue};
use word60::{Word18, Word60};

/// A reference to a program's own address.
#[derive(Clone, Copy, Debug, Drop, PartialEq, Eq)]
pub struct ProgramReference {
    /// The address, counted from RA.
    pub address: Word18,
    /// The load or store at that address.
    pub access: Access,
}

/// The operands of an instruction of the word at the address `position`.
#[tactic(auto, unfolding(crate::specs::Work::operands, crate::specs::Work::operand_at))]
#[inline(always)]
pub fn operands(instr: &Instr, position: Word18, registers: &RegisterFile) -> Operands
    ensures { result ≡ operands instr.now position registers.now }
{
    let from = operand_registers(instr);
    // The content of an operand register, +0 if there is no operand.
    let content = |register: Option<Reg>|
        ensures { result ≡ operand_at registers.entry.now register }
    {
        match register {
            None => Word60::default(),
            Some(register) => registers.get(register),
        }
    };
    Operands {
        first: content(from.first),
        second: content(from.second),
        outgoing: content(from.outgoing),
        place: position,
    }
}

/// The link word of RJ: 0400, the return address and thirty zeros.
#[tactic(auto, unfolding(crate::specs::Work::link_word))]
#[inline(always)]
fn link_word(back: Word18) -> Word60
    ensures { result ≡ link_word back }
{
    Word60::from_bits(0o0400 * 0x1_0000_0000_0000 + u64::from(back.get()) * 0x4000_0000)
}

/// The effects of an instruction's value.
#[derive(Clone, Copy, Debug, Drop, PartialEq, Eq)]
pub struct Work {
    /// The register to write, if there is one.
    pub register: Option<Reg>,
    /// The number to write there. For a reference, this is the address.
    pub number: Word60,
    /// The address to jump to, if the instruction jumps.
    pub jump: Option<Word18>,
    /// The reference, if the instruction makes one.
    pub reference: Option<ProgramReference>,
}

impl Work {
    /// The effects of an instruction with this value. SA1 to SA5 load, SA6 and SA7 store, RJ stores its link word and
    /// continues after it (Control Data 60100000), and all others make no reference.
    #[tactic(auto, unfolding(crate::proofs::Opened::work_of_a_value))]
    #[inline(always)]
    pub fn of(instr: &Instr, value: &UnitValue) -> Work
        ensures { IsWorkOf (shape_of instr.now) value.now result }
    {
        let (no_number, nowhere) = (Word60::default(), Word18::default());
        let (number, address, word, to) = match *value {
            UnitValue::Word(word) => (word, nowhere, no_number, None),
            UnitValue::Index(index) => (index.widen(), nowhere, no_number, None),
            UnitValue::Load(address) => (address.widen(), address, no_number, None),
            UnitValue::Store(address, word) => (address.widen(), address, word, None),
            UnitValue::Jump(to) => (no_number, nowhere, no_number, to),
            UnitValue::Link { at, back } => (no_number, at, link_word(back), Some(at.next())),
        };
        let memory = instr.memory();
        let reference = match memory {
            None => None,
            Some(memory) => Some(ProgramReference {
                address,
                access: match memory {
                    MemoryUse::Loads(n) => Access::Load(n),
                    MemoryUse::Stores(_) | MemoryUse::Links => Access::Store(word),
                },
            }),
        };
        Work {
            register: instr.sets(),
            number,
            jump: match to {
                Some(to) if instr.is_branch() => Some(to),
                _ => None,
            },
            reference,
        }
    }
}

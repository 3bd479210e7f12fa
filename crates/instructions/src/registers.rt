ghost use Rattle.std.specs.Prelude.{◌≡◌, ◌<◌, ◌≤◌, ◌+◌, [], Some, None};
ghost use Rattle.std.specs.List.{list_any};
ghost use Rattle.arrayvec.specs.ArrayVec.{array_vec_len};
ghost use Rattle.instructions.specs.Shape.{shape_of, results as results_of_shape};
ghost use Rattle.instructions.specs.Operands.{uses, with_source, sources_of, base_reg, pair_reg, reg_eq};

use crate::{Addends, Base, Digit, Instr, MemoryUse, Pair, Reg, Target, UnitKind};
use arrayvec::ArrayVec;

/// B0, which is always zero.
impl Default for Reg {
    ghost use Rattle.instructions.specs.declared.instr.Reg.TheVariants.{B};

    ghost is_default = { λ r. r ≡ B 0 };

    fn default() -> Self {
        Reg::B(Digit::default())
    }
}

/// The kind of unit that an instruction is issued to, or `None` for a pass or a stop.
pub fn unit_kind(instr: &Instr) -> Option<UnitKind>
    ensures { result ≡ (uses instr.now).unit }
{
    match instr {
        Instr::Stop | Instr::Pass => None,
        Instr::ReturnJump { .. }
        | Instr::Jump { .. }
        | Instr::BranchX { .. }
        | Instr::BranchB { .. } => { Some(UnitKind::Branch) }
        Instr::Copy { .. } | Instr::Invert { .. } | Instr::Logical { .. } => Some(
            UnitKind::Boolean,
        ),
        Instr::ShiftBy { .. } | Instr::ShiftNominal { .. } | Instr::Mask { .. } => Some(
            UnitKind::Shift,
        ),
        Instr::LongAdd { .. } => Some(UnitKind::LongAdd),
        Instr::CountOnes { .. } => Some(UnitKind::Divide),
        Instr::Increment { .. } => Some(UnitKind::Increment),
    }
}

/// The registers that an instruction sets: at most two, A before X, never B0.
pub fn results(instr: &Instr) -> ArrayVec<Reg, 2>
    ensures uses { result.items ≡ (uses instr.now).results }
    ensures shape { result.items ≡ results_of_shape (shape_of instr.now) }
{
    let mut results = ArrayVec::new();
    if let Some(register) = instr.sets() {
        results.push(register);
    }
    // A load, SA1 to SA5, writes Xi at its return.
    let loaded = match *instr {
        Instr::Increment { target, i, .. } => match target.memory(i) {
            Some(MemoryUse::Loads(_)) => Some(Reg::X(i)),
            _ => None,
        },
        _ => None,
    };
    if let Some(register) = loaded {
        results.push(register);
    }
    results
}

impl Base {
    /// Register j of this kind.
    #[inline(always)]
    fn register(self, j: Digit) -> Reg
        ensures { result ≡ base_reg self j }
    {
        match self {
            Base::A => Reg::A(j),
            Base::B => Reg::B(j),
            Base::X => Reg::X(j),
        }
    }
}

impl Pair {
    /// The first of the two registers.
    #[inline(always)]
    fn register(self, j: Digit) -> Reg
        ensures { result ≡ pair_reg self j }
    {
        match self {
            Pair::XPlusB => Reg::X(j),
            Pair::APlusB | Pair::AMinusB => Reg::A(j),
            Pair::BPlusB | Pair::BMinusB => Reg::B(j),
        }
    }
}

/// Adds a register, if there is one, unless the list has it or it is B0.
fn add(sources: &mut ArrayVec<Reg, 3>, register: Option<Reg>)
    requires { array_vec_len sources.old < 3 }
    ensures items { sources.new.items ≡ with_source sources.old.items register }
    ensures len { array_vec_len sources.new ≤ array_vec_len sources.old + 1 }
{
    let Some(register) = register else {
        return;
    };
    let is_there = sources.iter().any(
        |other|
            ensures { result ≡ reg_eq register other.now }
        { register == *other },
    );
    if register != Reg::default() && !is_there {
        sources.push(register);
    }
}

/// The registers that an instruction reads, by role. `None` means that the instruction has no such operand.
#[derive(Clone, Copy, Debug, PartialEq, Eq)]
pub struct OperandRegisters {
    /// The left operand, or the only one.
    pub first: Option<Reg>,
    /// The right operand.
    pub second: Option<Reg>,
    /// Xi of SA6 or SA7, which the instruction stores.
    pub outgoing: Option<Reg>,
}

/// The registers that the operands of an instruction come from.
#[inline(always)]
pub fn operand_registers(instr: &Instr) -> OperandRegisters
    ensures first { result.first ≡ (uses instr.now).first }
    ensures second { result.second ≡ (uses instr.now).second }
    ensures outgoing { result.outgoing ≡ (uses instr.now).outgoing }
{
    let (first, second) = match *instr {
        Instr::Stop | Instr::Pass | Instr::ReturnJump { .. } | Instr::Mask { .. } => (None, None),
        Instr::Jump { i, .. } => (Some(Reg::B(i)), None),
        Instr::BranchX { j, .. } | Instr::Copy { j, .. } => (Some(Reg::X(j)), None),
        Instr::BranchB { i, j, .. } => (Some(Reg::B(i)), Some(Reg::B(j))),
        Instr::Invert { k, .. } | Instr::CountOnes { k, .. } => (Some(Reg::X(k)), None),
        Instr::Logical { j, k, .. } | Instr::LongAdd { j, k, .. } => (
            Some(Reg::X(j)),
            Some(Reg::X(k)),
        ),
        Instr::ShiftBy { i, .. } => (Some(Reg::X(i)), None),
        Instr::ShiftNominal { j, k, .. } => (Some(Reg::B(j)), Some(Reg::X(k))),
        Instr::Increment { addends, .. } => match addends {
            Addends::Address { base, j, .. } => (Some(base.register(j)), None),
            Addends::Registers { pair, j, k } => (Some(pair.register(j)), Some(Reg::B(k))),
        },
    };
    // A store, SA6 or SA7, reads Xi for memory.
    let outgoing = match *instr {
        Instr::Increment { target, i, .. } => match target.memory(i) {
            Some(MemoryUse::Stores(_)) => Some(Reg::X(i)),
            _ => None,
        },
        _ => None,
    };
    OperandRegisters {
        first,
        second,
        outgoing,
    }
}

/// The registers that an instruction reads: its operands, then the register that a store sends to memory. At most
/// three, each once, never B0.
pub fn sources(instr: &Instr) -> ArrayVec<Reg, 3>
    ensures { result.items ≡ sources_of instr.now }
{
    let operands = operand_registers(instr);
    let mut sources = ArrayVec::new();
    add(&mut sources, operands.first);
    add(&mut sources, operands.second);
    add(&mut sources, operands.outgoing);
    sources
}

ghost use Rattle.std.specs.Prelude.{◌≡◌, option_to_list};
ghost use Rattle.instructions.specs.Shape.{shape_of, sets_of, is_branch_shape, has_reference, has_store, memory_of};
ghost use Rattle.instructions.specs.Shape.{memory_by};

use crate::{Digit, Instr, Reg, Target};

/// The reference that an instruction makes (Control Data 60100000, increment unit and return jump).
#[derive(Clone, Copy, Debug, PartialEq, Eq)]
pub enum MemoryUse {
    /// SA1 to SA5: loads the X register of this number.
    Loads(Digit),
    /// SA6 and SA7: stores the X register of this number.
    Stores(Digit),
    /// RJ: stores the link word.
    Links,
}

impl Target {
    /// The reference of an increment instruction that sets register `i`, if it makes one. This function alone decides
    /// which of SA0 to SA7 load and which store.
    #[inline(always)]
    pub fn memory(self, i: Digit) -> Option<MemoryUse>
        ensures { result ≡ memory_by self i }
    {
        match self {
            Target::A => match i.get() {
                0 => None,
                1..=5 => Some(MemoryUse::Loads(i)),
                _ => Some(MemoryUse::Stores(i)),
            },
            Target::B | Target::X => None,
        }
    }
}

impl Instr {
    /// Whether the instruction is a branch: it jumps, or may jump.
    #[tactic(auto, unfolding(crate::specs::Shape::shape_of, crate::specs::Shape::is_branch_shape))]
    #[inline(always)]
    pub fn is_branch(&self) -> bool
        ensures { result ≡ is_branch_shape (shape_of self.now) }
    {
        match *self {
            Instr::ReturnJump { .. }
            | Instr::Jump { .. }
            | Instr::BranchX { .. }
            | Instr::BranchB { .. } => true,
            _ => false,
        }
    }

    /// The reference that the instruction makes to memory. SA1 to SA7 and RJ make one.
    #[tactic(auto, unfolding(crate::specs::Shape::shape_of, crate::specs::Shape::memory_of))]
    #[inline(always)]
    pub fn memory(&self) -> Option<MemoryUse>
        ensures { result ≡ memory_of (shape_of self.now) }
    {
        match *self {
            Instr::ReturnJump { .. } => Some(MemoryUse::Links),
            Instr::Increment { target, i, .. } => target.memory(i),
            _ => None,
        }
    }

    /// Whether the instruction refers to memory: SA1 to SA7 and RJ do.
    #[tactic(auto, using(crate::proofs::MemoryUses::reference_used))]
    #[inline(always)]
    pub fn has_reference(&self) -> bool
        ensures { result ≡ has_reference (shape_of self.now) }
    {
        self.memory().is_some()
    }

    /// Whether the instruction writes memory: SA6, SA7 and RJ do.
    pub fn has_store(&self) -> bool
        ensures { result ≡ has_store (shape_of self.now) }
    {
        match self.memory() {
            None => false,
            Some(MemoryUse::Loads(_)) => false,
            Some(MemoryUse::Stores(_)) => true,
            Some(MemoryUse::Links) => true,
        }
    }

    /// The register that the instruction writes at its store event, if there is one: its result, except the X register
    /// of a load.
    #[tactic(auto, unfolding(crate::specs::Shape::shape_of, crate::specs::Shape::sets_of))]
    #[inline(always)]
    pub fn sets(&self) -> Option<Reg>
        ensures { sets_of (shape_of self.now) ≡ option_to_list result }
    {
        match *self {
            Instr::Copy { i, .. }
            | Instr::Invert { i, .. }
            | Instr::Logical { i, .. }
            | Instr::ShiftBy { i, .. }
            | Instr::ShiftNominal { i, .. }
            | Instr::LongAdd { i, .. }
            | Instr::Mask { i, .. }
            | Instr::CountOnes { i, .. } => Some(Reg::X(i)),
            Instr::Increment { target, i, .. } => match target {
                Target::X => Some(Reg::X(i)),
                Target::A => Some(Reg::A(i)),
                Target::B => match i.get() {
                    0 => None,
                    _ => Some(Reg::B(i)),
                },
            },
            _ => None,
        }
    }
}

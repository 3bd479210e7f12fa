ghost use Rattle.std.specs.Prelude.{◌≡◌, Option, Some, None, is_some, true};
ghost use Rattle.embedding.specs.declared.booted.Booted.{Booted};
ghost use Rattle.embedding.specs.Owning.{coded_machine, pointer_owns};

use crate::booted::Booted;
use crate::box_parts::BoxParts;
use std::alloc::Global;
use std::marker::Model;

/// A pointer that C keeps: to a machine on the heap, which it owns as a box does, or to nothing. `address` points to
/// bytes, because C doesn't know the type of a machine. Dropping the pointer with a machine would leak the machine.
/// Only `MachineHandle` has such a pointer, and never drops it with a machine.
#[repr(C)]
#[derive(Drop)]
pub struct OwnedPointer {
    address: *mut u8,
    alloc: Global,
    pub ghost machine: { Option Booted } by { coded_machine },
}

impl Model for OwnedPointer {
    ghost also_owns = { λ p. pointer_owns p.alloc p.address p.machine };
}

impl OwnedPointer {
    /// The null pointer.
    pub fn null(alloc: Global) -> OwnedPointer
        ensures { result.machine ≡ None }
    {
        OwnedPointer {
            address: std::ptr::null_mut(),
            alloc,
        }
    }

    /// The pointer of a box.
    pub fn of_parts(parts: BoxParts<Booted, Global>) -> OwnedPointer
        ensures { result.machine ≡ Some parts.value }
    {
        let BoxParts { pointer, alloc } = parts;
        OwnedPointer {
            address: pointer as *mut u8,
            alloc,
        }
    }

    /// The parts of the box.
    pub fn into_parts(self) -> BoxParts<Booted, Global>
        requires { is_some self.machine ≡ true }
        ensures { Some result.value ≡ self.machine }
    {
        let OwnedPointer { address, alloc } = self;
        BoxParts {
            pointer: address as *mut Booted,
            alloc,
        }
    }
}

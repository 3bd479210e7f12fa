ghost use Rattle.std.specs.Prelude.{◌≡◌, Some, None, is_some, IfOk, OnErr};
ghost use Rattle.std.specs.Prelude.{MatchResult};
ghost use Rattle.embedding.specs.Owning.{in_box};

use crate::booted::Booted;
use crate::box_parts::BoxParts;
use crate::owned_pointer::OwnedPointer;
use std::alloc::{AllocError, Global};

/// The handle of a machine that C keeps: a pointer that owns the machine, and whether there is one. A handle can't be
/// dropped, so no call leaks a machine.
#[repr(C)]
pub struct MachineHandle {
    owned: OwnedPointer,
    has_machine: bool,
    ghost flag: { is_some owned.machine ≡ has_machine },
}

impl MachineHandle {
    /// A handle without a machine.
    fn empty(alloc: Global) -> MachineHandle
        ensures { result.owned.machine ≡ None }
    {
        MachineHandle {
            owned: OwnedPointer::null(alloc),
            has_machine: false,
        }
    }

    /// The handle of a machine.
    fn of(machine: Box<Booted>) -> MachineHandle
        ensures { result.owned.machine ≡ Some machine.value }
    {
        MachineHandle {
            owned: OwnedPointer::of_parts(BoxParts::of(machine)),
            has_machine: true,
        }
    }

    /// The machine of the handle, if there is one.
    fn into_machine(self) -> Option<Box<Booted>>
        ensures { in_box result ≡ self.owned.machine }
    {
        let MachineHandle { owned, has_machine } = self;
        if has_machine {
            Some(owned.into_parts().into_box())
        } else {
            None
        }
    }

    /// Takes the machine out of the handle, if there is one.
    pub fn take(&mut self, alloc: Global) -> Option<Box<Booted>>
        ensures machine { in_box result ≡ self.old.owned.machine }
        ensures left { self.new.owned.machine ≡ None }
    {
        std::mem::replace(self, MachineHandle::empty(alloc)).into_machine()
    }

    /// Puts a machine into the handle. A machine that was in it is freed.
    pub fn put(&mut self, machine: Box<Booted>)
        ensures { self.new.owned.machine ≡ Some machine.value }
    {
        drop(std::mem::replace(self, MachineHandle::of(machine)).into_machine());
    }
}

//! A swap with a package outside memory. Decks such as `writes-a-package` show the words that a swap reads and writes.

use exchange_package::Package;
use instructions::Refusal;
use registers::RegisterFile;
use relocation::{Area, Storage};
use std::test::Fail;
use word60::{Word18, Word60};

/// Whether a swap with the package at 361 of a memory of 256 words of zeros is refused, and memory doesn't change. The
/// package that would be written has a status of 1.
fn refuses_to_swap(memory: &mut Storage) -> bool {
    let outgoing = Package {
        p: Word18::default(),
        registers: RegisterFile::default(),
        area: Area::default(),
        halted: true,
        fault: false,
    };
    let swapped = Package::swap(memory, 0o361, &outgoing);
    matches!(swapped, Err(Refusal::PackageRange))
        && memory.size() == 256
        && memory.words::<16>(0o360) == [Word60::default(); 16]
}

/// A package outside memory is refused, and memory doesn't change.
#[test]
fn refuses_a_package_out_of_memory(rt: HostRuntime) -> Result<(), Fail> {
    let mut memory = Storage::new(rt.alloc(), 256)?;
    assert!(rt; refuses_to_swap(&mut memory));
    Ok(())
}

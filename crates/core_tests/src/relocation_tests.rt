//! Sizes of central memory, and its saved pages.

ghost use Rattle.std.specs.Prelude.{◌≡◌, length};

use crate::fixtures::word;
use instructions::Refusal;
use relocation::{SavedPages, Storage};
use std::test::Fail;
use word60::Word60;

/// Sizes of memory that are refused.
const SIZES: [u32; 4] = [0, 31, 131_073, u32::MAX];

/// Sizes below 32 words and above 131,072 words are refused.
#[test]
fn refuses_other_sizes(rt: HostRuntime) {
    for words in SIZES.as_slice() {
        let refusal = Storage::new(rt.alloc(), *words).err();
        assert_eq!(rt; refusal, Some(Refusal::MemorySize), "at {words}");
    }
}

/// Saves pages of a memory of 513 words, each before a write to it. The last page has one word. Words 255 and 256 are
/// in different pages. A memory of another size isn't written.
fn save_and_write(memory: &mut Storage, saved: &mut SavedPages)
    requires { length saved.old ≡ 513 }
    ensures { length saved.new ≡ 513 }
{
    if memory.size() == 513 {
        saved.save_before_write(memory, 255, 2);
        memory.overwrite(255, &[word(5), word(5)]);
    }
    if memory.size() == 513 {
        saved.save_before_write(memory, 255, 1);
        memory.store(255, word(2));
    }
    if memory.size() == 513 {
        saved.save_before_write(memory, 512, 1);
        memory.store(512, word(5));
    }
}

/// The words around address 255 and the last word of a memory of 513 words.
fn seen(memory: &Storage) -> Option<([Word60; 3], Word60)> {
    if memory.size() == 513 {
        Some((memory.words::<3>(254), memory.load(512)))
    } else {
        None
    }
}

/// Pages saved before they were written are restored, and no others change.
#[test]
fn restores_what_was_saved(rt: HostRuntime) -> Result<(), Fail> {
    let mut memory = Storage::new(rt.alloc(), 513)?;
    memory.store(255, word(1));
    assert!(rt; memory.size() == 513);
    memory.store(512, word(2));
    let mut saved = SavedPages::new(rt.alloc(), 513)?;
    save_and_write(&mut memory, &mut saved);
    assert!(rt; memory.size() == 513);
    let before = saved.restored(&memory)?;
    let (zero, one, two, five) = (word(0), word(1), word(2), word(5));
    let was = seen(&before);
    let is = seen(&memory);
    assert!(rt; was == Some(([zero, one, zero], two)) && is == Some(([zero, two, five], five)));
    Ok(())
}

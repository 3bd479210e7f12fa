ghost use Rattle.std.specs.Prelude.{◌≡◌, ◌<◌, ◌≤◌, ◌+◌, length, slice_index_or, false};
ghost use Rattle.std.specs.Prelude.{true, MatchResult, if◌then◌else◌};
ghost use Rattle.instructions.specs.declared.refusal.Refusal.TheVariants.{OutOfMemory, MemorySize};
ghost use Rattle.instructions.specs.declared.refusal.DeckFault.TheVariants.{Range};
ghost use Rattle.relocation.specs.Relocation.{IsMemorySize, is_memory_size};
ghost use Rattle.deck.specs.Image.{placed_at, blank};

use instructions::{DeckFault, Refusal};
use relocation::Storage;
use std::alloc::Global;
use std::marker::Model;
use word60::Word60;

/// The words of memory, and for each word whether the deck has placed it.
#[derive(Drop)]
pub struct Image {
    memory: Storage,
    placed: Vec<bool>,
}

impl Model for Image {
    ghost use Rattle.std.specs.Prelude.{◌≡◌, ◌≤◌, length};
    ghost use Rattle.deck.specs.Image.{Placed};

    ghost Value = { Placed };

    ghost view = { λ i. record { memory = i.memory; placed = i.placed.items } };

    ghost invariant = { λ i. (length i.placed.items ≡ length i.memory) × (length i.memory ≤ 131072) };
}

impl Image {
    /// Creates a memory of this many words, all +0 and none of them placed.
    ///
    /// # Errors
    /// `MemorySize` if the size isn't 32 to 131,072. `OutOfMemory` if memory runs out.
    pub fn new(alloc: Global, words: u32) -> Result<Image, Refusal>
        ensures { MatchResult result
            (λ image. (is_memory_size words ≡ true) × (image ≡ blank words))
            (λ refusal. refusal ≡ (if is_memory_size words then OutOfMemory else MemorySize)) }
    {
        let memory = Storage::new(alloc, words)?;
        match vec![in alloc; false; words as usize] {
            Ok(placed) => Ok(Image { memory, placed }),
            Err(_) => Err(Refusal::OutOfMemory),
        }
    }

    /// The number of words in memory.
    pub fn size(&self) -> u32
        ensures value { result ≡ length self.now.memory }
        ensures range { IsMemorySize result }
    {
        self.memory.size()
    }

    /// The words of memory.
    pub fn memory(&self) -> &Storage
        ensures { result.now ≡ self.now.memory }
    {
        &self.memory
    }

    /// Whether the deck has placed the word at an absolute address. The address is below the size.
    pub fn is_placed(&self, address: u32) -> bool
        requires { address < length self.now.memory }
        ensures { result ≡ slice_index_or self.now.placed address false }
    {
        self.placed.as_slice()[address as usize]
    }

    /// Puts a word at an absolute address. Returns the address after it.
    ///
    /// # Errors
    /// `Range` if the address isn't in memory. The memory is then unchanged.
    pub fn put(&mut self, address: u32, word: Word60) -> Result<u32, DeckFault>
        ensures placed { MatchResult result
            (λ next. (address < length self.old.memory) × (next ≡ address + 1)
            × (self.new ≡ placed_at self.old address word))
            (λ fault. (length self.old.memory ≤ address) × (fault ≡ Range) × (self.new ≡ self.old)) }
    {
        if address as usize >= self.placed.len() {
            return Err(DeckFault::Range);
        }
        self.placed[address as usize] = true;
        self.memory.store(address, word);
        Ok(address + 1)
    }
}

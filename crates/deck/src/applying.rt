ghost use Rattle.std.specs.Prelude.{◌≡◌, ◌≤◌, ◌<◌, ◌+◌, ℕ, Err, Some, length, true, false, MatchResult, OnOk};
ghost use Rattle.instructions.specs.declared.refusal.Refusal.TheVariants.{OutOfMemory};
ghost use Rattle.instructions.specs.declared.refusal.DeckFault.TheVariants.{Size};
ghost use Rattle.device_text.specs.Text.{number_of};
ghost use Rattle.relocation.specs.Relocation.{is_memory_size};
ghost use Rattle.deck.specs.Deck.{LineOutcome, goes_on, applied, applied_core, applied_first, applied_line, begun, is_no_size};
ghost use Rattle.deck.specs.Deck.{refuse_if, whole, with_number, with_request};
ghost use Rattle.deck.specs.declared.deck.Draft.{Draft as SomeDraft};
ghost use Rattle.deck.specs.declared.parsing.Line.TheVariants as says;
ghost use Rattle.deck.specs.Reading.{Answers, Begins};
ghost use Rattle.deck.specs.inner.ParsedLine.{line_with_bytes};

use crate::Image;
use crate::coding::{parcels_in, word_of};
use crate::deck::{AskLine, Deck, Draft, Flow, Show};
use crate::line_list::{LINES_OF_A_KIND, LineList};
use crate::parsing::{Line, parse_line};
use device_text::{first_part, number};
use instructions::{DeckFault, MOST_ISSUES, Refusal};
use parcel::PARCELS;
use relocation::{LARGEST, SMALLEST, package_fits};
use std::alloc::Global;
use word60::{Word18, Word60};

/// Parses the memory size of a `core` line.
///
/// # Errors
/// `Number` if the digits aren't a number. `Size` if the number isn't 32 to 131,072.
fn memory_size(digits: &[u8]) -> Result<u32, DeckFault>
    ensures { MatchResult result
        (λ size. (number_of 10 6 digits.now ≡ Some size) × (is_no_size size ≡ false))
        (λ fault. (next : ℕ → LineOutcome) → with_number (number_of 10 6 digits.now)
        (λ n. refuse_if (is_no_size n) Size (next n)) ≡ Err fault) }
{
    let size = number(10, 6, digits).ok_or(DeckFault::Number)? as u32;
    if size < SMALLEST || size > LARGEST {
        return Err(DeckFault::Size);
    }
    Ok(size)
}

/// The memory size of the first line, which has to be a `core` line.
///
/// # Errors
/// `Unknown` if the line isn't a `core` line. `Number` and `Size` as for `memory_size`.
#[tactic(auto, using(crate::proofs::Sizes::begins_sized))]
fn core_size(line: Line<&[u8]>) -> Result<u32, DeckFault>
    ensures { Begins result (applied_core (line_with_bytes line.entry)) }
{
    let Line::Core(size) = line else {
        return Err(DeckFault::Unknown);
    };
    memory_size(size)
}

/// The memory size, from the text of the first line.
///
/// # Errors
/// `First` if the line doesn't begin with `core`. `Unknown`, `Number` and `Size` as for `core_size`.
pub fn first_size(text: &[u8]) -> Result<u32, DeckFault>
    ensures { Begins result (applied_first text.now) }
{
    if first_part(text, b' ').0 != b"core".as_slice() {
        return Err(DeckFault::First);
    }
    core_size(parse_line(text))
}

impl Draft {
    /// Creates a draft with a memory of this many words and nothing else.
    ///
    /// # Errors
    /// `OutOfMemory` if memory runs out.
    pub fn new(alloc: Global, words: u32) -> Result<Draft, Refusal>
        requires { is_memory_size words ≡ true }
        ensures { MatchResult result (λ draft. draft ≡ begun words) (λ refusal. refusal ≡ OutOfMemory) }
    {
        Ok(Draft {
            image: Image::new(alloc, words)?,
            next_address: 0,
            start: None,
            asks: LineList::new(alloc)?,
            free: LineList::new(alloc)?,
            shows: LineList::new(alloc)?,
        })
    }

    /// Completes the draft. The first exchange package is at this address.
    pub fn whole(self, start: u32) -> Deck
        ensures { result ≡ whole self start }
    {
        Deck {
            image: self.image,
            start,
            asks: self.asks,
            free: self.free,
            shows: self.shows,
        }
    }

    /// Applies an `at` line.
    fn at_line(&mut self, address: &[u8]) -> Result<Flow, DeckFault>
        ensures { Answers result self.old self.new (applied self.old (says.At address.now)) }
    {
        let address = number(8, 6, address).ok_or(DeckFault::Number)? as u32;
        if address >= self.image.size() {
            return Err(DeckFault::Range);
        }
        self.next_address = address;
        Ok(Flow::Goes)
    }

    /// Applies a `code` line.
    fn code_line(&mut self, texts: &[u8]) -> Result<Flow, DeckFault>
        requires { length texts.now ≤ 200 }
        ensures { Answers result self.old self.new (applied self.old (says.Code texts.now)) }
    {
        if self.next_address >= self.image.size() {
            return Err(DeckFault::Range);
        }
        let parcels = parcels_in(texts).ok_or(DeckFault::Instruction)?;
        if parcels.len() > PARCELS {
            return Err(DeckFault::Full);
        }
        let word = word_of(parcels.as_slice());
        self.next_address = self.image.put(self.next_address, word)?;
        Ok(Flow::Goes)
    }

    /// Applies a `start` line.
    fn start_line(&mut self, address: &[u8]) -> Result<Flow, DeckFault>
        ensures { Answers result self.old self.new (applied self.old (says.Start address.now)) }
    {
        let address = number(8, 6, address).ok_or(DeckFault::Number)? as u32;
        if self.start.is_some() {
            return Err(DeckFault::Repeated);
        }
        if !package_fits(address, self.image.size()) {
            return Err(DeckFault::Package);
        }
        self.start = Some(address);
        Ok(Flow::Goes)
    }

    /// Applies a `show` line.
    fn show_line(&mut self, first: &[u8], last: &[u8]) -> Result<Flow, DeckFault>
        ensures { Answers result self.old self.new (applied self.old (says.Show first.now last.now)) }
    {
        let first = number(8, 6, first).ok_or(DeckFault::Number)? as u32;
        let last = number(8, 6, last).ok_or(DeckFault::Number)? as u32;
        if self.shows.len() >= LINES_OF_A_KIND {
            return Err(DeckFault::Many);
        }
        if last >= self.image.size() || last < first {
            return Err(DeckFault::Range);
        }
        self.shows.push(Show {
            first: Word18::from_bits(first),
            last: Word18::from_bits(last),
        });
        Ok(Flow::Goes)
    }

    /// Checks that the deck may have another request, for the package at an absolute address.
    ///
    /// # Errors
    /// `Many` if the deck has 64 requests already. `Package` if the package doesn't lie in memory.
    fn check_request(&self, at: u32) -> Result<(), DeckFault>
        ensures goes { MatchResult result (λ _. (next : SomeDraft) → with_request self.now at next ≡ goes_on next)
            (λ fault. (next : SomeDraft) → with_request self.now at next ≡ Err fault) }
        ensures room { OnOk result (length self.now.asks + length self.now.free < 64) }
    {
        if self.asks.len().saturating_add(self.free.len()) >= LINES_OF_A_KIND {
            return Err(DeckFault::Many);
        }
        if !package_fits(at, self.image.size()) {
            return Err(DeckFault::Package);
        }
        Ok(())
    }

    /// Applies a line `ask N after K`.
    fn ask_line(&mut self, address: &[u8], count: &[u8]) -> Result<Flow, DeckFault>
        ensures { Answers result self.old self.new (applied self.old (says.Ask address.now count.now)) }
    {
        let at = number(8, 6, address).ok_or(DeckFault::Number)? as u32;
        let count = number(10, 8, count).ok_or(DeckFault::Number)?;
        if count > MOST_ISSUES {
            return Err(DeckFault::Number);
        }
        self.check_request(at)?;
        self.asks.push(AskLine {
            at,
            after: count as u32,
        });
        Ok(Flow::Goes)
    }

    /// Applies a line `ask N free`.
    fn free_line(&mut self, address: &[u8]) -> Result<Flow, DeckFault>
        ensures { Answers result self.old self.new (applied self.old (says.AskFree address.now)) }
    {
        let at = number(8, 6, address).ok_or(DeckFault::Number)? as u32;
        self.check_request(at)?;
        self.free.push(at);
        Ok(Flow::Goes)
    }

    /// Applies a line that isn't the first.
    ///
    /// # Errors
    /// The fault of the line. The draft is then unchanged.
    pub fn apply(&mut self, text: &[u8]) -> Result<Flow, DeckFault>
        requires { length text.now ≤ 200 }
        ensures { Answers result self.old self.new (applied_line (Some self.old) text.now) }
    {
        match parse_line(text) {
            Line::Core(size) => {
                memory_size(size)?;
                Err(DeckFault::Repeated)
            }
            Line::At(address) => self.at_line(address),
            Line::Word(value) => {
                let word = Word60::from_octal(value).ok_or(DeckFault::Number)?;
                self.next_address = self.image.put(self.next_address, word)?;
                Ok(Flow::Goes)
            }
            Line::Code(texts) => self.code_line(texts),
            Line::Start(address) => self.start_line(address),
            Line::Show(first, last) => self.show_line(first, last),
            Line::Ask(address, count) => self.ask_line(address, count),
            Line::AskFree(address) => self.free_line(address),
            Line::End => Ok(Flow::Ends(self.start.ok_or(DeckFault::NoStart)?)),
            Line::Unknown => Err(DeckFault::Unknown),
        }
    }
}

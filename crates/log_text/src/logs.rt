ghost use Rattle.std.specs.Prelude.{◌≡◌, ◌<◌, ◌≤◌, ◌+◌, ◌-◌, ◌++◌, ◌^◌, [], ◌∷◌, ◌==◌, false, MatchResult, IfSome};
ghost use Rattle.std.specs.List.{slice_split};
ghost use Rattle.instructions.specs.declared.refusal.Refusal.TheVariants.{OutOfMemory};
ghost use Rattle.sequential.specs.Log.{steps_of, issued};
ghost use Rattle.device_text.specs.Text.{fields_of};
ghost use Rattle.log_text.specs.LogText.{whole_allowance, has_leading_zero, number_without_leading_zeros};
ghost use Rattle.log_text.specs.LogText.{word_without_leading_zeros, entry_in, entry_count, exchange_in, count_in};
ghost use Rattle.log_text.specs.LogText.{read_in, write_in, written_in, spent, steps_in, log_in, AddsField, LogHas};

use device_text::{first_part, number};
use instructions::{MOST_ACCESSES, MOST_ISSUES, MOST_REQUESTS, Refusal};
use sequential::{Entry, Log};
use std::alloc::Global;
use word60::Word60;

/// The entries that a log's text may still have after the entries read so far.
#[derive(Clone, Copy, Drop)]
pub struct Allowance {
    /// Whether the last entry is a count. No count may follow another.
    after_count: bool,
    /// The number of instructions that all further counts together may have.
    instructions: u64,
    /// The number of further exchanges that may come.
    exchanges: u32,
    /// The number of further peripheral accesses that may come.
    accesses: u32,
}

impl Allowance {
    /// The allowance at the beginning: the most that a machine may do.
    pub fn whole() -> Allowance
        ensures { result ≡ whole_allowance }
    {
        Allowance {
            after_count: false,
            instructions: MOST_ISSUES,
            exchanges: MOST_REQUESTS,
            accesses: MOST_ACCESSES,
        }
    }

    /// Parses the entry of an exchange, if another may come.
    fn exchange_entry(&self, digits: &[u8]) -> Option<Entry>
        ensures entry { result ≡ exchange_in self.now (number_without_leading_zeros 8 6 digits.now) }
        ensures within { IfSome result (λ entry. entry_count entry ≤ self.now.instructions) }
    {
        match octal_without_leading_zeros(digits) {
            Some(at) if self.exchanges > 0 => Some(Entry::Exchange(at)),
            _ => None,
        }
    }

    /// Parses the entry of a count. Rejects 0, a count after a count, and a count above the number of instructions
    /// left.
    fn count_entry(&self, digits: &[u8]) -> Option<Entry>
        ensures entry { result ≡ count_in self.now (number_without_leading_zeros 10 8 digits.now) }
        ensures within { IfSome result (λ entry. entry_count entry ≤ self.now.instructions) }
    {
        let count = decimal_without_leading_zeros(digits)?;
        if self.after_count || count == 0 || count > self.instructions {
            None
        } else {
            Some(Entry::Issued(count))
        }
    }

    /// Parses the entry of a peripheral read, if another access may come.
    fn read_entry(&self, digits: &[u8]) -> Option<Entry>
        ensures entry { result ≡ read_in self.now (number_without_leading_zeros 8 6 digits.now) }
        ensures within { IfSome result (λ entry. entry_count entry ≤ self.now.instructions) }
    {
        match octal_without_leading_zeros(digits) {
            Some(at) if self.accesses > 0 => Some(Entry::PpRead(at)),
            _ => None,
        }
    }

    /// Builds the entry of a peripheral write from the text of its address and of its word, if another access may come.
    fn write_entry(&self, address: &[u8], word: &[u8]) -> Option<Entry>
        ensures entry { result ≡ write_in self.now (number_without_leading_zeros 8 6 address.now)
            (word_without_leading_zeros word.now) }
        ensures within { IfSome result (λ entry. entry_count entry ≤ self.now.instructions) }
    {
        let at = octal_without_leading_zeros(address)?;
        match word_without_leading_zeros(word) {
            Some(word) if self.accesses > 0 => Some(Entry::PpWrite(at, word)),
            _ => None,
        }
    }

    /// Parses the entry of a peripheral write, after its letter: an address, `=` and a word.
    fn written_entry(&self, digits: &[u8]) -> Option<Entry>
        ensures entry { result ≡ written_in self.now (slice_split (λ b. b == 61) digits.now) }
        ensures within { IfSome result (λ entry. entry_count entry ≤ self.now.instructions) }
    {
        let (address, Some(rest)) = first_part(digits, b'=') else {
            return None;
        };
        match first_part(rest, b'=') {
            (word, None) => self.write_entry(address, word),
            (_, Some(_)) => None,
        }
    }

    /// Parses a field as an entry, if that entry may come.
    fn entry(&self, field: &[u8]) -> Option<Entry>
        ensures entry { result ≡ entry_in self.now field.now }
        ensures within { IfSome result (λ entry. entry_count entry ≤ self.now.instructions) }
    {
        match field {
            [b'E', digits @ ..] => self.exchange_entry(digits),
            [b'I', digits @ ..] => self.count_entry(digits),
            [b'R', digits @ ..] => self.read_entry(digits),
            [b'W', digits @ ..] => self.written_entry(digits),
            _ => None,
        }
    }

    /// The allowance after a peripheral access.
    fn without_access(self) -> Allowance
        ensures { result ≡ record self { after_count = false; accesses = self.accesses - 1 } }
    {
        Allowance {
            after_count: false,
            accesses: self.accesses.saturating_sub(1),
            ..self
        }
    }

    /// The allowance after an entry.
    fn spent(self, entry: &Entry) -> Allowance
        ensures { result ≡ spent self entry.now }
    {
        match *entry {
            Entry::Exchange(_) => Allowance {
                after_count: false,
                exchanges: self.exchanges.saturating_sub(1),
                ..self
            },
            Entry::Issued(count) => Allowance {
                after_count: true,
                instructions: self.instructions.saturating_sub(count),
                ..self
            },
            Entry::PpRead(_) => self.without_access(),
            Entry::PpWrite(_, _) => self.without_access(),
        }
    }
}

/// Whether the first of several digits is 0.
fn has_leading_zero(digits: &[u8]) -> bool
    ensures { result ≡ has_leading_zero digits.now }
{
    digits.len() > 1 && digits[0] == b'0'
}

/// Parses an address of one to six octal digits without leading zeros.
fn octal_without_leading_zeros(digits: &[u8]) -> Option<u32>
    ensures value { result ≡ number_without_leading_zeros 8 6 digits.now }
{
    if has_leading_zero(digits) {
        return None;
    }
    match number(8, 6, digits) {
        Some(address) => Some(address as u32),
        None => None,
    }
}

/// Parses a word of one to twenty octal digits without leading zeros.
fn word_without_leading_zeros(digits: &[u8]) -> Option<Word60>
    ensures value { result ≡ word_without_leading_zeros digits.now }
{
    if has_leading_zero(digits) {
        return None;
    }
    Word60::from_octal(digits)
}

/// Parses a number of one to eight decimal digits without leading zeros.
fn decimal_without_leading_zeros(digits: &[u8]) -> Option<u64>
    ensures value { result ≡ number_without_leading_zeros 10 8 digits.now }
{
    if has_leading_zero(digits) {
        return None;
    }
    number(10, 8, digits)
}

/// Adds an entry to a log.
///
/// # Errors
/// `OutOfMemory` if memory runs out.
#[tactic(auto, using(sequential::proofs::Entries::last_run_within), unfolding(sequential::specs::Log::steps_of))]
fn add_entry(log: &mut Log, entry: &Entry) -> Result<(), Refusal>
    requires { issued log.old.steps + entry_count entry.now < 2 ^ 64 }
    ensures { MatchResult result (λ _. log.new.steps ≡ log.old.steps ++ steps_of (entry.now ∷ []))
        (λ refusal. refusal ≡ OutOfMemory) }
{
    if log.reserve(1).is_err() {
        return Err(Refusal::OutOfMemory);
    }
    match *entry {
        Entry::Exchange(at) => log.exchanged(at),
        Entry::Issued(count) => log.issued_many(count),
        Entry::PpRead(at) => log.read_at(at),
        Entry::PpWrite(at, word) => log.wrote(at, word),
    }
    Ok(())
}

/// Parses a field as the next entry of a log and adds it. Returns the allowance after the entry, or `None` if the field
/// isn't an entry that may come.
///
/// # Errors
/// `OutOfMemory` if memory runs out.
pub fn add_field(log: &mut Log, left: Allowance, field: &[u8]) -> Result<Option<Allowance>, Refusal>
    requires { issued log.old.steps + left.instructions ≤ 10000000 }
    ensures { MatchResult result (λ more. AddsField more left field.now log.old.steps log.new.steps)
        (λ refusal. refusal ≡ OutOfMemory) }
{
    let Some(entry) = left.entry(field) else {
        return Ok(None);
    };
    if add_entry(log, &entry).is_err() {
        return Err(Refusal::OutOfMemory);
    }
    Ok(Some(left.spent(&entry)))
}

/// Parses entries with one space between them. Returns `None` if the text isn't such a list.
///
/// # Errors
/// `OutOfMemory` if memory runs out.
fn read_entries(alloc: Global, text: &[u8]) -> Result<Option<Log>, Refusal>
    ensures { MatchResult result (λ found. LogHas found (steps_in whole_allowance (fields_of text.now)))
        (λ refusal. refusal ≡ OutOfMemory) }
{
    let mut log = Log::new(alloc);
    let mut left = Allowance::whole();
    let mut rest = text;
    loop {
        let (field, after) = first_part(rest, b' ');
        match add_field(&mut log, left, field)? {
            None => return Ok(None),
            Some(more) => left = more,
        }
        match after {
            None => return Ok(Some(log)),
            Some(more) => rest = more,
        }
    }
}

/// Parses the text of a log, as a dump prints it: `none`, or entries with one space between them. Returns `None` if the
/// text isn't that of a log.
///
/// These are the entries, without leading zeros:
/// - `E` and an address of one to six octal digits: an exchange.
/// - `I` and a decimal count that isn't 0: instructions issued. Two counts never follow each other.
/// - `R` and an address of one to six octal digits: a read by a peripheral processor.
/// - `W`, such an address, `=` and a word of one to twenty octal digits: a write by a peripheral processor.
///
/// A log has at most 10,000,000 instructions, 1,000,000 exchanges and 1,000,000 peripheral accesses.
///
/// # Errors
/// `OutOfMemory` if memory runs out.
#[tactic(auto, unfolding(crate::specs::LogText::log_in))]
pub fn read_log(alloc: Global, text: &str) -> Result<Option<Log>, Refusal>
    ensures { MatchResult result (λ found. LogHas found (log_in text.now)) (λ refusal. refusal ≡ OutOfMemory) }
{
    if text == "none" {
        return Ok(Some(Log::new(alloc)));
    }
    read_entries(alloc, text.as_bytes())
}

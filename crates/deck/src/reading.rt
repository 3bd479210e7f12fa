ghost use Rattle.std.specs.Prelude.{◌≡◌, ◌||◌, ◌≤◌, ◌∷◌, length, false, true, Some, Ok, Err, OnOk, IfOk, IfErr};
ghost use Rattle.std.specs.Prelude.{MatchResult};
ghost use Rattle.instructions.specs.declared.refusal.Refusal.TheVariants.{Deck as RefusedLine};
ghost use Rattle.device_text.specs.Device.{Moves};
ghost use Rattle.deck.specs.Deck.{deck, read_from};
ghost use Rattle.device_text.specs.Line.{ReadsPart, lines_of};
ghost use Rattle.deck.specs.Reading.{EndsWithin, Gives, GivesDeck, GivesNoDeck, Refuses};
ghost use Rattle.deck.specs.Reading.{is_cut, is_of_reading, is_read_failure};

use crate::applying::first_size;
use crate::deck::{Deck, Draft, Flow};
use device_text::{CheckedReader, Input, LineBuffer, LineRead, read_line};
use instructions::{DeckFault, Refusal};
use std::alloc::Global;
use std::io::Read;

/// The most lines of a deck and the schedule that may follow it.
pub const MOST_LINES: u32 = 10_000_000;

/// Adds the number of a line to its fault.
///
/// # Errors
/// `Deck` with the number and the fault, if the line has a fault.
pub fn with_line_number<T>(line: u32, found: Result<T, DeckFault>) -> Result<T, Refusal>
    ensures { MatchResult found (λ x. result ≡ Ok x) (λ fault. result ≡ Err (RefusedLine line fault)) }
{
    found.map_err(|fault| Refusal::Deck { line, fault })
}

/// Reads line `number`. A line has at most 200 bytes.
fn next_line<I: Input>(input: &mut I, line: &mut LineBuffer, number: u32) -> Result<(), Refusal>
    ensures text { OnOk result (length line.new.items ≤ 200) }
    ensures ok { OnOk result (Moves (I.remaining input.old) (I.remaining input.new)
        (λ xs ys. lines_of xs ≡ (line.new.items, ys) ∷ lines_of ys)) }
    ensures err { IfErr result (λ e. Moves (I.remaining input.old) (I.remaining input.new)
        (λ xs ys. Refuses number e xs ys (lines_of xs))) }
    ensures part { is_read_failure result ≡ true → Moves (I.remaining input.old) (I.remaining input.new) ReadsPart }
    ensures refusals { is_of_reading result ≡ true }
    ensures failure { I.has_failed input.new ≡ (I.has_failed input.old || is_read_failure result) }
    ensures same { I.lender input.new ≡ I.lender input.old }
{
    match read_line(input, line)? {
        LineRead::Whole => Ok(()),
        LineRead::Long => with_line_number(number, Err(DeckFault::Long)),
        LineRead::Nothing => with_line_number(number, Err(DeckFault::NoEnd)),
    }
}

/// Reads the first line and begins a deck with it.
///
/// # Errors
/// As `read_deck_from`.
fn first_draft<I: Input>(
    alloc: Global,
    input: &mut I,
    line: &mut LineBuffer,
) -> Result<Draft, Refusal>
    ensures begun { IfOk result (λ draft. Moves (I.remaining input.old) (I.remaining input.new)
        (λ xs ys. deck xs ≡ read_from 2 (Some draft) ys (lines_of ys))) }
    ensures refused { IfErr result (λ refusal. Moves (I.remaining input.old) (I.remaining input.new)
        (λ xs ys. GivesNoDeck refusal (deck xs) ys)) }
    ensures refusals { is_of_reading result ≡ true }
    ensures unread { is_cut result ≡ true
        → Moves (I.remaining input.old) (I.remaining input.new) (λ xs ys. EndsWithin (length ys) (deck xs)) }
    ensures failure { I.has_failed input.new ≡ (I.has_failed input.old || is_read_failure result) }
    ensures same { I.lender input.new ≡ I.lender input.old }
{
    next_line(input, line, 1)?;
    let size = with_line_number(1, first_size(line.as_slice()))?;
    Draft::new(alloc, size)
}

/// Reads a deck up to the end of its `end` line. Returns the deck and the number of that line, because a schedule may
/// follow. `line` is the buffer of each line in turn. After a fault it holds the refused line, or its beginning.
///
/// # Errors
/// `Deck` with the number of a line and its fault; nothing after the refused line is read, and of a line that is too
/// long only the first 201 bytes. `OutOfMemory` if memory runs out. `Read` if a read fails.
pub fn read_deck_from<I: Input>(
    alloc: Global,
    input: &mut I,
    line: &mut LineBuffer,
) -> Result<(Deck, u32), Refusal>
    ensures deck { Moves (I.remaining input.old) (I.remaining input.new) (λ xs ys. Gives result (deck xs) ys) }
    ensures refusals { is_of_reading result ≡ true }
    ensures number { IfOk result (λ found. found.1 ≤ 10000000) }
    ensures unread { is_cut result ≡ true
        → Moves (I.remaining input.old) (I.remaining input.new) (λ xs ys. EndsWithin (length ys) (deck xs)) }
    ensures failure { I.has_failed input.new ≡ (I.has_failed input.old || is_read_failure result) }
    ensures same { I.lender input.new ≡ I.lender input.old }
{
    let mut draft = first_draft(alloc, input, line)?;
    for number in 2..MOST_LINES + 1 {
        next_line(input, line, number)?;
        match with_line_number(number, draft.apply(line.as_slice()))? {
            Flow::Goes => {}
            Flow::Ends(start) => return Ok((draft.whole(start), number)),
        }
    }
    with_line_number(MOST_LINES + 1, Err(DeckFault::Lines))
}

/// Reads a deck from any reader, up to the end of its `end` line.
///
/// # Errors
/// As `read_deck_from`.
pub fn read_deck<R: Read>(alloc: Global, reader: &mut R) -> Result<Deck, Refusal>
    ensures { Moves (R.remaining reader.old) (R.remaining reader.new) (λ xs ys. GivesDeck result (deck xs) ys) }
{
    let mut input = CheckedReader::new(reader);
    let result = read_deck_from(alloc, &mut input, &mut LineBuffer::new());
    // No effect at run time. The proof reads what the reader has left from this use.
    let _ = &*input.into_inner();
    let (deck, _) = result?;
    Ok(deck)
}

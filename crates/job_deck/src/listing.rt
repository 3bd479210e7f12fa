ghost use Rattle.std.specs.Prelude.{◌≡◌, ◌<◌, ◌^◌, ◌||◌, OnOk, false, length};
ghost use Rattle.device_text.specs.Device.{Moves, NothingWaits};
ghost use Rattle.device_text.specs.Putting.{Puts};
ghost use Rattle.deck.specs.Deck.{deck};
ghost use Rattle.device_text.specs.Pieces.{text_of_all};
ghost use Rattle.job_deck.specs.Listing.{after, separated, items_text, placed_word, listed_word, listed};
ghost use Rattle.job_deck.specs.Listing.{listing, Lists};
ghost use Rattle.deck.specs.Reading.{is_read_failure};
ghost use Rattle.job_deck.specs.Listing.{is_write_failure};

use deck::{Image, read_deck_from};
use device_text::{
    CheckedReader, CheckedWriter, Input, LineBuffer, Output, Piece, WriteFailed, put_pieces,
};
use instruction_table::{Decoded, decode};
use instructions::Refusal;
use std::alloc::Global;
use std::io::{Read, Write};
use word60::{Word18, Word60};

/// The parcel after an item. A refused opcode counts as one parcel, and so does an instruction that straddles words.
fn after(parcel: u8, item: &Decoded) -> u8
    requires { parcel < 4 }
    ensures { result ≡ after parcel item.now }
{
    match *item {
        Decoded::Legal(_, next) => next,
        Decoded::Refused(_) => parcel + 1,
        Decoded::Straddle => parcel + 1,
    }
}

/// An item after its separator; the first item of a word has no separator. The item is the text of a legal instruction,
/// or a question mark and the reason why there is none.
fn separated(parcel: u8, item: &Decoded) -> [Piece<'static>; 3]
    ensures { text_of_all result ≡ separated parcel item.now }
{
    let before = Piece::Text(if parcel == 0 { b"" } else { b"; " });
    let none = Piece::Text(b"");
    match *item {
        Decoded::Legal(instr, _) => [before, Piece::Instruction(instr), none],
        Decoded::Refused(op) => [before, Piece::Text(b"?"), Piece::Opcode(op)],
        Decoded::Straddle => [before, Piece::Text(b"?straddle"), none],
    }
}

/// Writes the items of a word.
fn put_items<O: Output>(output: &mut O, word: Word60) -> Result<(), WriteFailed>
    ensures { Puts O.Output result output.old output.new (items_text word) }
{
    let mut parcel = 0u8;
    while parcel < 4 {
        let item = decode(word, parcel);
        put_pieces(output, &separated(parcel, &item))?;
        parcel = after(parcel, &item);
    }
    Ok(())
}

/// The address of a word and the word, with a space after each.
fn placed_word(address: Word18, word: Word60) -> [Piece<'static>; 4]
    ensures { text_of_all result ≡ placed_word address word }
{
    [
        Piece::Index(address),
        Piece::Text(b" "),
        Piece::Word(word),
        Piece::Text(b" "),
    ]
}

/// Writes the line of a word.
fn put_listed_word<O: Output>(
    output: &mut O,
    address: Word18,
    word: Word60,
) -> Result<(), WriteFailed>
    ensures { Puts O.Output result output.old output.new (listed_word address word) }
{
    put_pieces(output, &placed_word(address, word))?;
    put_items(output, word)?;
    output.put(b"\n")
}

/// Writes the line of the word at an address, if the deck placed it.
fn put_listed<O: Output>(output: &mut O, image: &Image, address: u32) -> Result<(), WriteFailed>
    requires within { address < length image.now.memory }
    requires range { address < 2 ^ 18 }
    ensures { Puts O.Output result output.old output.new (listed image.now address) }
{
    if image.is_placed(address) {
        let word = image.memory().load(address);
        put_listed_word(output, Word18::from_bits(address), word)
    } else {
        Ok(())
    }
}

/// Writes the words that a deck placed, in order of address, each with its instructions.
///
/// # Errors
/// Fails if a write fails. The output then has a prefix of the text.
fn put_listing<O: Output>(output: &mut O, image: &Image) -> Result<(), WriteFailed>
    ensures { Puts O.Output result output.old output.new (listing image.now) }
{
    for address in 0..image.size() {
        put_listed(output, image, address)?;
    }
    Ok(())
}

/// Writes the listing and flushes the output.
fn print_listing<O: Output>(output: &mut O, image: &Image) -> Result<(), WriteFailed>
    ensures puts { Puts O.Output result output.old output.new (listing image.now) }
    ensures handed_on { OnOk result (O.waits output.new ≡ false) }
{
    put_listing(output, image)?;
    output.flush()
}

/// Reads a deck and lists the words that it places, in order of address, each with its instructions.
///
/// # Errors
/// `Deck` with the number of a faulty line and its fault. `OutOfMemory` if memory runs out. `Read` or `Write` if the
/// device fails. After a failed write the output has a prefix of the text; at any other error nothing was written.
pub fn list_to<I: Input, O: Output>(
    alloc: Global,
    input: &mut I,
    output: &mut O,
    line: &mut LineBuffer,
) -> Result<(), Refusal>
    ensures listed { Moves (I.remaining input.old) (I.remaining input.new)
        (λ xs ys. Lists result (deck xs) ys (O.contents output.old) (O.contents output.new)) }
    ensures read { I.has_failed input.new ≡ (I.has_failed input.old || is_read_failure result) }
    ensures write { O.has_failed output.new ≡ (O.has_failed output.old || is_write_failure result) }
    ensures handed_on { OnOk result (O.waits output.new ≡ false) }
    ensures kept { NothingWaits (is_write_failure result) (O.waits output.old) (O.waits output.new) }
    ensures input { I.lender input.new ≡ I.lender input.old }
    ensures output { O.lender output.new ≡ O.lender output.old }
{
    let (deck, _) = read_deck_from(alloc, input, line)?;
    print_listing(output, &deck.image)?;
    Ok(())
}

/// Lists a deck from any reader to any writer.
///
/// # Errors
/// As for `list_to`.
pub fn list<R: Read, W: Write>(alloc: Global, reader: &mut R, writer: &mut W) -> Result<(), Refusal>
    ensures { Moves (R.remaining reader.old) (R.remaining reader.new)
        (λ xs ys. Lists result (deck xs) ys (W.contents writer.old) (W.contents writer.new)) }
{
    let mut input = CheckedReader::new(reader);
    let mut output = CheckedWriter::new(writer);
    let result = list_to(alloc, &mut input, &mut output, &mut LineBuffer::new());
    // No effect at run time. The proof reads what reader and writer hold from these uses.
    let _ = &*input.into_inner();
    let _ = &*output.into_inner();
    result
}

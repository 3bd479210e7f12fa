ghost use Rattle.std.specs.Prelude.{◌≡◌, ◌<◌, ◌≤◌, ◌+◌, ◌^◌, length, All, IfSome, MatchOption, Some, None, true};
ghost use Rattle.deck.specs.Code.{items_of, instr_in, put_before, item_parcels, parcels_in, word_of, parcel_or_pass};
ghost use Rattle.deck.specs.Code.{OptionalItems};

use arrayvec::ArrayVec;
use device_text::first_part;
use instruction_table::{encode, read_bytes};
use instructions::Instr;
use parcel::join;
use word60::Word60;

/// The parcel of a pass, with which words are filled up.
const PASS: u16 = 0o46000;

/// The parcels of the instructions in a `code` line. There is always room, because a line has at most 200 bytes. The
/// text of an instruction, with the space before it and the semicolon after it, has more bytes than the instruction has
/// parcels.
pub type Parcels = ArrayVec<u16, 202>;

/// Parses a space and the text of an instruction.
fn instr_in(item: &[u8]) -> Option<Instr>
    ensures { result ≡ instr_in item.now }
{
    match item {
        [b' ', text @ ..] => read_bytes(text),
        _ => None,
    }
}

/// Adds the parcels of an item's instruction. Returns whether the item is an instruction.
fn put_item(parcels: &mut Parcels, item: &[u8]) -> bool
    requires room { length parcels.old.items ≤ 200 }
    requires bits { All (λ p. p < 2 ^ 15) parcels.old.items }
    ensures added { OptionalItems result parcels.new.items (put_before parcels.old.items (item_parcels item.now)) }
    ensures bits { All (λ p. p < 2 ^ 15) parcels.new.items }
    ensures two { length parcels.new.items ≤ length parcels.old.items + 2 }
    ensures some { result ≡ true → 1 ≤ length item.now }
{
    let Some(instr) = instr_in(item) else {
        return false;
    };
    parcels
        .try_extend_from_slice(encode(&instr).as_slice())
        .unwrap();
    true
}

/// The parcels of instructions from their texts, with a space before each text and semicolons between them. Returns
/// `None` if any text isn't that of an instruction.
pub fn parcels_in(texts: &[u8]) -> Option<Parcels>
    requires { length texts.now ≤ 200 }
    ensures parcels { MatchOption result (parcels_in (items_of texts.now) ≡ None)
        (λ found. parcels_in (items_of texts.now) ≡ Some found.items) }
    ensures bits { IfSome result (λ found. All (λ p. p < 2 ^ 15) found.items) }
{
    let mut parcels = ArrayVec::new();
    let mut left = texts;
    loop {
        let (item, after) = first_part(left, b';');
        if !put_item(&mut parcels, item) {
            return None;
        }
        match after {
            None => return Some(parcels),
            Some(more) => left = more,
        }
    }
}

/// The parcel at a position, or the parcel of a pass if there are fewer parcels.
fn parcel_or_pass(parcels: &[u16], number: usize) -> u16
    requires { All (λ p. p < 2 ^ 15) parcels.now }
    ensures parcel { result ≡ parcel_or_pass parcels.now number }
    ensures bits { result < 2 ^ 15 }
{
    match parcels.get(number) {
        Some(parcel) => *parcel,
        None => PASS,
    }
}

/// The word of at most four parcels, filled up with passes.
pub fn word_of(parcels: &[u16]) -> Word60
    requires { All (λ p. p < 2 ^ 15) parcels.now }
    ensures { result ≡ word_of parcels.now }
{
    join([
        parcel_or_pass(parcels, 0),
        parcel_or_pass(parcels, 1),
        parcel_or_pass(parcels, 2),
        parcel_or_pass(parcels, 3),
    ])
}

ghost use Rattle.std.specs.Prelude.{◌≡◌, ◌++◌, ◌∷◌, [], codes, decimal};
ghost use Rattle.std.specs.List.{concat};
ghost use Rattle.word60.specs.Words.{octal_text};
ghost use Rattle.device_text.specs.Names.{unit_text};
ghost use Rattle.device_text.specs.Pieces.{text_of_all, trimmed};
ghost use Rattle.device_text.specs.Putting.{Puts};
ghost use Rattle.job_deck.specs.AnswerText.{answer_line};
ghost use Rattle.contents_text.specs.Events.{event_line};

use device_text::{Output, Piece, WriteFailed, put_pieces};
use instructions::Unit;
use job_deck::put_answer;
use program_order::{Answer, Event};

/// The line of an event that names nothing.
fn alone(line: &'static [u8]) -> [Piece<'static>; 5]
    ensures { text_of_all result ≡ line.now }
{
    [
        Piece::Text(line),
        Piece::Text(b""),
        Piece::Text(b""),
        Piece::Text(b""),
        Piece::Text(b""),
    ]
}

/// The line of an event that names a unit.
fn with_unit(word: &'static [u8], unit: Unit) -> [Piece<'static>; 5]
    ensures { text_of_all result ≡ concat (word.now ∷ unit_text unit ∷ codes "\n" ∷ []) }
{
    [
        Piece::Text(word),
        Piece::UnitName(unit),
        Piece::Text(b"\n"),
        Piece::Text(b""),
        Piece::Text(b""),
    ]
}

/// The line of an event that names a place of the hopper, a channel or a bank.
fn with_count(word: &'static [u8], number: u8) -> [Piece<'static>; 5]
    ensures { text_of_all result ≡ concat (word.now ∷ decimal number ∷ codes "\n" ∷ []) }
{
    [
        Piece::Text(word),
        Piece::Count(u64::from(number)),
        Piece::Text(b"\n"),
        Piece::Text(b""),
        Piece::Text(b""),
    ]
}

/// The line of an event that names an address.
fn with_address(word: &'static [u8], address: u32) -> [Piece<'static>; 5]
    ensures { text_of_all result ≡ concat (word.now ∷ trimmed (octal_text 20 address) ∷ codes "\n" ∷ []) }
{
    [
        Piece::Text(word),
        Piece::Address(address),
        Piece::Text(b"\n"),
        Piece::Text(b""),
        Piece::Text(b""),
    ]
}

/// The schedule line of an event.
fn event_pieces(event: Event) -> [Piece<'static>; 5]
    ensures { text_of_all result ≡ event_line event }
{
    match event {
        Event::Issue => alone(b"issue\n"),
        Event::Read(unit) => with_unit(b"read ", unit),
        Event::Finish(unit) => with_unit(b"finish ", unit),
        Event::Store(unit) => with_unit(b"store ", unit),
        Event::Accept(place) => with_count(b"accept ", place),
        Event::Return(channel) => with_count(b"return ", channel),
        Event::BankFree(bank) => with_count(b"bank ", bank),
        Event::Ask(at) => with_address(b"ask ", at),
        Event::Exchange => alone(b"exchange\n"),
        Event::PpRead(at) => with_address(b"ppread ", at),
        Event::PpWrite(at, word) => [
            Piece::Text(b"ppwrite "),
            Piece::Address(at),
            Piece::Text(b" "),
            Piece::ShortWord(word),
            Piece::Text(b"\n"),
        ],
    }
}

/// Writes the schedule line of an event and the line of its answer.
///
/// # Errors
/// Fails if a write fails. The output then has a prefix of the text.
pub fn put_event<O: Output>(
    output: &mut O,
    event: Event,
    answer: &Answer,
) -> Result<(), WriteFailed>
    ensures { Puts O.Output result output.old output.new (event_line event ++ answer_line answer.now) }
{
    put_pieces(output, &event_pieces(event))?;
    put_answer(output, answer)
}

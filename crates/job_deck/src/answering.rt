ghost use Rattle.std.specs.Prelude.{◌≡◌, Err, OnOk, false};
ghost use Rattle.instructions.specs.Refusals.{label_of};
ghost use Rattle.job_deck.specs.AnswerText.{answer_line, named_text};
ghost use Rattle.device_text.specs.Putting.{Puts};

use device_text::{Output, Piece, WriteFailed, put_pieces};
use instructions::Refusal;
use program_order::{Answer, Done, Note};

/// Writes the label of a refusal: its number and its text.
fn put_label<O: Output>(output: &mut O, refusal: &Refusal) -> Result<(), WriteFailed>
    ensures { Puts O.Output result output.old output.new (label_of refusal.now) }
{
    output.put(refusal.label().as_bytes())
}

/// Writes the unit, register, bank or halt that a refusal names. No other refusal of an event names anything.
fn put_named<O: Output>(output: &mut O, refusal: &Refusal) -> Result<(), WriteFailed>
    ensures { Puts O.Output result output.old output.new (named_text refusal.now) }
{
    match *refusal {
        Refusal::Halted(halt) => put_pieces(output, &[Piece::Reason(halt)]),
        Refusal::UnitBusy(unit) => put_pieces(output, &[Piece::UnitName(unit)]),
        Refusal::ResultReserved(register) => put_pieces(output, &[Piece::Register(register)]),
        Refusal::OperandAwaited(register) => put_pieces(output, &[Piece::Register(register)]),
        Refusal::ResultHeld(register) => put_pieces(output, &[Piece::Register(register)]),
        Refusal::BankBusy(bank) => put_pieces(output, &[Piece::Count(u64::from(bank))]),
        Refusal::Faulted
        | Refusal::Budget
        | Refusal::BranchPending
        | Refusal::ExchangeWaiting
        | Refusal::FetchWait
        | Refusal::HopperFull
        | Refusal::OutOfTurn
        | Refusal::OlderAtAddress
        | Refusal::Nothing
        | Refusal::Stranger
        | Refusal::ExchangeBusy
        | Refusal::NotDrained
        | Refusal::PackageRange
        | Refusal::Deck { .. }
        | Refusal::OutOfMemory
        | Refusal::Read
        | Refusal::Write
        | Refusal::MemorySize
        | Refusal::MidWord
        | Refusal::PeripheralWait
        | Refusal::PeripheralRange => Ok(()),
    }
}

/// Writes the line of a refusal: its number, its text, and what it names.
fn put_refusal<O: Output>(output: &mut O, refusal: &Refusal) -> Result<(), WriteFailed>
    ensures { Puts O.Output result output.old output.new (answer_line (Err refusal.now)) }
{
    put_label(output, refusal)?;
    put_named(output, refusal)?;
    output.put(b"\n")
}

/// Writes the line of an answer.
fn put_line<O: Output>(output: &mut O, answer: &Answer) -> Result<(), WriteFailed>
    ensures { Puts O.Output result output.old output.new (answer_line answer.now) }
{
    match answer {
        Ok(Done::Issued(Some(Note { unit, number }))) => put_pieces(
            output,
            &[
                Piece::Text(b"ok "),
                Piece::UnitName(*unit),
                Piece::Text(b" "),
                Piece::Count(*number),
                Piece::Text(b"\n"),
            ],
        ),
        Ok(Done::Issued(None)) => output.put(b"ok\n"),
        Ok(Done::Word(word)) => put_pieces(
            output,
            &[Piece::Text(b"ok "), Piece::Word(*word), Piece::Text(b"\n")],
        ),
        Ok(Done::Made) => output.put(b"ok\n"),
        Err(refusal) => put_refusal(output, refusal),
    }
}

/// Writes the line of an answer and flushes the output.
pub fn put_answer<O: Output>(output: &mut O, answer: &Answer) -> Result<(), WriteFailed>
    ensures puts { Puts O.Output result output.old output.new (answer_line answer.now) }
    ensures handed_on { OnOk result (O.waits output.new ≡ false) }
{
    put_line(output, answer)?;
    output.flush()
}

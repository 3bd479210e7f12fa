//! A caller that knows only the contract of `events`. From it the caller knows which events led to a session's machine,
//! and so that the machine is faithful to them.

ghost use Rattle.std.specs.Prelude.{◌≡◌, ◌≤◌, ◌+◌, ◌++◌, ℕ, List, OnOk, Result};
ghost use Rattle.std.specs.Io.KnownBytes.{Appends};
ghost use Rattle.std.specs.List.{flat_map};
ghost use Rattle.instructions.specs.declared.refusal.Refusal.{Refusal as SomeRefusal};
ghost use Rattle.program_order.specs.declared.event.Done.{Done as SomeDone};
ghost use Rattle.program_order.specs.declared.event.Event.{Event as SomeEvent};
ghost use Rattle.program_order.specs.Headline.{IsFaithful};
ghost use Rattle.program_order.specs.Processor.{Processor};
ghost use Rattle.job_deck.specs.AnswerText.{answer_line};
ghost use Rattle.deck.specs.Deck.{Good, deck};
ghost use Rattle.deck.specs.declared.deck.Deck.{Deck};
ghost use Rattle.device_text.specs.Device.{Moves};
ghost use Rattle.device_text.specs.Line.{lines_of};
ghost use Rattle.job_deck.specs.Session.{Says};

use instructions::Refusal;
use job_deck::events;
use program_order::what_is_reached_is_faithful;
use std::alloc::Global;
use std::io::{Read, Write};
use std::test::Fail;

/// Runs a session to its last line. Its lines say events, and the first lines written are the answers to them. The
/// events and answers lead from the deck's memory to a machine that is faithful to them.
fn faithful_session<R: Read, W: Write>(
    alloc: Global,
    reader: &mut R,
    writer: &mut W,
    budget: u64,
) -> Result<(), Refusal>
    requires { budget ≤ 10000000 }
    ensures { OnOk result (Moves (R.remaining reader.old) (R.remaining reader.new)
        (λ xs rest. (whole : Deck) → (n : ℕ) → (after : List ℕ) → deck xs ≡ Good whole n after
        → (events : List SomeEvent) × ((answers : List (Result SomeDone SomeRefusal)) × ((w : Processor)
        × ((left : List (List ℕ × List ℕ)) × ((text : List ℕ) × (Says (n + 1) events (lines_of after) left
        × (Appends (W.contents writer.old) (W.contents writer.new) (flat_map answer_line answers ++ text)
        × IsFaithful whole.image.memory events answers w)))))))) }
{
    if let Err(refusal) = events(alloc, reader, writer, budget) {
        return Err(refusal);
    }
    what_is_reached_is_faithful();
    Ok(())
}

/// A session with an exchange, an issue and a drain, after which nothing is read.
#[test]
fn to_its_end(rt: HostRuntime) -> Result<(), Fail> {
    let mut input = "\
        core 256\n\
        at 41\n\
        word 00000100000000000000\n\
        word 00000020000000000000\n\
        at 100\n\
        code SX1 B0+5; PS\n\
        start 40\n\
        end\n\
        ask 40\n\
        exchange\n\
        issue\n\
        drain\n\
        more\n"
        .as_bytes();
    let mut output = Vec::new(rt.alloc());
    let result = faithful_session(rt.alloc(), &mut input, &mut output, 4);
    let text = output.as_slice();
    let is_written = text.starts_with(b"ok\nok\nok increment1 1\nP ")
        && text.ends_with(b"LOG E40 I1\n");
    assert!(rt; result.is_ok() && is_written && input == b"more\n".as_slice());
    Ok(())
}

ghost use Rattle.std.specs.Prelude.{◌≡◌};
ghost use Rattle.sequential.specs.Log.{entries_of};
ghost use Rattle.job_deck.specs.Dump.{dump_text};
ghost use Rattle.embedding.specs.Keeping.{HandsOverText, IsDumped, IsLogged, after_space};

use crate::booted::Booted;
use crate::outcome::{NOT_DRAINED, Outcome, hand_over, silent};
use crate::stepping::written_end;
use deck::Deck;
use device_text::CheckedWriter;
use job_deck::{dump_to, put_log};
use operator_terms::ProgramFault;
use program_order::Snapshot;
use std::alloc::Global;

/// Copies the dump of a snapshot to the caller.
fn show_snapshot(
    alloc: Global,
    snapshot: &Snapshot,
    deck: &Deck,
    output: &mut [u8],
    line: &mut [u8],
) -> Outcome
    ensures { HandsOverText (dump_text snapshot.now.state (entries_of snapshot.now.log) deck.now.shows) result output.old
        output.new }
{
    let mut text = Vec::new(alloc);
    let mut writer = CheckedWriter::new(&mut text);
    let written = dump_to(&mut writer, snapshot.state(), snapshot.log(), deck);
    // No effect at run time. The proof reads what the text holds from this use.
    let _ = &*writer.into_inner();
    hand_over(written_end(written), text.as_slice(), output, line)
}

/// Copies the dump of a machine to the caller if the machine is drained.
pub fn show_dump(alloc: Global, booted: &Booted, output: &mut [u8], line: &mut [u8]) -> Outcome
    ensures { IsDumped booted.now result output.old output.new }
{
    if !booted.machine.drained() {
        return silent(NOT_DRAINED);
    }
    match booted.machine.snapshot() {
        Ok(snapshot) => show_snapshot(alloc, &snapshot, &booted.deck, output, line),
        Err(_) => hand_over(Err(ProgramFault::OutOfMemory), &[], output, line),
    }
}

/// A text without the space at its beginning.
fn after_space(text: &[u8]) -> &[u8]
    ensures { result.now ≡ after_space text.now }
{
    match text.split_first() {
        Some((_, rest)) => rest,
        None => text,
    }
}

/// Copies the text of a machine's log to the caller.
pub fn show_log(alloc: Global, booted: &Booted, output: &mut [u8], line: &mut [u8]) -> Outcome
    ensures { IsLogged booted.now result output.old output.new }
{
    let mut text = Vec::new(alloc);
    let mut writer = CheckedWriter::new(&mut text);
    let written = put_log(&mut writer, booted.machine.log().entries());
    let _ = &*writer.into_inner();
    hand_over(
        written_end(written),
        after_space(text.as_slice()),
        output,
        line,
    )
}

ghost use Rattle.std.specs.Prelude.{◌≡◌, ◌||◌, OnOk, false};
ghost use Rattle.in_flight.specs.Lookup.{is_pending};
ghost use Rattle.device_text.specs.Device.{NothingWaits};
ghost use Rattle.device_text.specs.Putting.{Puts};
ghost use Rattle.job_deck.specs.Session.{not_drained_text};
ghost use Rattle.job_deck.specs.inner.SessionParts.{Closes, Dumps, last_line};
ghost use Rattle.job_deck.specs.Listing.{is_write_failure};

use crate::dumping::{dump_to, put_log_line};
use deck::Deck;
use device_text::{Output, WriteFailed};
use instructions::Refusal;
use machine::Machine;

/// Writes the dump of a drained machine and flushes the output.
///
/// # Errors
/// `OutOfMemory` if there is no memory for a copy of the machine's state. `Write` if a write fails.
fn put_drained<O: Output>(output: &mut O, machine: &Machine, deck: &Deck) -> Result<(), Refusal>
    requires { is_pending machine.now.pending ≡ false }
    ensures closed { Dumps result machine.now deck.now.shows (O.contents output.old)
        (O.contents output.new) }
    ensures write { O.has_failed output.new ≡ (O.has_failed output.old || is_write_failure result) }
    ensures handed_on { OnOk result (O.waits output.new ≡ false) }
    ensures kept { NothingWaits (is_write_failure result) (O.waits output.old) (O.waits output.new) }
    ensures same { O.lender output.new ≡ O.lender output.old }
{
    match machine.snapshot() {
        Ok(snapshot) => Ok(dump_to(output, snapshot.state(), snapshot.log(), deck)?),
        Err(_) => Err(Refusal::OutOfMemory),
    }
}

/// Writes the line `NOT DRAINED` and the machine's log.
fn put_not_drained<O: Output>(output: &mut O, machine: &Machine) -> Result<(), WriteFailed>
    ensures { Puts O.Output result output.old output.new (not_drained_text machine.now) }
{
    output.put(b"NOT DRAINED\n")?;
    put_log_line(output, machine.log().entries())
}

/// Writes the line `NOT DRAINED` and the machine's log, and flushes the output.
fn print_not_drained<O: Output>(output: &mut O, machine: &Machine) -> Result<(), WriteFailed>
    ensures puts { Puts O.Output result output.old output.new (not_drained_text machine.now) }
    ensures handed_on { OnOk result (O.waits output.new ≡ false) }
{
    put_not_drained(output, machine)?;
    output.flush()
}

/// Writes the end of a session: the machine's dump if the machine is drained, or `NOT DRAINED` and the log.
///
/// # Errors
/// As for `put_drained`.
fn put_end<O: Output>(output: &mut O, machine: &Machine, deck: &Deck) -> Result<(), Refusal>
    ensures closed { Closes result (last_line false) machine.now deck.now.shows (O.contents output.old)
        (O.contents output.new) }
    ensures write { O.has_failed output.new ≡ (O.has_failed output.old || is_write_failure result) }
    ensures handed_on { OnOk result (O.waits output.new ≡ false) }
    ensures kept { NothingWaits (is_write_failure result) (O.waits output.old) (O.waits output.new) }
    ensures same { O.lender output.new ≡ O.lender output.old }
{
    if machine.drained() {
        return put_drained(output, machine, deck);
    }
    print_not_drained(output, machine)?;
    Ok(())
}

/// Carries out the last line of a schedule. `drain` drains the machine and dumps it. `end` writes the end of the
/// session for the machine as it is.
///
/// # Errors
/// `OutOfMemory` if there is no memory for a copy of a drained machine's state. `Write` if a write fails.
pub fn finish<O: Output>(
    output: &mut O,
    machine: &mut Machine,
    deck: &Deck,
    drains: bool,
) -> Result<(), Refusal>
    ensures closed { Closes result (last_line drains) machine.old deck.now.shows (O.contents output.old)
        (O.contents output.new) }
    ensures write { O.has_failed output.new ≡ (O.has_failed output.old || is_write_failure result) }
    ensures handed_on { OnOk result (O.waits output.new ≡ false) }
    ensures kept { NothingWaits (is_write_failure result) (O.waits output.old) (O.waits output.new) }
    ensures same { O.lender output.new ≡ O.lender output.old }
{
    if drains {
        machine.drain();
        put_drained(output, machine, deck)
    } else {
        put_end(output, machine, deck)
    }
}

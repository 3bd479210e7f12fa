ghost use Rattle.std.specs.Prelude.{◌≡◌, ◌++◌};
ghost use Rattle.std.specs.List.{flat_map};
ghost use Rattle.device_text.specs.Putting.{Puts};
ghost use Rattle.instructions.specs.Finding.{seek};
ghost use Rattle.sequential.specs.State.{absolute, bounds_of};
ghost use Rattle.in_flight.specs.Lookup.{entry_at, located};
ghost use Rattle.contents_text.specs.Holding.{delays_event, delays_fetch_of, holder_line, holders_text, holds_event};
ghost use Rattle.contents_text.specs.Holding.{holders_of, holds_found, holds_kind, holds_reference, judgement_text};
ghost use Rattle.contents_text.specs.Holding.{number_at, number_in};
ghost use Rattle.job_deck.specs.AnswerText.{answer_line};

use device_text::{Output, Piece, WriteFailed, put_pieces};
use hopper::{PLACES, Reference};
use in_flight::{Located, Pending};
use instructions::{Refusal, Unit};
use job_deck::put_answer;
use machine::Machine;
use program_order::{Answer, Event};
use relocation::relocate;
use scoreboard::{Reservation, is_same_unit};
use sequential::State;

/// The number of the instruction that was found; 0, which no reservation has, if none was found.
fn number_in<K>(found: &Option<Located<K>>) -> u64
    ensures { result ≡ number_in found.now }
{
    match found {
        Some(found) => found.pending.number,
        None => 0,
    }
}

/// The instruction whose reference waits in a place of the hopper, with the reference. `None` if there is no such place.
fn in_place(machine: &Machine, place: u8) -> Option<Located<Reference>>
    ensures { result ≡ located (seek (entry_at place) machine.now.pending) }
{
    if place < PLACES as u8 {
        machine.in_hopper(place)
    } else {
        machine.keeps_limits();
        None
    }
}

/// The number of the instruction in the event's unit, place of the hopper or channel; 0 if there is none.
fn number_at(machine: &Machine, event: &Event) -> u64
    ensures { result ≡ number_at machine.now.pending event.now }
{
    match *event {
        Event::Read(unit) | Event::Finish(unit) | Event::Store(unit) => {
            number_in(&machine.in_unit(unit))
        }
        Event::Accept(place) => number_in(&in_place(machine, place)),
        Event::Return(channel) => number_in(&machine.in_channel(channel)),
        Event::Issue
        | Event::BankFree(_)
        | Event::Ask(_)
        | Event::Exchange
        | Event::PpRead(_)
        | Event::PpWrite(_, _) => 0,
    }
}

/// Whether the instruction delays the fetch of the word at P.
#[tactic(auto, unfolding(sequential::specs::State::absolute, sequential::specs::State::bounds_of))]
fn delays_next_fetch(state: &State, pending: &Pending) -> bool
    ensures { result ≡ delays_fetch_of (absolute (bounds_of state.now) state.now.position.p) pending.now }
{
    let size = state.memory.size();
    match relocate(state.position.p, state.area.ra, state.area.fl, size) {
        Some(address) => pending.delays_fetch(address),
        None => false,
    }
}

/// Whether the instruction holds a unit of the kind whose lower-numbered unit this is.
fn holds_kind(unit: Unit, reservation: &Reservation) -> bool
    ensures { result ≡ holds_kind unit reservation.now }
{
    reservation.holds(unit)
        || is_same_unit(unit, Unit::Increment1) && reservation.holds(Unit::Increment2)
}

/// Whether the instruction holds back the reference that was found, if one was.
fn holds_found(found: &Option<Located<Reference>>, pending: &Pending) -> bool
    ensures { result ≡ holds_found found.now pending.now }
{
    match found {
        Some(found) => pending.holds_back(&found.answer),
        None => false,
    }
}

/// Whether the instruction holds back the reference in the event's place of the hopper.
fn holds_reference(machine: &Machine, event: &Event, pending: &Pending) -> bool
    ensures { result ≡ holds_reference machine.now.pending event.now pending.now }
{
    match *event {
        Event::Accept(place) => holds_found(&in_place(machine, place), pending),
        Event::Issue
        | Event::Read(_)
        | Event::Finish(_)
        | Event::Store(_)
        | Event::Return(_)
        | Event::BankFree(_)
        | Event::Ask(_)
        | Event::Exchange
        | Event::PpRead(_)
        | Event::PpWrite(_, _) => false,
    }
}

/// Whether the instruction delays the peripheral access of the event.
fn delays_event(event: &Event, pending: &Pending) -> bool
    ensures { result ≡ delays_event event.now pending.now }
{
    match *event {
        Event::PpRead(address) | Event::PpWrite(address, _) => pending.delays_access(address),
        Event::Issue
        | Event::Read(_)
        | Event::Finish(_)
        | Event::Store(_)
        | Event::Accept(_)
        | Event::Return(_)
        | Event::BankFree(_)
        | Event::Ask(_)
        | Event::Exchange => false,
    }
}

/// Whether the pending instruction holds the event back, which was refused for this reason.
#[tactic(auto, unfolding(in_flight::specs::Pending::is_branch, in_flight::specs::Pending::has_turn))]
fn holds_event(machine: &Machine, event: &Event, refusal: &Refusal, pending: &Pending) -> bool
    ensures { result ≡ holds_event machine.now event.now refusal.now pending.now }
{
    let reservation = pending.reservation();
    let is_earlier = pending.is_before(number_at(machine, event));
    match *refusal {
        Refusal::BranchPending => reservation.is_branch(),
        Refusal::FetchWait => delays_next_fetch(machine.state(), pending),
        Refusal::UnitBusy(unit) => holds_kind(unit, &reservation),
        Refusal::ResultReserved(register) => reservation.has_to_come(&register),
        Refusal::OperandAwaited(register) => is_earlier && reservation.has_to_come(&register),
        Refusal::ResultHeld(register) => is_earlier && reservation.has_to_read(&register),
        Refusal::HopperFull => pending.is_entered(),
        Refusal::OutOfTurn => is_earlier && reservation.has_turn(),
        Refusal::OlderAtAddress => is_earlier && holds_reference(machine, event, pending),
        Refusal::NotDrained => true,
        Refusal::PeripheralWait => delays_event(event, pending),
        Refusal::Halted(_)
        | Refusal::Faulted
        | Refusal::Budget
        | Refusal::ExchangeWaiting
        | Refusal::BankBusy(_)
        | Refusal::Nothing
        | Refusal::Stranger
        | Refusal::ExchangeBusy
        | Refusal::PackageRange
        | Refusal::Deck { .. }
        | Refusal::OutOfMemory
        | Refusal::Read
        | Refusal::Write
        | Refusal::MemorySize
        | Refusal::MidWord
        | Refusal::PeripheralRange => false,
    }
}

/// Writes the number of the pending instruction, if it holds the event back.
fn put_holder<O: Output>(
    output: &mut O,
    machine: &Machine,
    event: &Event,
    refusal: &Refusal,
    pending: &Pending,
) -> Result<(), WriteFailed>
    ensures { Puts O.Output result output.old output.new
        (holder_line machine.now event.now refusal.now pending.now) }
{
    if holds_event(machine, event, refusal, pending) {
        put_pieces(output, &[Piece::Count(pending.number), Piece::Text(b"\n")])
    } else {
        Ok(())
    }
}

/// Writes the numbers of the instructions in this list that hold the event back.
fn put_held_by<O: Output>(
    output: &mut O,
    machine: &Machine,
    event: &Event,
    refusal: &Refusal,
    pending: &[Pending],
) -> Result<(), WriteFailed>
    ensures { Puts O.Output result output.old output.new
        (flat_map (holder_line machine.now event.now refusal.now) pending.now) }
{
    for one in pending {
        put_holder(output, machine, event, refusal, one)?;
    }
    Ok(())
}

/// Writes the numbers of the pending instructions that hold back an event, which was refused for this reason. They are
/// in issue order, one on a line.
fn put_holders<O: Output>(
    output: &mut O,
    machine: &Machine,
    event: Event,
    refusal: Refusal,
) -> Result<(), WriteFailed>
    ensures { Puts O.Output result output.old output.new (holders_text machine.now event refusal) }
{
    let pending = machine.pending();
    put_held_by(output, machine, &event, &refusal, pending.as_slice())
}

/// Writes the numbers of the pending instructions that hold back an event with this answer; none if it isn't refused.
fn put_holders_of<O: Output>(
    output: &mut O,
    machine: &Machine,
    event: Event,
    answer: &Answer,
) -> Result<(), WriteFailed>
    ensures { Puts O.Output result output.old output.new (holders_of machine.now event answer.now) }
{
    match answer {
        Ok(_) => Ok(()),
        Err(refusal) => put_holders(output, machine, event, *refusal),
    }
}

/// Writes the line of the answer to an event, and then the numbers of the pending instructions that hold it back.
fn put_judged<O: Output>(
    output: &mut O,
    machine: &Machine,
    event: Event,
    answer: &Answer,
) -> Result<(), WriteFailed>
    ensures { Puts O.Output result output.old output.new
        (answer_line answer.now ++ holders_of machine.now event answer.now) }
{
    put_answer(output, answer)?;
    put_holders_of(output, machine, event, answer)
}

/// Writes the line of the answer that an event would get now, and then the numbers of the pending instructions that hold
/// it back, in issue order, one on a line. The machine doesn't change.
///
/// # Errors
/// Fails if a write fails. The output then has a prefix of the text.
pub fn put_judgement<O: Output>(
    output: &mut O,
    machine: &Machine,
    event: Event,
) -> Result<(), WriteFailed>
    ensures { Puts O.Output result output.old output.new (judgement_text machine.now event) }
{
    // A copy, because the proof of a call accepts no value that was passed to another call.
    let judged = event;
    let answer = machine.judge(judged);
    put_judged(output, machine, event, &answer)
}

//! Makes each worked schedule in every way of making events: as the lines of a session, one by one, as one list, and by
//! the calls of a machine under its lock.

ghost use Rattle.std.specs.Prelude.{◌≡◌};

use super::dump::put_dump;
use super::schedule::Schedule;
use super::seat_holder::SeatHolder;
use super::{reference_schedules, register_schedules};
use deck::{Deck, read_deck};
use device_text::CheckedWriter;
use instructions::{Refusal, Unit};
use job_deck::{ScheduleLine, dump, events, parse_schedule_line, put_answer};
use machine::Machine;
use machine_lock::{Ground, Naming};
use program_order::{Answer, Event, Snapshot};
use relocation::Storage;
use std::alloc::{AllocError, Global};
use std::marker::Brand;
use std::process::Abort;
use std::sync::Wait;
use std::test::Fail;
use word60::Word60;

/// Appends a line to a text.
fn put_line(text: &mut Vec<u8>, line: &str) -> Result<(), AllocError> {
    text.extend_from_slice(line.as_bytes())?;
    text.push(b'\n')?;
    Ok(())
}

/// Appends the lines of a session: the deck, the events and a drain.
fn put_session(session: &mut Vec<u8>, schedule: &Schedule) -> Result<(), AllocError> {
    session.extend_from_slice(schedule.deck.as_bytes())?;
    for (event, _) in schedule.steps {
        put_line(session, event)?;
    }
    put_line(session, "drain")
}

/// Appends the lines that answer the events.
fn put_answers(answers: &mut Vec<u8>, schedule: &Schedule) -> Result<(), AllocError> {
    for (_, answer) in schedule.steps {
        put_line(answers, answer)?;
    }
    Ok(())
}

/// Appends the output of the session: the answers, and the dump of the drained machine.
fn put_printed(printed: &mut Vec<u8>, schedule: &Schedule) -> Result<(), AllocError> {
    put_answers(printed, schedule)?;
    put_dump(printed, schedule.dump)
}

/// The event of a line.
fn event_of(line: &'static str) -> Result<Event, Fail> {
    match parse_schedule_line(line.as_bytes()) {
        ScheduleLine::Makes(event) => Ok(event),
        _ => Err(Fail::from(line)),
    }
}

/// Appends the events of the lines.
fn put_events(events: &mut Vec<Event>, schedule: &Schedule) -> Result<(), Fail> {
    for (line, _) in schedule.steps {
        events.push(event_of(line)?)?;
    }
    Ok(())
}

/// The events of the lines.
fn events_of(alloc: Global, schedule: &Schedule) -> Result<Vec<Event>, Fail> {
    let mut events = Vec::new(alloc);
    put_events(&mut events, schedule)?;
    Ok(events)
}

/// Appends the lines of answers in a session.
fn put_lines(text: &mut Vec<u8>, answers: &[Answer]) -> Result<(), Fail> {
    let mut output = CheckedWriter::new(text);
    for answer in answers {
        put_answer(&mut output, answer)?;
    }
    Ok(())
}

/// The deck of a schedule.
fn deck_of(alloc: Global, schedule: &Schedule) -> Result<Deck, Fail> {
    let mut text = schedule.deck.as_bytes();
    match read_deck(alloc, &mut text) {
        Ok(deck) => Ok(deck),
        Err(_) => Err(Fail::from(schedule.name)),
    }
}

/// A machine booted with the memory of a deck.
fn booted(alloc: Global, deck: &Deck, schedule: &Schedule) -> Result<Machine, Fail> {
    let memory = deck.image.memory().copy()?;
    let budget = schedule.budget.min(10_000_000);
    Ok(Machine::boot(alloc, memory, budget)?)
}

/// A memory of `size` words that holds these words, and the status of the booted machine at 47 (octal) unless another
/// word is there.
fn memory_of(alloc: Global, size: u32, words: &[(u32, &str)]) -> Result<Storage, Refusal> {
    let mut memory = Storage::new(alloc, size)?;
    memory.store(0o47 % size, Word60::from_bits(1 << 36));
    for (address, octal) in words {
        let word = Word60::from_octal(octal.as_bytes()).unwrap_or_default();
        if *address < memory.size() {
            memory.store(*address, word);
        }
    }
    Ok(memory)
}

/// Whether two memories have the same words.
fn is_same(one: &Storage, other: &Storage) -> bool {
    let words = one.size().min(other.size());
    (0..words).all(|address| one.load(address) == other.load(address)) && one.size() == other.size()
}

/// Expects the final state of the schedule, the deck's memory as the boot memory, and the schedule's budget.
fn expect_left(
    rt: &(impl Abort + AllocGlobal),
    schedule: &Schedule,
    deck: &Deck,
    snapshot: &Snapshot,
) -> Result<(), Fail> {
    let mut text = Vec::new(rt.alloc());
    dump(snapshot.state(), snapshot.log(), deck, &mut text)?;
    let mut wanted = Vec::new(rt.alloc());
    put_dump(&mut wanted, schedule.dump)?;
    let memory = memory_of(rt.alloc(), deck.image.memory().size(), schedule.memory)?;
    let is_left = is_same(&snapshot.state().memory, &memory);
    let is_booted = is_same(snapshot.boot_memory(), deck.image.memory());
    assert_eq!(rt;
        (text, is_left, is_booted, snapshot.budget()),
        (wanted, true, true, schedule.budget),
        "{}",
        schedule.name
    );
    Ok(())
}

/// Drains the machine, and expects that this takes the schedule's number of events. Expects that a snapshot before is
/// refused if anything is pending, and that the snapshot after has the schedule's final state.
fn expect_drained(
    rt: &(impl Abort + AllocGlobal),
    schedule: &Schedule,
    deck: &Deck,
    machine: &mut Machine,
) -> Result<(), Fail> {
    let is_pending = machine.snapshot().err() == Some(Refusal::NotDrained);
    let left = machine.drain();
    assert_eq!(rt;
        (is_pending, left),
        (schedule.left > 0, schedule.left),
        "{}",
        schedule.name
    );
    let snapshot = machine.snapshot()?;
    expect_snapshot(rt, schedule, deck, machine, &snapshot)
}

/// Expects that the snapshot of the drained machine has the machine's log and the schedule's final state.
fn expect_snapshot(
    rt: &(impl Abort + AllocGlobal),
    schedule: &Schedule,
    deck: &Deck,
    machine: &Machine,
    snapshot: &Snapshot,
) -> Result<(), Fail> {
    let is_logged = machine.log().entries() == snapshot.log().entries();
    assert!(rt; is_logged, "{}", schedule.name);
    expect_left(rt, schedule, deck, snapshot)
}

/// Expects answers with the lines of the schedule.
fn expect_answers(
    rt: &(impl Abort + AllocGlobal),
    schedule: &Schedule,
    answers: &[Answer],
) -> Result<(), Fail> {
    let mut text = Vec::new(rt.alloc());
    put_lines(&mut text, answers)?;
    let mut wanted = Vec::new(rt.alloc());
    put_answers(&mut wanted, schedule)?;
    assert_eq!(rt; text, wanted, "{}", schedule.name);
    Ok(())
}

/// Expects the schedule's answers, and then its final state.
fn expect_made(
    rt: &(impl Abort + AllocGlobal),
    schedule: &Schedule,
    deck: &Deck,
    machine: &mut Machine,
    answers: &[Answer],
) -> Result<(), Fail> {
    expect_answers(rt, schedule, answers)?;
    expect_drained(rt, schedule, deck, machine)
}

/// Makes one event after another.
fn expect_events(
    rt: &(impl Abort + AllocGlobal),
    schedule: &Schedule,
    deck: &Deck,
) -> Result<(), Fail> {
    let mut machine = booted(rt.alloc(), deck, schedule)?;
    let mut answers = Vec::new(rt.alloc());
    for event in events_of(rt.alloc(), schedule)? {
        answers.push(machine.apply(event))?;
    }
    expect_made(rt, schedule, deck, &mut machine, answers.as_slice())
}

/// Makes all events as one list.
fn expect_one_run(
    rt: &(impl Abort + AllocGlobal),
    schedule: &Schedule,
    deck: &Deck,
) -> Result<(), Fail> {
    let mut machine = booted(rt.alloc(), deck, schedule)?;
    let events = events_of(rt.alloc(), schedule)?;
    let mut answers = Vec::new(rt.alloc());
    machine.run(events.as_slice(), &mut answers)?;
    expect_made(rt, schedule, deck, &mut machine, answers.as_slice())
}

/// Runs the lines as a session that ends with a drain.
fn expect_lines(rt: &(impl Abort + AllocGlobal), schedule: &Schedule) -> Result<(), Fail> {
    let mut session = Vec::new(rt.alloc());
    put_session(&mut session, schedule)?;
    let mut wanted = Vec::new(rt.alloc());
    put_printed(&mut wanted, schedule)?;
    let mut left = session.as_slice();
    let mut printed = Vec::new(rt.alloc());
    events(
        rt.alloc(),
        &mut left,
        &mut printed,
        schedule.budget.min(10_000_000),
    )?;
    assert_eq!(rt; (printed, left.len()), (wanted, 0), "{}", schedule.name);
    Ok(())
}

/// The number of reservations of one unit that the schedule stores.
fn stored_with(schedule: &Schedule, store: &str) -> u64 {
    let mut stored = 0u64;
    for step in schedule.steps {
        if *step == (store, "ok") {
            stored = stored.saturating_add(1);
        }
    }
    stored
}

/// The expected answers of the seats: for each seat its unit and the number of reservations stored with it.
fn stored_by_unit(schedule: &Schedule) -> [Option<(Unit, u64)>; 7] {
    [
        (Unit::Branch, "store branch"),
        (Unit::Boolean, "store boolean"),
        (Unit::Shift, "store shift"),
        (Unit::LongAdd, "store longadd"),
        (Unit::Divide, "store divide"),
        (Unit::Increment1, "store increment1"),
        (Unit::Increment2, "store increment2"),
    ]
    .map(|(unit, store)| Some((unit, stored_with(schedule, store))))
}

/// Makes an event by the call of its name, and also on a separate machine. Returns whether the answers are equal, and
/// both machines are drained or neither is.
fn is_alike<K: Naming>(
    rt: &impl Wait,
    holder: &mut SeatHolder<K>,
    machine: &mut Machine,
    event: &Event,
) -> bool {
    holder.call(rt, *event) == machine.apply(*event) && holder.drained(rt) == machine.drained()
}

/// The number of events with equal results on both machines.
fn count_alike<K: Naming>(
    rt: &(impl AllocGlobal + Wait),
    schedule: &Schedule,
    deck: &Deck,
    holder: &mut SeatHolder<K>,
) -> Result<usize, Fail> {
    let mut machine = booted(rt.alloc(), deck, schedule)?;
    let mut alike = 0usize;
    for (line, _) in schedule.steps {
        if is_alike(rt, holder, &mut machine, &event_of(line)?) {
            alike = alike.saturating_add(1);
        }
    }
    Ok(alike)
}

/// The number of events with equal results on both machines, the answers of the seats and the final snapshot. Leaves
/// the seats.
fn told_by<K: Naming>(
    rt: &(impl AllocGlobal + Wait),
    schedule: &Schedule,
    deck: &Deck,
    mut holder: SeatHolder<K>,
) -> Result<(usize, [Option<(Unit, u64)>; 7], Snapshot), Fail> {
    let alike = count_alike(rt, schedule, deck, &mut holder);
    let snapshot = holder.snapshot(rt);
    let stored = holder.leave();
    Ok((alike?, stored, snapshot?))
}

/// Makes the events by the calls of a locked machine, with `ground` as its progress word. The schedule leaves nothing
/// pending.
fn expect_calls_beside<K: Naming>(
    rt: &(impl Abort + AllocGlobal + Wait),
    schedule: &Schedule,
    deck: &Deck,
    ground: Ground,
) -> Result<(), Fail>
    requires { ground ≡ K.table }
{
    let machine = booted(rt.alloc(), deck, schedule)?;
    let holder = SeatHolder::<K>::open(rt.alloc(), ground, machine)?;
    let (alike, stored, snapshot) = told_by(rt, schedule, deck, holder)?;
    assert_eq!(rt;
        (alike, stored),
        (schedule.steps.len(), stored_by_unit(schedule)),
        "{}",
        schedule.name
    );
    expect_left(rt, schedule, deck, &snapshot)
}

/// Makes the events by the calls of a locked machine, with a new progress word.
fn expect_calls(
    rt: &(impl Abort + AllocGlobal + Wait),
    schedule: &Schedule,
    deck: &Deck,
) -> Result<(), Fail> {
    let ground = Ground::new(rt.alloc())?;
    expect_calls_beside::<Brand>(rt, schedule, deck, ground)
}

/// Makes a schedule in every way.
fn expect_each(rt: &(impl Abort + AllocGlobal + Wait), schedule: &Schedule) -> Result<(), Fail> {
    expect_lines(rt, schedule)?;
    let deck = deck_of(rt.alloc(), schedule)?;
    expect_on_deck(rt, schedule, &deck)
}

/// Makes a schedule in every way but as the lines of a session.
fn expect_on_deck(
    rt: &(impl Abort + AllocGlobal + Wait),
    schedule: &Schedule,
    deck: &Deck,
) -> Result<(), Fail> {
    expect_events(rt, schedule, deck)?;
    expect_one_run(rt, schedule, deck)?;
    if schedule.left == 0 {
        expect_calls(rt, schedule, deck)?;
    }
    Ok(())
}

/// Makes each of the schedules.
fn expect_all(rt: &(impl Abort + AllocGlobal + Wait), schedules: &[Schedule]) -> Result<(), Fail> {
    for schedule in schedules {
        expect_each(rt, schedule)?;
    }
    Ok(())
}

/// Instructions that make no reference.
#[test]
fn registers(rt: HostRuntime) -> Result<(), Fail> {
    expect_all(&rt, register_schedules::SCHEDULES.as_slice())
}

/// Loads, stores and peripheral accesses.
#[test]
fn references(rt: HostRuntime) -> Result<(), Fail> {
    expect_all(&rt, reference_schedules::SCHEDULES.as_slice())
}

/// Makes the events of a schedule without looking at their answers, and drains the machine.
fn make_and_drain(machine: &mut Machine, schedule: &Schedule) -> Result<(), Fail> {
    for (line, _) in schedule.steps {
        let _ = machine.apply(event_of(line)?);
    }
    machine.drain();
    Ok(())
}

/// Whether these banks are busy, and no others.
fn are_busy(machine: &Machine, banks: &[u8]) -> bool {
    (0..32u8).all(|bank| machine.is_bank_busy(bank) == banks.contains(&bank))
}

/// The last schedule with references leaves two banks busy. A drain frees bank 8, for which a load waits, and that load
/// then takes it. Bank 31, for which nothing waits, stays busy.
#[test]
fn busy_banks(rt: HostRuntime) -> Result<(), Fail> {
    let schedule = &reference_schedules::SCHEDULES[5];
    let deck = deck_of(rt.alloc(), schedule)?;
    let mut machine = booted(rt.alloc(), &deck, schedule)?;
    make_and_drain(&mut machine, schedule)?;
    assert!(rt; are_busy(&machine, &[8, 31]), "{}", schedule.name);
    Ok(())
}

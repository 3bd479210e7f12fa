//! Lanes: what fills a lane, what is taken from it, and that nothing comes after `Closed`.

ghost use Rattle.std.specs.Prelude.{◌≡◌};

use instructions::Unit;
use program_order::Note;
use std::sync::Wait;
use std::test::Fail;
use std::thread;
use std::thread::Threads;
use unit_queue::{Item, Lane, SendPass, TakePass, lane};

fn note(number: u64) -> Note {
    Note {
        unit: Unit::Shift,
        number,
    }
}

/// A lane belongs to its unit, and is empty at first.
#[test]
fn empty_at_first(rt: HostRuntime) -> Result<(), Fail> {
    for unit in [Unit::Branch, Unit::Increment2] {
        let (lane, _, mut taker) = lane(rt.alloc(), unit)?;
        assert!(rt; lane.unit() == unit);
        assert!(rt; lane.take(&rt, &mut taker).is_none());
    }
    Ok(())
}

/// A lane with both of its ends.
#[derive(Drop)]
struct Ends<'a> {
    lane: &'a Lane,
    sender: SendPass,
    taker: TakePass,
    ghost sends: { sender.id ≡ lane.now.id },
    ghost takes: { taker.id ≡ lane.now.id },
}

/// A call on a lane.
#[derive(Clone, Copy, Debug, Drop)]
enum Call {
    /// Sends the note with this number.
    Send(u64),
    Close,
    Take,
}

/// The answer of a call.
#[derive(Clone, Copy, Debug, Drop, PartialEq, Eq)]
enum Answer {
    /// The note was sent, or the lane is closed.
    Done,
    /// The note was returned.
    Back(Note),
    /// There was no room to close the lane.
    Full,
    Taken(Item),
    Nothing,
}

impl Ends<'_> {
    fn make<R: Wait>(&mut self, rt: &R, call: Call) -> Answer {
        match call {
            Call::Send(number) => match self.lane.send(rt, &mut self.sender, note(number)) {
                Ok(()) => Answer::Done,
                Err(back) => Answer::Back(back),
            },
            Call::Close if self.lane.close(rt, &mut self.sender) => Answer::Done,
            Call::Close => Answer::Full,
            Call::Take => match self.lane.take(rt, &mut self.taker) {
                Some(item) => Answer::Taken(item),
                None => Answer::Nothing,
            },
        }
    }
}

/// Two items fill a lane: a third note is returned, and there is room again after one item was taken. After the lane
/// was closed it accepts no note, and after `Closed` was taken it is empty.
#[test]
fn full_then_room_then_closed(rt: HostRuntime) -> Result<(), Fail> {
    let (lane, sender, taker) = lane(rt.alloc(), Unit::Shift)?;
    let mut ends = Ends {
        lane: &lane,
        sender,
        taker,
    };
    for (call, answer) in [
        (Call::Send(1), Answer::Done),
        (Call::Send(2), Answer::Done),
        (Call::Send(3), Answer::Back(note(3))),
        (Call::Close, Answer::Full),
        (Call::Take, Answer::Taken(Item::Work(note(1)))),
        (Call::Send(3), Answer::Done),
        (Call::Take, Answer::Taken(Item::Work(note(2)))),
        (Call::Close, Answer::Done),
        (Call::Send(4), Answer::Back(note(4))),
        (Call::Take, Answer::Taken(Item::Work(note(3)))),
        (Call::Send(4), Answer::Back(note(4))),
        (Call::Close, Answer::Done),
        (Call::Take, Answer::Taken(Item::Closed)),
        (Call::Take, Answer::Nothing),
    ] {
        assert_eq!(rt; ends.make(&rt, call), answer, "{call:?}");
    }
    Ok(())
}

/// A lane with its sending end.
#[derive(Drop)]
pub struct Sending<'a> {
    pub lane: &'a Lane,
    pub pass: SendPass,
    ghost ends_it: { pass.id ≡ lane.now.id },
}

impl Sending<'_> {
    /// Sends a note as soon as there is room.
    pub fn send<R: Wait>(&mut self, rt: &R, note: Note) {
        for _ in rt.forever() {
            if self.lane.send(rt, &mut self.pass, note).is_ok() {
                return;
            }
            thread::yield_now();
        }
        unreachable!()
    }

    /// Closes the lane as soon as there is room.
    pub fn close<R: Wait>(&mut self, rt: &R) {
        for _ in rt.forever() {
            if self.lane.close(rt, &mut self.pass) {
                return;
            }
            thread::yield_now();
        }
        unreachable!()
    }

    /// Sends `count` notes, numbered from 1, and closes the lane.
    fn send_all<R: Wait>(&mut self, rt: &R, count: u64) {
        for number in 0..count {
            self.send(rt, note(number + 1));
        }
        self.close(rt);
    }
}

/// A lane with its taking end.
#[derive(Drop)]
pub struct Taking<'a> {
    pub lane: &'a Lane,
    pub pass: TakePass,
    ghost ends_it: { pass.id ≡ lane.now.id },
}

impl Taking<'_> {
    /// Takes items until the lane is closed. Returns how many notes came, and how many of them had the number that
    /// `send_all` sends at their position.
    fn take_all<R: Wait>(&mut self, rt: &R) -> (u64, u64) {
        let mut taken = 0u64;
        let mut met = 0u64;
        for _ in rt.forever() {
            match self.lane.take(rt, &mut self.pass) {
                Some(Item::Work(found)) => {
                    taken = taken.saturating_add(1);
                    if found == note(taken) {
                        met = met.saturating_add(1);
                    }
                }
                Some(Item::Closed) => return (taken, met),
                None => thread::yield_now(),
            }
        }
        unreachable!()
    }
}

/// What `take_all` returns for a lane on which another thread sends this many notes. `None` if the thread couldn't be
/// started.
fn taken_across<R: Threads + Wait + Sync>(
    rt: &R,
    sending: Sending<'_>,
    taking: Taking<'_>,
    count: u64,
) -> Option<(u64, u64)> {
    let mut sending = sending;
    let mut taking = taking;
    thread::scope(thread::scope_env(), rt, move |scope| {
        let sent = scope.spawn(move || sending.send_all(rt, count)).ok()?;
        let taken = taking.take_all(rt);
        sent.join(rt);
        Some(taken)
    })
}

/// One thread sends 5000 notes and another takes them: each note comes once, in order.
#[test]
fn across_threads(rt: HostRuntime) -> Result<(), Fail> {
    let (lane, sender, taker) = lane(rt.alloc(), Unit::Shift)?;
    let sending = Sending {
        lane: &lane,
        pass: sender,
    };
    let taking = Taking {
        lane: &lane,
        pass: taker,
    };
    assert!(rt; taken_across(&rt, sending, taking, 5_000) == Some((5_000, 5_000)));
    Ok(())
}

/// Takes an item and, if it is `Closed`, ends the sending end. Returns whether it did, and nothing waits then.
fn settles<R: Wait>(rt: &R, lane: &Lane, mut taker: TakePass, sender: SendPass) -> bool
    requires taker { taker.id ≡ lane.now.id }
    requires sender { sender.id ≡ lane.now.id }
{
    match lane.take(rt, &mut taker) {
        Some(Item::Closed) => {
            lane.settle(rt, &mut taker, sender);
            lane.take(rt, &mut taker).is_none()
        }
        _ => false,
    }
}

/// After `Closed` was taken, the sending end can be ended, and nothing waits.
#[test]
fn settled(rt: HostRuntime) -> Result<(), Fail> {
    let (lane, mut sender, mut taker) = lane(rt.alloc(), Unit::Shift)?;
    assert!(rt; lane.send(&rt, &mut sender, note(1)) == Ok(()));
    assert!(rt; lane.close(&rt, &mut sender));
    assert!(rt; lane.take(&rt, &mut taker) == Some(Item::Work(note(1))));
    assert!(rt; settles(&rt, &lane, taker, sender));
    Ok(())
}

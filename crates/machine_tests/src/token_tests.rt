//! Calls with tokens: their refusals, and the tokens that come back. `OFFERS` is the table of tokens that are offered
//! to another machine.

use crate::fixtures::{
    MADE, drain, issued, make, meets, seat_of_increment1, shows, started, started_with, x,
};
use instructions::{Refusal, Unit};
use machine::{Computed, Finished, Loaded, Machine, Reserved, Seat};
use program_order::{Answer, Event, Note};
use std::alloc::Global;
use std::process::Abort;
use std::test::Fail;

/// The call that is due for a token.
#[derive(Clone, Copy, Debug, Drop)]
enum Due {
    Read,
    Finish,
    Store,
}

/// A word whose second instruction goes to Increment1, the content of X2 before it, and the number of its reservation.
#[derive(Clone, Copy, Drop)]
struct Program<'a> {
    code: &'a str,
    x2: &'a str,
    number: u64,
}

/// The call that is due for a token, and the program of the token's machine. Then the program of the machine to which
/// the token is offered, and that machine's X1 and X2 at the end.
type Offer = (
    Due,
    Program<'static>,
    Program<'static>,
    &'static str,
    &'static str,
);

/// NO and SX1 B0+5.
const FIRST: Program<'static> = Program {
    code: "46000711000000546000",
    x2: "3",
    number: 1,
};

/// LX3 1 and SX1 B0+5: the number differs from `FIRST`.
const SECOND: Program<'static> = Program {
    code: "20301711000000546000",
    x2: "3",
    number: 2,
};

/// NO and SX2 B0+5: the instruction differs from `FIRST`.
const OTHER: Program<'static> = Program {
    code: "46000712000000546000",
    x2: "3",
    number: 1,
};

/// NO and SX1 X2+B0.
const THREE: Program<'static> = Program {
    code: "46000731204600046000",
    x2: "3",
    number: 1,
};

/// The same, with a different operand.
const FOUR: Program<'static> = Program {
    code: "46000731204600046000",
    x2: "4",
    number: 1,
};

/// Tokens of one machine, each offered to a machine whose own reservation in the unit differs.
const OFFERS: [Offer; 5] = [
    (Due::Read, FIRST, SECOND, "5", "3"),
    (Due::Finish, FIRST, SECOND, "5", "3"),
    (Due::Store, FIRST, SECOND, "5", "3"),
    (Due::Finish, FIRST, OTHER, "0", "5"),
    (Due::Finish, THREE, FOUR, "4", "4"),
];

/// SX1 B0+5 and SX1 B0+6, each with stops after it.
const FIVE: &str = "71100000050000000000";

const SIX: &str = "71100000060000000000";

/// SX1 B0+5 and SX2 B0+6.
const FIVE_AND_SIX: &str = "71100000057120000006";

fn note(number: u64) -> Note {
    Note {
        unit: Unit::Increment1,
        number,
    }
}

/// Claims and reads. Returns the seat if a call is refused.
fn load(machine: &mut Machine, seat: Seat, note: Note) -> Result<Loaded, Seat> {
    match machine.claim(seat, note) {
        Err((_, seat)) => Err(seat),
        Ok(reserved) => match machine.read(reserved) {
            Err((_, reserved)) => Err(reserved.abandon()),
            Ok(loaded) => Ok(loaded),
        },
    }
}

/// Makes the calls from claim to finish. Returns the seat if a call is refused.
fn finish(machine: &mut Machine, seat: Seat, note: Note) -> Result<Finished, Seat> {
    let computed = load(machine, seat, note)?.compute();
    match machine.finish(computed) {
        Err((_, computed)) => Err(computed.abandon()),
        Ok(finished) => Ok(finished),
    }
}

/// Makes the calls from claim to store. Returns whether all of them were accepted.
fn serve(machine: &mut Machine, seat: Seat, note: Note) -> (Seat, bool) {
    match finish(machine, seat, note) {
        Err(seat) => (seat, false),
        Ok(finished) => match machine.store(finished) {
            Err((_, finished)) => (finished.abandon(), false),
            Ok(seat) => (seat, true),
        },
    }
}

/// Computes the value of reservation 1. `None` if its seat, its claim or its read is refused.
fn computed(machine: &mut Machine) -> Option<Computed> {
    let seat = seat_of_increment1(machine)?;
    match load(machine, seat, note(1)) {
        Ok(loaded) => Some(loaded.compute()),
        Err(seat) => {
            seat.leave();
            None
        }
    }
}

/// Gives the machine a value from another machine's operands, and then its own value. Returns whether the first is
/// refused and the second isn't.
fn crossed(machine: &mut Machine, foreign: Computed) -> bool {
    let Some(own) = computed(machine) else {
        foreign.abandon().leave();
        return false;
    };
    let is_refused = is_foreign(machine, foreign);
    match machine.finish(own) {
        Ok(finished) => {
            finished.abandon().leave();
            is_refused
        }
        Err((_, computed)) => {
            computed.abandon().leave();
            false
        }
    }
}

/// Whether `finish` refuses the token as a stranger's.
fn is_foreign(machine: &mut Machine, token: Computed) -> bool {
    match machine.finish(token) {
        Ok(finished) => {
            finished.abandon().leave();
            false
        }
        Err((refusal, token)) => {
            token.abandon().leave();
            refusal == Refusal::Stranger
        }
    }
}

/// Whether two instructions are issued, the first to one unit and the second to the other.
fn issues_two(machine: &mut Machine, one: Unit, other: Unit) -> bool {
    meets(
        machine,
        &[
            (Event::Issue, issued(one, 1)),
            (Event::Issue, issued(other, 2)),
        ],
    )
}

/// A machine with this word at 100, which has issued one instruction to Increment1.
fn issued_one(alloc: Global, code: &str) -> Option<Machine> {
    let mut machine = started(alloc, code)?;
    if make(&mut machine, Event::Issue) == issued(Unit::Increment1, 1) {
        Some(machine)
    } else {
        None
    }
}

/// The value of the reservation of SX1 B0+5, from a machine of its own.
fn value_of_five(alloc: Global) -> Option<Computed> {
    let mut five = issued_one(alloc, FIVE)?;
    computed(&mut five)
}

/// Of two machines that have issued SX1 B0+5 and SX1 B0+6, the second refuses the first one's value.
#[test]
fn value_of_another_machine(rt: HostRuntime) -> Result<(), Fail> {
    let mut six = issued_one(rt.alloc(), SIX).ok_or("six")?;
    let value = value_of_five(rt.alloc()).ok_or("five")?;
    let is_refused = crossed(&mut six, value);
    assert!(rt; is_refused && drain(&mut six) == 1 && shows(&six, "6", "0", 1));
    Ok(())
}

/// Whether the value of a word's first instruction, which goes to Increment1, makes a reference to memory.
fn refers(alloc: Global, code: &str) -> Option<bool> {
    let mut machine = issued_one(alloc, code)?;
    let value = computed(&mut machine)?;
    let has_reference = value.has_reference();
    value.abandon().leave();
    Some(has_reference)
}

/// SX1 B0+5 and SA0 B0+5 make no reference; SA1 B0+5 and SA6 B0+5 make one.
#[test]
fn values_with_references(rt: HostRuntime) -> Result<(), Fail> {
    let set = refers(rt.alloc(), FIVE).ok_or("set")?;
    let addressed = refers(rt.alloc(), "51000000050000000000").ok_or("addressed")?;
    let loaded = refers(rt.alloc(), "51100000050000000000").ok_or("loaded")?;
    let stored = refers(rt.alloc(), "51600000050000000000").ok_or("stored")?;
    assert!(rt; !set && !addressed && loaded && stored);
    Ok(())
}

/// Whether the seats are given out. They are then given up.
fn are_given(machine: &mut Machine) -> bool {
    match seat_of_increment1(machine) {
        Some(seat) => {
            seat.leave();
            true
        }
        None => false,
    }
}

/// Whether the next instruction is issued to Increment1 with this number, and served with its seat.
fn issue_and_serve(machine: &mut Machine, seat: Seat, number: u64) -> (Seat, bool) {
    let is_issued = make(machine, Event::Issue) == issued(Unit::Increment1, number);
    let (seat, is_stored) = serve(machine, seat, note(number));
    (seat, is_issued && is_stored)
}

/// Whether one seat serves reservations 1 and 2, and counts them.
fn are_served(machine: &mut Machine) -> bool {
    let Some(seat) = seat_of_increment1(machine) else {
        return false;
    };
    let (seat, is_first_served) = issue_and_serve(machine, seat, 1);
    let (seat, is_second_served) = issue_and_serve(machine, seat, 2);
    let (unit, stored) = (seat.unit(), seat.stored());
    let left = seat.leave();
    is_first_served && is_second_served && unit == Unit::Increment1 && stored == 2 && left == 2
}

/// A seat serves two reservations and counts them; the seats are given out once.
#[test]
fn two_reservations(rt: HostRuntime) -> Result<(), Fail> {
    let mut machine = started(rt.alloc(), FIVE_AND_SIX).ok_or("start")?;
    let are_served = are_served(&mut machine);
    assert!(rt; are_served && !are_given(&mut machine) && shows(&machine, "5", "6", 2));
    Ok(())
}

/// The refusal of a claim, with the seat; `None` if the claim is accepted.
fn refused_claim(machine: &mut Machine, seat: Seat, note: Note) -> (Seat, Option<Refusal>) {
    match machine.claim(seat, note) {
        Ok(reserved) => (reserved.abandon(), None),
        Err((refusal, seat)) => (seat, Some(refusal)),
    }
}

/// Whether all claims of these notes with the seat are a stranger's.
fn are_strange(machine: &mut Machine, seat: Seat, notes: &[Note]) -> (Seat, bool) {
    let mut at = seat;
    for note in notes {
        let (back, refusal) = refused_claim(machine, at, *note);
        at = back;
        if refusal != Some(Refusal::Stranger) {
            return (at, false);
        }
    }
    (at, true)
}

/// Whether the seat can claim reservation 1 alone, and only once.
fn is_one_claimed(machine: &mut Machine, seat: Seat) -> bool {
    let other = Note {
        unit: Unit::Increment2,
        number: 2,
    };
    let notes = [note(0), note(2), note(u64::MAX), other];
    let (seat, is_strange) = are_strange(machine, seat, &notes);
    let (seat, is_stored) = serve(machine, seat, note(1));
    let (seat, is_stale) = are_strange(machine, seat, &[note(1)]);
    let stored = seat.leave();
    is_strange && is_stored && is_stale && stored == 1
}

/// Whether that holds from the issue of reservation 1 on, and a claim before the issue is refused.
fn is_claimed_when_issued(machine: &mut Machine) -> bool {
    let Some(seat) = seat_of_increment1(machine) else {
        return false;
    };
    let (seat, early) = refused_claim(machine, seat, note(1));
    let is_issued = issues_two(machine, Unit::Increment1, Unit::Increment2);
    let is_claimed = is_one_claimed(machine, seat);
    early == Some(Refusal::Stranger) && is_issued && is_claimed
}

/// Claims of a number that was never given out, of a number before its issue, and of another unit's note.
#[test]
fn strange_claims(rt: HostRuntime) -> Result<(), Fail> {
    let mut machine = started(rt.alloc(), FIVE_AND_SIX).ok_or("start")?;
    assert!(rt; is_claimed_when_issued(&mut machine));
    Ok(())
}

/// The refusal of a read, with the seat; `None` if the read is accepted.
fn refused_read(machine: &mut Machine, token: Reserved) -> (Seat, Option<Refusal>) {
    match machine.read(token) {
        Ok(loaded) => (loaded.abandon(), None),
        Err((refusal, reserved)) => (reserved.abandon(), Some(refusal)),
    }
}

/// The refusal of a store, with the seat; `None` if the store is accepted.
fn refused_store(machine: &mut Machine, token: Finished) -> (Seat, Option<Refusal>) {
    match machine.store(token) {
        Ok(seat) => (seat, None),
        Err((refusal, finished)) => (finished.abandon(), Some(refusal)),
    }
}

/// Claims a reservation, and tries to read its operands.
fn claim_and_read(machine: &mut Machine, seat: Seat, note: Note) -> (Seat, Option<Refusal>) {
    match machine.claim(seat, note) {
        Ok(reserved) => refused_read(machine, reserved),
        Err((refusal, seat)) => (seat, Some(refusal)),
    }
}

/// Claims a reservation, makes an event without using the token, and tries to read the operands.
fn claim_and_miss(
    machine: &mut Machine,
    seat: Seat,
    note: Note,
    event: Event,
) -> (Seat, Option<Refusal>) {
    match machine.claim(seat, note) {
        Ok(reserved) => {
            let _ = make(machine, event);
            refused_read(machine, reserved)
        }
        Err((refusal, seat)) => (seat, Some(refusal)),
    }
}

/// The reservation of Shift, from its read event to its store event.
const SHIFTED: [(Event, Answer); 3] = [
    (Event::Read(Unit::Shift), MADE),
    (Event::Finish(Unit::Shift), MADE),
    (Event::Store(Unit::Shift), MADE),
];

/// Whether reservation 2 awaits the shift of reservation 1 for its read, and is then refused because its operands were
/// read without the token.
fn is_awaited_and_missed(machine: &mut Machine) -> bool {
    let Some(seat) = seat_of_increment1(machine) else {
        return false;
    };
    let (seat, awaited) = claim_and_read(machine, seat, note(2));
    let is_shifted = meets(machine, &SHIFTED);
    let read = Event::Read(Unit::Increment1);
    let (seat, missed) = claim_and_miss(machine, seat, note(2), read);
    let stored = seat.leave();
    awaited == Some(Refusal::OperandAwaited(x(2)))
        && is_shifted
        && missed == Some(Refusal::Stranger)
        && stored == 0
}

/// LX2 1, then SX1 X2+B0, whose operand is awaited. When the shift is done, an event reads the operands without the
/// token, so the token is a stranger's.
#[test]
fn refused_reads(rt: HostRuntime) -> Result<(), Fail> {
    let mut machine = started_with(rt.alloc(), "20201731204600046000", "3").ok_or("start")?;
    let is_issued = issues_two(&mut machine, Unit::Shift, Unit::Increment1);
    let is_refused = is_awaited_and_missed(&mut machine);
    let left = drain(&mut machine);
    assert!(rt; is_issued && is_refused && left == 2 && shows(&machine, "6", "6", 2));
    Ok(())
}

/// Tries a store that is held back, and tries it again after an event has stored the result without the token.
fn store_late(machine: &mut Machine, token: Finished) -> (Seat, Option<Refusal>, Option<Refusal>) {
    match machine.store(token) {
        Ok(seat) => (seat, None, None),
        Err((held, token)) => {
            let _ = make(machine, Event::Read(Unit::Divide));
            let _ = make(machine, Event::Store(Unit::Increment1));
            let (seat, strange) = refused_store(machine, token);
            (seat, Some(held), strange)
        }
    }
}

/// Whether the result of reservation 2 is held back, and its token is a stranger's after the result was stored without
/// it.
fn is_held_and_strange(machine: &mut Machine) -> bool {
    let Some(seat) = seat_of_increment1(machine) else {
        return false;
    };
    let (seat, held, strange) = match finish(machine, seat, note(2)) {
        Err(seat) => (seat, None, None),
        Ok(finished) => store_late(machine, finished),
    };
    let stored = seat.leave();
    held == Some(Refusal::ResultHeld(x(2))) && strange == Some(Refusal::Stranger) && stored == 0
}

/// CX1 X2, then SX2 B0+5, whose result is held back while X2 is still to be read. Its token is a stranger's after an
/// event has stored the result without it.
#[test]
fn refused_stores(rt: HostRuntime) -> Result<(), Fail> {
    let mut machine = started_with(rt.alloc(), "47102712000000546000", "17").ok_or("start")?;
    let is_issued = issues_two(&mut machine, Unit::Divide, Unit::Increment1);
    let is_refused = is_held_and_strange(&mut machine);
    let left = drain(&mut machine);
    assert!(rt; is_issued && is_refused && left == 2 && shows(&machine, "4", "5", 2));
    Ok(())
}

/// SX1 B0+5 twice.
const FIVE_TWICE: &str = "71100000057110000005";

/// A token, by the call that is due for it.
enum Token {
    Reserved(Reserved),
    Computed(Computed),
    Finished(Finished),
}

const READ: (Event, Answer) = (Event::Read(Unit::Increment1), MADE);

const FINISH: (Event, Answer) = (Event::Finish(Unit::Increment1), MADE);

const STORE: (Event, Answer) = (Event::Store(Unit::Increment1), MADE);

/// Claims a reservation. Returns the seat if the claim is refused.
fn claim(machine: &mut Machine, seat: Seat, note: Note) -> Result<Reserved, Seat> {
    match machine.claim(seat, note) {
        Err((_, seat)) => Err(seat),
        Ok(reserved) => Ok(reserved),
    }
}

/// The token for which this call is due. Returns the seat if an earlier call is refused.
fn token_due(machine: &mut Machine, seat: Seat, note: Note, due: Due) -> Result<Token, Seat> {
    match due {
        Due::Read => Ok(Token::Reserved(claim(machine, seat, note)?)),
        Due::Finish => Ok(Token::Computed(load(machine, seat, note)?.compute())),
        Due::Store => Ok(Token::Finished(finish(machine, seat, note)?)),
    }
}

/// A token of Increment1's reservation with this number, for which this call is due. `None` if its seat was given out
/// or an earlier call is refused.
fn token_of(machine: &mut Machine, number: u64, due: Due) -> Option<Token> {
    let seat = seat_of_increment1(machine)?;
    match token_due(machine, seat, note(number), due) {
        Ok(token) => Some(token),
        Err(seat) => {
            seat.leave();
            None
        }
    }
}

/// Makes the events of Increment1's reservation before this one.
fn comes_to(machine: &mut Machine, due: Due) -> bool {
    match due {
        Due::Read => true,
        Due::Finish => meets(machine, &[READ]),
        Due::Store => meets(machine, &[READ, FINISH]),
    }
}

/// Makes this event of Increment1's reservation, and the events after it.
fn goes_on(machine: &mut Machine, due: Due) -> bool {
    match due {
        Due::Read => meets(machine, &[READ, FINISH, STORE]),
        Due::Finish => meets(machine, &[FINISH, STORE]),
        Due::Store => meets(machine, &[STORE]),
    }
}

/// The refusal of a finish, with the seat; `None` if the finish is accepted.
fn refused_finish(machine: &mut Machine, token: Computed) -> (Seat, Option<Refusal>) {
    match machine.finish(token) {
        Ok(finished) => (finished.abandon(), None),
        Err((refusal, computed)) => (computed.abandon(), Some(refusal)),
    }
}

/// Whether the token's call refuses it as a stranger's, and returns its seat unchanged.
fn is_stranger(machine: &mut Machine, token: Token) -> bool {
    let (seat, refusal) = match token {
        Token::Reserved(reserved) => refused_read(machine, reserved),
        Token::Computed(computed) => refused_finish(machine, computed),
        Token::Finished(finished) => refused_store(machine, finished),
    };
    let unit = seat.unit();
    let stored = seat.leave();
    refusal == Some(Refusal::Stranger) && unit == Unit::Increment1 && stored == 0
}

/// Completes reservation 1 without its token, and offers the token when reservation 2 has reached the same stage. Then
/// completes reservation 2.
fn is_older_refused(machine: &mut Machine, due: Due) -> bool {
    let Some(token) = token_of(machine, 1, due) else {
        return false;
    };
    let is_stored = goes_on(machine, due);
    let is_issued = make(machine, Event::Issue) == issued(Unit::Increment1, 2);
    let is_there = comes_to(machine, due);
    let is_refused = is_stranger(machine, token);
    is_stored && is_issued && is_there && is_refused && goes_on(machine, due)
}

/// A token of an older reservation is a stranger's, even if the instruction and the operands are the same. The newer
/// reservation continues as if the token hadn't been offered.
#[test]
fn older_reservations(rt: HostRuntime) -> Result<(), Fail> {
    for due in [Due::Read, Due::Finish, Due::Store] {
        let mut machine = issued_one(rt.alloc(), FIVE_TWICE).ok_or("start")?;
        let is_refused = is_older_refused(&mut machine, due);
        assert!(rt; is_refused && shows(&machine, "5", "0", 2), "{due:?}");
    }
    Ok(())
}

impl Program<'_> {
    /// A machine that has issued that instruction.
    fn issued(&self, alloc: Global) -> Option<Machine> {
        let mut machine = started_with(alloc, self.code, self.x2)?;
        let _ = make(&mut machine, Event::Issue);
        if make(&mut machine, Event::Issue) == issued(Unit::Increment1, self.number) {
            Some(machine)
        } else {
            None
        }
    }

    /// A token of that instruction's reservation, from a machine of its own, for which this call is due.
    fn token(&self, alloc: Global, due: Due) -> Option<Token> {
        let mut machine = self.issued(alloc)?;
        token_of(&mut machine, self.number, due)
    }
}

/// Offers another machine's token when Increment1's reservation has reached the same stage. Then completes that
/// reservation.
fn is_refused_by(machine: &mut Machine, token: Token, due: Due) -> bool {
    let is_there = comes_to(machine, due);
    let is_refused = is_stranger(machine, token);
    is_there && is_refused && goes_on(machine, due)
}

/// Whether the token is refused, and the machine shows those words. `None` if there is no such token or machine.
fn is_refused_offer((due, one, other, x1, x2): &Offer, alloc: Global) -> Option<bool> {
    let mut machine = other.issued(alloc)?;
    let token = one.token(alloc, *due)?;
    let is_refused = is_refused_by(&mut machine, token, *due);
    let _ = drain(&mut machine);
    Some(is_refused && shows(&machine, x1, x2, 2))
}

/// A token of another machine is a stranger's if it differs in number, and at its finish also if it differs in
/// instruction or operands alone. The machine's own reservation continues as if the token hadn't been offered.
#[test]
fn other_machines(rt: HostRuntime) {
    for offer in &OFFERS {
        let due = offer.0;
        assert!(rt;
            is_refused_offer(offer, rt.alloc()) == Some(true),
            "{due:?}"
        );
    }
}

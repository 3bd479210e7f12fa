//! Runs by threads, the service of reservations by a worker, and requests for exchanges.

ghost use Rattle.std.specs.Prelude.{◌≡◌};

use crate::queue_tests::{Sending, Taking};
use instructions::{Digit, Halt, Refusal, Reg, Unit};
use lock_tests::fixtures::{
    Issued, Wanted, Words, are, booted, booted_over, is_empty, leave_all, note, of_increment1,
    word, x,
};
use machine::{Machine, Seat};
use machine_lock::{Ground, Naming, Seen, Shared};
use program_order::{Event, Note};
use registers::RegisterFile;
use sequential::Entry;
use std::alloc::{AllocError, Global};
use std::marker::Brand;
use std::sync::Wait;
use std::sync::atomic::{AtomicU64, Ordering};
use std::test::Fail;
use std::thread;
use std::thread::{Threads, join};
use std::time::Clock;
use unit_queue::{Lane, SendPass, TakePass, lane};
use unit_workers::{Ended, Orders, run_threads};
use worker_loops::{Gate, Gates, Open, Tally, serve, storage_worker, worker};

fn orders(alloc: Global) -> Orders {
    Orders {
        start: 0o40,
        after: Vec::new(alloc),
        free: Vec::new(alloc),
    }
}

fn open_gates() -> Gates<Open> {
    Gates {
        branch: Open,
        boolean: Open,
        shift: Open,
        long_add: Open,
        divide: Open,
        increment1: Open,
        increment2: Open,
    }
}

/// The contents of X1, X2, X3 and X7 in the package at 40, and of a word of the program's memory.
pub(crate) const REGISTERS: [(u32, &str); 5] = [
    (0o51, "7"),
    (0o52, "6"),
    (0o53, "4"),
    (0o57, "3"),
    (0o110, "5"),
];

/// A reservation: its unit and number.
type Numbered = (Unit, u64);

/// A run whose only exchange is the first, and its end.
#[derive(Clone, Copy, Drop)]
struct Run<'a> {
    /// The text that names the run.
    name: &'a str,
    /// The words that are stored over `REGISTERS`.
    words: Words<'a>,
    /// Pairs of reservations: the first isn't computed until the second is stored. So both are in their units at the
    /// same time, in two threads, and the thread that is held at its gate holds no lock.
    holds: &'a [(Numbered, Numbered)],
    /// How many instructions are issued; the last one stops.
    issues: u64,
    /// How many reservations are stored by Branch, Boolean, Shift, LongAdd, Divide, and both Increment units.
    stored: [u64; 6],
    /// Numbers of X registers, and their contents at the end.
    x: &'a [(u16, &'a str)],
    /// The same for A registers.
    a: &'a [(u16, &'a str)],
}

const RUNS: [Run<'static>; 12] = [
    Run {
        name: "SX1 B0+5, SX2 B0+3, IX3 X1+X2, IX4 X2-X1, NO, PS",
        words: &[
            (0o100, "71100000057120000003"),
            (0o101, "36312374214600000000"),
        ],
        holds: &[],
        issues: 6,
        stored: [0, 0, 0, 2, 0, 2],
        x: &[(3, "10"), (4, "77777777777777777775")],
        a: &[],
    },
    Run {
        name: "SA1 B0+17, which loads the word at 117, and SA2 B0+20, which is out of range",
        words: &[
            (0o100, "51100000175120000020"),
            (0o101, "46000460004600000000"),
            (0o117, "123"),
        ],
        holds: &[],
        issues: 6,
        stored: [0, 0, 0, 0, 0, 2],
        x: &[(1, "123"), (2, "0")],
        a: &[(1, "17"), (2, "20")],
    },
    Run {
        name: "two stores, to the word that is held and to the one that is fetched next",
        words: &[
            (0o41, "00000100000000000001"),
            (0o56, "76211000000000000000"),
            (0o100, "56610567007611046000"),
        ],
        holds: &[],
        issues: 6,
        stored: [0, 0, 0, 0, 0, 4],
        x: &[(1, "1"), (2, "2")],
        a: &[],
    },
    Run {
        name: "BX1 X2 is held until LX3 1 is stored",
        words: &[(0o100, "10120203014600000000")],
        holds: &[((Unit::Boolean, 1), (Unit::Shift, 2))],
        issues: 4,
        stored: [0, 1, 1, 0, 0, 0],
        x: &[(1, "6"), (3, "10")],
        a: &[],
    },
    Run {
        name: "BX1 X2 has read X2 and is held until LX2 1, which writes it, is stored",
        words: &[(0o100, "10120202014600000000")],
        holds: &[((Unit::Boolean, 1), (Unit::Shift, 2))],
        issues: 4,
        stored: [0, 1, 1, 0, 0, 0],
        x: &[(1, "6"), (2, "14")],
        a: &[],
    },
    Run {
        name: "BX1 X2 is held until JP 1 is stored",
        words: &[(0o100, "10120460000200000001")],
        holds: &[((Unit::Boolean, 1), (Unit::Branch, 2))],
        issues: 4,
        stored: [1, 1, 0, 0, 0, 0],
        x: &[(1, "6")],
        a: &[],
    },
    Run {
        name: "LX3 1 is held until JP 1 is stored",
        words: &[(0o100, "20301460000200000001")],
        holds: &[((Unit::Shift, 1), (Unit::Branch, 2))],
        issues: 4,
        stored: [1, 0, 1, 0, 0, 0],
        x: &[(3, "10")],
        a: &[],
    },
    Run {
        name: "IX4 X2+X3 is held until JP 1 is stored",
        words: &[(0o100, "36423460000200000001")],
        holds: &[((Unit::LongAdd, 1), (Unit::Branch, 2))],
        issues: 4,
        stored: [1, 0, 0, 1, 0, 0],
        x: &[(4, "12")],
        a: &[],
    },
    Run {
        name: "CX5 X2 is held until JP 1 is stored",
        words: &[(0o100, "47502460000200000001")],
        holds: &[((Unit::Divide, 1), (Unit::Branch, 2))],
        issues: 4,
        stored: [1, 0, 0, 0, 1, 0],
        x: &[(5, "2")],
        a: &[],
    },
    Run {
        name: "SX1 B0+B0 is held until JP 1 is stored",
        words: &[(0o100, "76100460000200000001")],
        holds: &[((Unit::Increment1, 1), (Unit::Branch, 2))],
        issues: 4,
        stored: [1, 0, 0, 0, 0, 1],
        x: &[(1, "0")],
        a: &[],
    },
    Run {
        name: "SX1 B0+B0 is held until SX7 B0+B0 is stored, and that until JP 1 is",
        words: &[(0o100, "76100767000200000001")],
        holds: &[
            ((Unit::Increment1, 1), (Unit::Increment2, 2)),
            ((Unit::Increment2, 2), (Unit::Branch, 3)),
        ],
        issues: 4,
        stored: [1, 0, 0, 0, 0, 2],
        x: &[(1, "0"), (7, "0")],
        a: &[],
    },
    Run {
        name: "BX1 X2 is held until LX3 1 is stored, which needs what SA3 B0+10 loads",
        words: &[(0o100, "10120513000001020301")],
        holds: &[((Unit::Boolean, 1), (Unit::Shift, 3))],
        issues: 4,
        stored: [0, 1, 1, 0, 0, 1],
        x: &[(1, "6"), (3, "12")],
        a: &[(3, "10")],
    },
];

/// The units in the order of their tallies.
const UNITS: [Unit; 7] = [
    Unit::Branch,
    Unit::Boolean,
    Unit::Shift,
    Unit::LongAdd,
    Unit::Divide,
    Unit::Increment1,
    Unit::Increment2,
];

/// How many reservations were stored, as in a `Run`. `None` if a note was strange or a tally isn't at its position.
fn stored(tallies: &[Tally; 7]) -> Option<[u64; 6]> {
    let mut counts = [0u64; 6];
    for index in 0..7usize {
        let tally = &tallies[index];
        if tally.unit() != UNITS[index] || tally.strange() != 0 {
            return None;
        }
        let kind = index.min(5);
        counts[kind] = counts[kind].saturating_add(tally.stored());
    }
    Some(counts)
}

/// Whether the registers that a run names have the contents that it expects.
fn shows(registers: &RegisterFile, run: &Run<'_>) -> bool {
    for (number, octal) in run.x {
        if registers.get(x(*number)) != word(octal) {
            return false;
        }
    }
    for (number, octal) in run.a {
        if registers.get(Reg::A(Digit::low(*number))) != word(octal) {
            return false;
        }
    }
    true
}

/// Whether a run ended as expected.
fn is_end_of(ended: &Ended, run: &Run<'_>) -> bool {
    let log = [FIRST, Wanted::Issued(run.issues)];
    let state = ended.snapshot.state();
    are(entries(ended), log.as_slice())
        && state.halt == Some(Halt::Stop)
        && shows(&state.registers, run)
        && stored(&ended.tallies) == Some(run.stored)
}

/// Whether a run with these gates ends as expected.
fn ends<G: Gate + Send, R: Threads + Wait + Clock + Sync>(
    rt: &R,
    alloc: Global,
    run: &Run<'_>,
    gates: Gates<G>,
) -> bool {
    let Ok(machine) = booted_over(alloc, &REGISTERS, run.words) else {
        return false;
    };
    match run_threads(rt, alloc, machine, &orders(alloc), gates) {
        Ok(ended) => is_end_of(&ended, run),
        Err(_) => false,
    }
}

/// A reservation that isn't computed until another one is stored.
#[derive(Drop)]
pub(crate) struct Hold {
    held: Note,
    until: Note,
    /// 1 once the other reservation is stored.
    stored: AtomicU64,
    /// 1 once the held reservation continues because the other is stored, and not because it waited for a million
    /// turns.
    released: AtomicU64,
    /// 1 once the held reservation has come to its gate.
    waiting: AtomicU64,
}

impl Hold {
    pub(crate) fn new(held: Note, until: Note) -> Hold {
        Hold {
            held,
            until,
            stored: AtomicU64::new(0),
            released: AtomicU64::new(0),
            waiting: AtomicU64::new(0),
        }
    }

    /// Waits until the other reservation is stored, if this is the held one.
    pub(crate) fn before(&self, unit: Unit, number: u64) {
        if self.held == note(unit, number) {
            self.waiting.store(1, Ordering::SeqCst);
            self.wait();
        }
    }

    /// Releases the held reservation, if this is the other one.
    pub(crate) fn stored(&self, unit: Unit, number: u64) {
        if self.until == note(unit, number) {
            self.stored.store(1, Ordering::SeqCst);
        }
    }

    /// Whether the held reservation has come to its gate. Its operands are then read, and its value isn't computed.
    fn is_waiting(&self) -> bool {
        self.waiting.load(Ordering::SeqCst) > 0
    }

    /// Whether the held reservation continued because the other one was stored.
    pub(crate) fn is_released(&self) -> bool {
        self.released.load(Ordering::SeqCst) > 0
    }

    fn wait(&self) {
        for _ in 0..1_000_000u32 {
            if self.stored.load(Ordering::SeqCst) > 0 {
                self.released.store(1, Ordering::SeqCst);
                return;
            }
            thread::yield_now();
        }
    }
}

/// Whether all held reservations continued because the others were stored.
fn are_released(holds: &[Hold]) -> bool {
    for hold in holds {
        if !hold.is_released() {
            return false;
        }
    }
    true
}

/// A gate with these holds.
#[derive(Drop)]
struct Holding<'a>(&'a [Hold]);

impl Gate for Holding<'_> {
    fn before(&mut self, unit: Unit, number: u64) {
        for hold in self.0 {
            hold.before(unit, number);
        }
    }

    fn stored(&mut self, unit: Unit, number: u64) {
        for hold in self.0 {
            hold.stored(unit, number);
        }
    }
}

/// The reservations that a run holds.
fn holds_of(alloc: Global, run: &Run<'_>) -> Result<Vec<Hold>, AllocError> {
    let mut holds = Vec::new(alloc);
    for (held, until) in run.holds {
        holds.push(Hold::new(note(held.0, held.1), note(until.0, until.1)))?;
    }
    Ok(holds)
}

/// Whether a run with these holds ends as expected, and each held reservation continued because the other was stored.
fn ends_with<R: Threads + Wait + Clock + Sync>(
    rt: &R,
    alloc: Global,
    run: &Run<'_>,
    holds: &[Hold],
) -> bool {
    let gates = Gates {
        branch: Holding(holds),
        boolean: Holding(holds),
        shift: Holding(holds),
        long_add: Holding(holds),
        divide: Holding(holds),
        increment1: Holding(holds),
        increment2: Holding(holds),
    };
    ends(rt, alloc, run, gates) && are_released(holds)
}

/// The same with the holds that the run names.
fn ends_held<R: Threads + Wait + Clock + Sync>(rt: &R, alloc: Global, run: &Run<'_>) -> bool {
    match holds_of(alloc, run) {
        Ok(holds) => ends_with(rt, alloc, run, holds.as_slice()),
        Err(_) => false,
    }
}

/// The name of the first run that doesn't end as expected.
fn failed_run<R: Threads + Wait + Clock + Sync>(rt: &R, alloc: Global) -> Option<&'static str> {
    for run in &RUNS {
        if !ends_held(rt, alloc, run) {
            return Some(run.name);
        }
    }
    None
}

#[test]
fn runs(rt: HostRuntime) -> Result<(), Fail> {
    assert_eq!(rt; failed_run(&rt, rt.alloc()), None);
    Ok(())
}

/// A gate that holds each reservation before it is computed, until seven reservations are at their gates.
#[derive(Drop)]
struct Meeting<'a> {
    /// How many reservations are at their gates.
    arrived: &'a AtomicU64,
    /// How many reservations continued because all seven were there, and not because they waited for a million turns.
    met: &'a AtomicU64,
}

impl Gate for Meeting<'_> {
    fn before(&mut self, _unit: Unit, _number: u64) {
        self.arrived.fetch_add(1, Ordering::SeqCst);
        for _ in 0..1_000_000u32 {
            if self.arrived.load(Ordering::SeqCst) >= 7 {
                self.met.fetch_add(1, Ordering::SeqCst);
                return;
            }
            thread::yield_now();
        }
    }

    fn stored(&mut self, _unit: Unit, _number: u64) {}
}

/// Seven instructions, one for each unit in use, none of which awaits the result of another.
const SEVEN_UNITS: Run<'static> = Run {
    name: "BX1 X2, LX3 1, IX4 X2+X7, CX5 X2, SX6 B0+B0, SB3 B0+B0 and JP 2 compute at the same time",
    words: &[
        (0o100, "10120203013642747502"),
        (0o101, "76600663000200000002"),
    ],
    holds: &[],
    issues: 8,
    stored: [1, 1, 1, 1, 1, 2],
    x: &[(1, "6"), (3, "10"), (4, "11"), (5, "2"), (6, "0")],
    a: &[],
};

/// All seven units compute at the same moment of one run: no unit continues before all of them have their operands.
#[test]
fn seven_units_at_once(rt: HostRuntime) -> Result<(), Fail> {
    let (arrived, met) = (AtomicU64::new(0), AtomicU64::new(0));
    let gate = || Meeting {
        arrived: &arrived,
        met: &met,
    };
    let gates = Gates {
        branch: gate(),
        boolean: gate(),
        shift: gate(),
        long_add: gate(),
        divide: gate(),
        increment1: gate(),
        increment2: gate(),
    };
    assert!(rt;
        ends(&rt, rt.alloc(), &SEVEN_UNITS, gates) && met.load(Ordering::SeqCst) == 7,
        "{}",
        SEVEN_UNITS.name
    );
    Ok(())
}

/// A gate that yields so often before each value is computed that all threads that wait for it sleep.
#[derive(Drop)]
struct Slow;

impl Gate for Slow {
    fn before(&mut self, _unit: Unit, _number: u64) {
        for _ in 0..5000u32 {
            thread::yield_now();
        }
    }

    fn stored(&mut self, _unit: Unit, _number: u64) {}
}

/// SX1 B0+5, SX2 B0+3, IX3 X1+X2, IX4 X2-X1, SA1 B0+17 and a stop.
const SLOW_RUN: Run<'static> = Run {
    name: "whoever sleeps is woken or wakes by itself",
    words: &[
        (0o100, "71100000057120000003"),
        (0o101, "36312374215110000017"),
        (0o117, "123"),
    ],
    holds: &[],
    issues: 6,
    stored: [0, 0, 0, 2, 0, 3],
    x: &[(1, "123"), (3, "10"), (4, "77777777777777777775")],
    a: &[(1, "17")],
};

#[test]
fn sleepers_get_on(rt: HostRuntime) -> Result<(), Fail> {
    let gates = Gates {
        branch: Slow,
        boolean: Slow,
        shift: Slow,
        long_add: Slow,
        divide: Slow,
        increment1: Slow,
        increment2: Slow,
    };
    assert!(rt;
        ends(&rt, rt.alloc(), &SLOW_RUN, gates),
        "{}",
        SLOW_RUN.name
    );
    Ok(())
}

/// Runs BX1 X2, LX3 1, NO, NO and a stop, with an exchange for the package at 60, which begins at the stop. The
/// exchange is asked for after this many instructions, or at any time.
fn exchanging<R: Threads + Wait + Clock + Sync>(
    rt: &R,
    alloc: Global,
    after: Option<u64>,
) -> Result<Ended, Refusal> {
    let words = [
        (0o60, "00000001000000000000"),
        (0o61, "00000100000000000000"),
        (0o62, "00000020000000000000"),
        (0o100, "10120203014600046000"),
    ];
    let machine = booted(alloc, &words)?;
    let mut orders = orders(alloc);
    let pushed = match after {
        Some(count) => orders.after.push((0o60, count)).is_ok(),
        None => orders.free.push(0o60).is_ok(),
    };
    if !pushed {
        return Err(Refusal::OutOfMemory);
    }
    run_threads(rt, alloc, machine, &orders, open_gates())
}

fn entries(ended: &Ended) -> &[Entry] {
    ended.snapshot.log().entries()
}

const FIRST: Wanted = Wanted::Exchange(0o40);

const SECOND: Wanted = Wanted::Exchange(0o60);

const LAST: Wanted = Wanted::Issued(1);

/// The number of instructions before the request, `None` for any time, and the logs that the run may have.
const EXCHANGES: [(Option<u64>, &[&[Wanted]]); 4] = [
    (Some(1), &[&[FIRST, Wanted::Issued(4), SECOND, LAST]]),
    (Some(5), &[&[FIRST, Wanted::Issued(5), SECOND, LAST]]),
    (Some(7), &[&[FIRST, Wanted::Issued(5)]]),
    (
        None,
        &[
            &[FIRST, SECOND, LAST],
            &[FIRST, Wanted::Issued(4), SECOND, LAST],
            &[FIRST, Wanted::Issued(5), SECOND, LAST],
        ],
    ),
];

/// Whether the run ended with one of these logs.
fn has_log_of(ran: Result<Ended, Refusal>, logs: &[&[Wanted]]) -> bool {
    let Ok(ended) = ran else {
        return false;
    };
    for log in logs {
        if are(entries(&ended), log) {
            return true;
        }
    }
    false
}

#[test]
fn exchanges(rt: HostRuntime) -> Result<(), Fail> {
    for (after, logs) in &EXCHANGES {
        let ran = exchanging(&rt, rt.alloc(), *after);
        assert!(rt; has_log_of(ran, logs), "{after:?}");
    }
    Ok(())
}

/// Makes the exchange with the package at 40, and issues twice. Returns whether no event was refused.
fn begin(machine: &mut Machine) -> bool {
    for event in [
        Event::Ask(0o40),
        Event::Exchange,
        Event::Issue,
        Event::Issue,
    ] {
        if machine.apply(event).is_err() {
            return false;
        }
    }
    true
}

/// A machine that has issued BX1 X2 and LX3 1, for which no worker has a note, and continues with NO, NO and a stop.
fn begun(alloc: Global) -> Result<Machine, Refusal> {
    let mut machine = booted(alloc, &[(0o100, "10120203014600046000")])?;
    if !begin(&mut machine) {
        return Err(Refusal::Nothing);
    }
    Ok(machine)
}

/// Instructions issued before a run are executed, and are in its log. The first exchange of the run waits for the end
/// of the word. It loads the package that the exchange before it left, with which nothing can be fetched.
#[test]
fn issued_before(rt: HostRuntime) -> Result<(), Fail> {
    let alloc = rt.alloc();
    let machine = begun(alloc)?;
    let ran = run_threads(&rt, alloc, machine, &orders(alloc), open_gates());
    let log = [FIRST, Wanted::Issued(4), FIRST, LAST];
    assert!(rt; has_log_of(ran, &[log.as_slice()]));
    Ok(())
}

/// The refusal of a run, if it was refused.
fn refusal(ran: Result<Ended, Refusal>) -> Option<Refusal> {
    ran.err()
}

/// A run is refused if its first package isn't in memory or the seats were given out. All threads have then ended, or
/// the test wouldn't end.
#[test]
fn refused_runs(rt: HostRuntime) -> Result<(), Fail> {
    let alloc = rt.alloc();
    let mut outside = orders(alloc);
    outside.start = 241;
    let machine = booted(alloc, &[])?;
    let range = refusal(run_threads(&rt, alloc, machine, &outside, open_gates()));
    let mut machine = booted(alloc, &[])?;
    if let Some(seats) = machine.seats() {
        leave_all(seats);
    }
    let seats = refusal(run_threads(&rt, alloc, machine, &orders(alloc), open_gates()));
    assert_eq!(rt;
        (range, seats),
        (Some(Refusal::PackageRange), Some(Refusal::Nothing))
    );
    Ok(())
}

/// A gate that counts its calls.
#[derive(Drop)]
struct Count {
    before: u64,
    stored: u64,
}

impl Gate for Count {
    fn before(&mut self, _unit: Unit, _number: u64) {
        self.before = self.before.saturating_add(1);
    }

    fn stored(&mut self, _unit: Unit, _number: u64) {
        self.stored = self.stored.saturating_add(1);
    }
}

/// The answers of two issues.
pub(crate) type Started = Result<[Option<Note>; 2], Refusal>;

/// Asks for the exchange with the package at 40, and makes it.
fn exchange<K: Naming, R: Wait>(
    rt: &R,
    shared: &Shared<K>,
    seen: &mut Seen<K>,
) -> Result<(), Refusal> {
    shared.ask(rt, seen, 0o40)?;
    shared.exchange(rt, seen)
}

/// Issues, with nothing said of the log.
fn issue<K: Naming, R: Wait>(rt: &R, shared: &Shared<K>, seen: &mut Seen<K>) -> Issued {
    shared.issue(rt, seen)
}

/// Makes the exchange with the package at 40, and issues twice.
pub(crate) fn start<K: Naming, R: Wait>(rt: &R, shared: &Shared<K>, seen: &mut Seen<K>) -> Started {
    exchange(rt, shared, seen)?;
    let first = issue(rt, shared, seen)?;
    let second = issue(rt, shared, seen)?;
    Ok([first, second])
}

/// The seats of Boolean and Shift. The other seats are given up.
pub(crate) fn of_boolean_and_shift(seats: [Seat; 7]) -> (Seat, Seat) {
    let [
        branch,
        boolean,
        shift,
        long_add,
        divide,
        increment1,
        increment2,
    ] = seats;
    branch.leave();
    long_add.leave();
    divide.leave();
    increment1.leave();
    increment2.leave();
    (boolean, shift)
}

/// Boolean's seat. The other seats are given up.
fn of_boolean(seats: [Seat; 7]) -> Seat {
    let (boolean, shift) = of_boolean_and_shift(seats);
    shift.leave();
    boolean
}

/// BX1 X2, LX3 1, NO, PS.
pub(crate) const BOTH: [(u32, &str); 1] = [(0o100, "10120203014600000000")];

/// The answer of `start` over these words.
pub(crate) const NOTES: Started = Ok([
    Some(Note {
        unit: Unit::Boolean,
        number: 1,
    }),
    Some(Note {
        unit: Unit::Shift,
        number: 2,
    }),
]);

/// A note that was never returned by an issue, and another unit's note, are strangers'. The seat that comes back then
/// serves the unit's own note, once.
#[test]
fn serves_its_own_note_once(rt: HostRuntime) -> Result<(), Fail> {
    let machine = booted(rt.alloc(), &BOTH)?;
    let ground = Ground::new(rt.alloc())?;
    let served = serves_once::<Brand, _>(&rt, rt.alloc(), ground, machine)?;
    assert_eq!(rt; served, (NOTES, [false, false, true, false], [1, 1, 1]));
    Ok(())
}

/// The answer of `start`, which notes were served, and the counts of the seat, and of the gate before and after.
type Served = (Started, [bool; 4], [u64; 3]);

fn serves_once<K: Naming, R: Wait>(
    rt: &R,
    alloc: Global,
    ground: Ground,
    machine: Machine,
) -> Result<Served, Refusal>
    requires { ground ≡ K.table }
{
    let (shared, seats, mut seen) = Shared::<K>::open(alloc, ground, machine)?;
    Ok(serves_four(rt, &shared, seats, &mut seen))
}

/// The start, and the service of four notes.
fn serves_four<K: Naming, R: Wait>(
    rt: &R,
    shared: &Shared<K>,
    seats: [Seat; 7],
    seen: &mut Seen<K>,
) -> Served {
    let mut gate = Count {
        before: 0,
        stored: 0,
    };
    let boolean = of_boolean(seats);
    let started = start(rt, shared, seen);
    let (boolean, is_never) = serve(rt, shared, note(Unit::Boolean, 3), boolean, &mut gate);
    let (boolean, is_other) = serve(rt, shared, note(Unit::Shift, 2), boolean, &mut gate);
    let (boolean, is_own) = serve(rt, shared, note(Unit::Boolean, 1), boolean, &mut gate);
    let (boolean, is_again) = serve(rt, shared, note(Unit::Boolean, 1), boolean, &mut gate);
    let counts = [boolean.leave(), gate.before, gate.stored];
    (started, [is_never, is_other, is_own, is_again], counts)
}

/// A gate that holds one reservation.
#[derive(Drop)]
struct HeldBy<'a>(&'a Hold);

impl Gate for HeldBy<'_> {
    fn before(&mut self, unit: Unit, number: u64) {
        self.0.before(unit, number);
    }

    fn stored(&mut self, unit: Unit, number: u64) {
        self.0.stored(unit, number);
    }
}

/// Waits until the held reservation has its operands but no value yet, issues then, and releases it. `None` if that
/// moment never comes.
fn issue_before_finish<K: Naming, R: Wait>(
    rt: &R,
    shared: &Shared<K>,
    mut seen: Seen<K>,
    hold: &Hold,
) -> Option<Issued> {
    for _ in 0..1_000_000u32 {
        if hold.is_waiting() {
            let issued = shared.issue(rt, &mut seen);
            hold.stored(Unit::Shift, 2);
            return Some(issued);
        }
        thread::yield_now();
    }
    None
}

/// Serves Boolean's reservation with the seat of a holder. Returns whether it was stored.
fn serve_held<K: Naming, R: Wait>(
    rt: &R,
    shared: &Shared<K>,
    holder: &mut Option<Seat>,
    hold: &Hold,
) -> Option<bool> {
    let note = note(Unit::Boolean, 1);
    let (boolean, is_stored) = serve(rt, shared, note, holder.take()?, &mut HeldBy(hold));
    boolean.leave();
    Some(is_stored)
}

/// The same while another thread issues. `None` if that thread couldn't be started.
fn serve_while_issuing<K: Naming + Send + Sync, R: Threads + Wait + Sync>(
    rt: &R,
    shared: &Shared<K>,
    seen: Seen<K>,
    holder: &mut Option<Seat>,
    hold: &Hold,
) -> Option<(bool, Option<Issued>)> {
    thread::scope(thread::scope_env(), rt, move |scope| {
        let issuing = scope
            .spawn(move || issue_before_finish(rt, shared, seen, hold))
            .ok()?;
        let is_stored = serve_held(rt, shared, holder, hold);
        let issued = issuing.join(rt);
        Some((is_stored?, issued))
    })
}

/// Between the read of a unit and its finish, the unit's worker holds no lock. Another thread issues then, while the
/// worker computes, and the worker continues after that.
#[test]
fn another_issues_while_a_unit_computes(rt: HostRuntime) -> Result<(), Fail> {
    let machine = booted(rt.alloc(), &BOTH)?;
    let ground = Ground::new(rt.alloc())?;
    let hold = Hold::new(note(Unit::Boolean, 1), note(Unit::Shift, 2));
    let computed = computes_beside::<Brand, _>(&rt, rt.alloc(), ground, machine, &hold)?;
    assert_eq!(rt; computed, (NOTES, true, Some((true, Some(Ok(None))))));
    assert!(rt; hold.is_released());
    Ok(())
}

/// The answer of `start`, whether the worker took its seat, and whether it stored, with the answer of the other
/// thread's issue.
type Computed = (Started, bool, Option<(bool, Option<Issued>)>);

fn computes_beside<K: Naming + Send + Sync, R: Threads + Wait + Sync>(
    rt: &R,
    alloc: Global,
    ground: Ground,
    machine: Machine,
    hold: &Hold,
) -> Result<Computed, Refusal>
    requires { ground ≡ K.table }
{
    let (shared, seats, seen) = Shared::<K>::open(alloc, ground, machine)?;
    Ok(computes(rt, &shared, seats, seen, hold))
}

/// The start, and the calls of both threads.
fn computes<K: Naming + Send + Sync, R: Threads + Wait + Sync>(
    rt: &R,
    shared: &Shared<K>,
    seats: [Seat; 7],
    mut seen: Seen<K>,
    hold: &Hold,
) -> Computed {
    let mut holder = Some(of_boolean(seats));
    let started = start(rt, shared, &mut seen);
    let computed = serve_while_issuing(rt, shared, seen, &mut holder, hold);
    (started, is_empty(holder), computed)
}

/// A unit's worker leaves the reference of SA1 B0+17 to the storage worker, although no earlier instruction is pending.
/// The storage worker accepts it and returns the load.
#[test]
fn leaves_its_reference(rt: HostRuntime) -> Result<(), Fail> {
    let machine = booted(rt.alloc(), &[(0o100, "51100000174600046000")])?;
    let ground = Ground::new(rt.alloc())?;
    let referred = serve_increment::<Brand, _>(&rt, rt.alloc(), ground, machine)?;
    assert_eq!(rt; referred, (true, [true, false, true]));
    Ok(())
}

/// Whether both instructions were issued, whether the reservation was stored, whether the machine was drained then, and
/// whether it was drained after the storage worker ended.
type Referred = (bool, [bool; 3]);

fn serve_increment<K: Naming, R: Wait>(
    rt: &R,
    alloc: Global,
    ground: Ground,
    machine: Machine,
) -> Result<Referred, Refusal>
    requires { ground ≡ K.table }
{
    let (shared, seats, mut seen) = Shared::<K>::open(alloc, ground, machine)?;
    Ok(refers(rt, &shared, seats, &mut seen))
}

/// Issues twice, serves the first reservation, which is of Increment1, and then does the work of memory.
fn refers<K: Naming, R: Wait>(
    rt: &R,
    shared: &Shared<K>,
    seats: [Seat; 7],
    seen: &mut Seen<K>,
) -> Referred {
    let increment1 = of_increment1(seats);
    let started = start(rt, shared, seen);
    let note = note(Unit::Increment1, 1);
    let (increment1, is_stored) = serve(rt, shared, note, increment1, &mut Open);
    increment1.leave();
    let is_drained = shared.drained(rt);
    shared.end(rt);
    storage_worker(rt, shared);
    (started.is_ok(), [is_stored, is_drained, shared.drained(rt)])
}

/// The events from the issue of a load to its entry into the hopper.
const LOAD: [Event; 4] = [
    Event::Issue,
    Event::Read(Unit::Increment1),
    Event::Finish(Unit::Increment1),
    Event::Store(Unit::Increment1),
];

/// A machine whose hopper is full: SA1 to SA4 have entered it, and memory has accepted none of them.
fn referring(alloc: Global) -> Result<Machine, Refusal> {
    let words = [
        (0o100, "51100000105120000011"),
        (0o101, "51300000125140000013"),
    ];
    let mut machine = booted(alloc, words.as_slice())?;
    for event in [Event::Ask(0o40), Event::Exchange] {
        let _ = machine.apply(event)?;
    }
    for _ in 0..4 {
        for event in LOAD {
            let _ = machine.apply(event)?;
        }
    }
    Ok(machine)
}

/// Does the work of memory, and returns whether the machine was drained before and after it.
fn served_by_memory<K: Naming, R: Wait>(
    rt: &R,
    alloc: Global,
    ground: Ground,
    machine: Machine,
) -> Result<[bool; 2], Refusal>
    requires { ground ≡ K.table }
{
    let (shared, seats, _) = Shared::<K>::open(alloc, ground, machine)?;
    leave_all(seats);
    let was_drained = shared.drained(rt);
    shared.end(rt);
    storage_worker(rt, &shared);
    Ok([was_drained, shared.drained(rt)])
}

/// A machine that has issued BX3 X1*X2 and SA1 B0+17. The load is in place 0 of the hopper, and can't return until the
/// Boolean unit has read the old X1.
fn held_by_a_reader(alloc: Global) -> Result<Machine, Refusal> {
    let mut machine = booted(alloc, &[(0o100, "11312511000001746000")])?;
    for event in [Event::Ask(0o40), Event::Exchange, Event::Issue] {
        let _ = machine.apply(event)?;
    }
    for event in LOAD {
        let _ = machine.apply(event)?;
    }
    Ok(machine)
}

/// The storage worker goes on after the end until the machine is drained: it returns a load that an unread operand held.
#[test]
fn returns_a_held_load_after_the_end(rt: HostRuntime) -> Result<(), Fail> {
    let machine = held_by_a_reader(rt.alloc())?;
    let ground = Ground::new(rt.alloc())?;
    let ended = end_with_a_reader::<Brand, _>(&rt, rt.alloc(), ground, machine)?;
    assert_eq!(rt; ended, (true, true));
    Ok(())
}

/// Tells the users of a machine to end, and then does the work of memory and of the Boolean unit, each in a thread.
/// Returns whether the unit stored, and whether the machine is drained then.
fn end_with_a_reader<K: Naming + Send + Sync, R: Threads + Wait + Sync>(
    rt: &R,
    alloc: Global,
    ground: Ground,
    machine: Machine,
) -> Result<(bool, bool), Refusal>
    requires { ground ≡ K.table }
{
    let (shared, seats, _) = Shared::<K>::open(alloc, ground, machine)?;
    let mut boolean = Some(of_boolean(seats));
    shared.end(rt);
    let is_stored = serve_beside_memory(rt, &shared, &mut boolean);
    let was_taken = is_empty(boolean);
    Ok((was_taken && is_stored, shared.drained(rt)))
}

/// Does the work of memory in one thread and that of the Boolean unit in another. Returns whether the unit stored.
fn serve_beside_memory<K: Naming + Send + Sync, R: Threads + Wait + Sync>(
    rt: &R,
    shared: &Shared<K>,
    boolean: &mut Option<Seat>,
) -> bool {
    let ((), is_stored) = join(
        rt,
        || storage_worker(rt, shared),
        || serve_later(rt, shared, boolean),
    );
    is_stored
}

/// Serves the first reservation with the seat in a holder, some milliseconds later. Returns whether it was stored.
fn serve_later<K: Naming, R: Wait>(rt: &R, shared: &Shared<K>, holder: &mut Option<Seat>) -> bool {
    for _ in 0..20u32 {
        shared.signals().requests.sleep(rt, 1);
    }
    match holder.take() {
        None => false,
        Some(seat) => {
            let given = note(Unit::Boolean, 1);
            let (seat, is_stored) = serve(rt, shared, given, seat, &mut Open);
            seat.leave();
            is_stored
        }
    }
}

/// The storage worker accepts the references in all four places of the hopper, and returns their loads.
#[test]
fn empties_the_hopper(rt: HostRuntime) -> Result<(), Fail> {
    let machine = referring(rt.alloc())?;
    let ground = Ground::new(rt.alloc())?;
    let drained = served_by_memory::<Brand, _>(&rt, rt.alloc(), ground, machine)?;
    assert_eq!(rt; drained, [false, true]);
    Ok(())
}

/// A worker serves the notes of its lane until the lane is closed, and its tally settles.
#[test]
fn works_until_closed(rt: HostRuntime) -> Result<(), Fail> {
    let machine = booted(rt.alloc(), &BOTH)?;
    let ground = Ground::new(rt.alloc())?;
    let worked = works_until_closed_beside::<Brand, _>(&rt, rt.alloc(), ground, machine)?;
    assert_eq!(rt; worked, (true, NOTES, Unit::Boolean, 1, 0));
    Ok(())
}

/// Whether the lane took the note and was closed, the answer of `start`, and the tally.
type Worked = (bool, Started, Unit, u64, u64);

fn works_until_closed_beside<K: Naming, R: Wait>(
    rt: &R,
    alloc: Global,
    ground: Ground,
    machine: Machine,
) -> Result<Worked, Refusal>
    requires { ground ≡ K.table }
{
    let (lane, sender, taker) = lane(alloc, Unit::Boolean)?;
    let (shared, seats, mut seen) = Shared::<K>::open(alloc, ground, machine)?;
    Ok(works_on(rt, &shared, seats, &mut seen, &lane, sender, taker))
}

/// The start, the note, and the work on the lane.
fn works_on<K: Naming, R: Wait>(
    rt: &R,
    shared: &Shared<K>,
    seats: [Seat; 7],
    seen: &mut Seen<K>,
    lane: &Lane,
    mut sender: SendPass,
    taker: TakePass,
) -> Worked
    requires taker { taker.id ≡ lane.now.id }
    requires sender { sender.id ≡ lane.now.id }
{
    let boolean = of_boolean(seats);
    let started = start(rt, shared, seen);
    let is_sent = lane.send(rt, &mut sender, note(Unit::Boolean, 1)).is_ok();
    let is_closed = lane.close(rt, &mut sender);
    let mut tally = worker(rt, shared, lane, taker, boolean, &mut Open);
    tally.settle(rt, lane, sender);
    let (unit, stored, strange) = (tally.unit(), tally.stored(), tally.strange());
    (is_sent && is_closed, started, unit, stored, strange)
}

/// Sends Boolean's note twice and then Shift's on one lane, and closes it.
fn send_strangers<R: Wait>(rt: &R, mut sending: Sending<'_>) {
    sending.send(rt, note(Unit::Boolean, 1));
    sending.send(rt, note(Unit::Boolean, 1));
    sending.send(rt, note(Unit::Shift, 2));
    sending.close(rt);
}

/// Works on a lane. Returns how many notes were stored, and how many were strange.
fn work<K: Naming, R: Wait>(
    rt: &R,
    shared: &Shared<K>,
    taking: Taking<'_>,
    seat: Seat,
) -> (u64, u64) {
    let tally = worker(rt, shared, taking.lane, taking.pass, seat, &mut Open);
    (tally.stored(), tally.strange())
}

/// The same with the seat of a holder, which is then empty.
fn work_with<K: Naming, R: Wait>(
    rt: &R,
    shared: &Shared<K>,
    taking: Taking<'_>,
    holder: &mut Option<Seat>,
) -> Option<(u64, u64)> {
    match holder.take() {
        Some(seat) => Some(work(rt, shared, taking, seat)),
        None => None,
    }
}

/// The same while another thread sends strangers' notes. `None` if that thread couldn't be started.
fn strange_tally<K: Naming + Send + Sync, R: Threads + Wait + Sync>(
    rt: &R,
    shared: &Shared<K>,
    sending: Sending<'_>,
    taking: Taking<'_>,
    holder: &mut Option<Seat>,
) -> Option<(u64, u64)> {
    thread::scope(thread::scope_env(), rt, move |scope| {
        let sent = scope.spawn(move || send_strangers(rt, sending)).ok()?;
        let tally = work_with(rt, shared, taking, holder);
        sent.join(rt);
        tally
    })
}

/// A note that was stored already, and another unit's note, are counted as strange.
#[test]
fn counts_strangers(rt: HostRuntime) -> Result<(), Fail> {
    let machine = booted(rt.alloc(), &BOTH)?;
    let ground = Ground::new(rt.alloc())?;
    let counted = counts_strangers_beside::<Brand, _>(&rt, rt.alloc(), ground, machine)?;
    assert_eq!(rt; counted, (NOTES, true, Some((1, 2))));
    Ok(())
}

/// The answer of `start`, whether the worker took its seat, and how many notes were stored and how many were strange.
type Counted = (Started, bool, Option<(u64, u64)>);

fn counts_strangers_beside<K: Naming + Send + Sync, R: Threads + Wait + Sync>(
    rt: &R,
    alloc: Global,
    ground: Ground,
    machine: Machine,
) -> Result<Counted, Refusal>
    requires { ground ≡ K.table }
{
    let (lane, sender, taker) = lane(alloc, Unit::Boolean)?;
    let (shared, seats, mut seen) = Shared::<K>::open(alloc, ground, machine)?;
    let sending = Sending {
        lane: &lane,
        pass: sender,
    };
    let taking = Taking {
        lane: &lane,
        pass: taker,
    };
    Ok(counts(rt, &shared, seats, &mut seen, sending, taking))
}

/// The start, and the calls of both threads.
fn counts<K: Naming + Send + Sync, R: Threads + Wait + Sync>(
    rt: &R,
    shared: &Shared<K>,
    seats: [Seat; 7],
    seen: &mut Seen<K>,
    sending: Sending<'_>,
    taking: Taking<'_>,
) -> Counted {
    let mut holder = Some(of_boolean(seats));
    let started = start(rt, shared, seen);
    let counts = strange_tally(rt, shared, sending, taking, &mut holder);
    (started, is_empty(holder), counts)
}

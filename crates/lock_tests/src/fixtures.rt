//! Words, booted machines, notes, seats and log entries that the tests share.

use instructions::{Digit, PerUnit, Refusal, Reg, Unit};
use machine::{Machine, Seat};
use program_order::Note;
use relocation::Storage;
use sequential::Entry;
use std::alloc::Global;
use word60::Word60;

/// SX1 B0+5 and SX2 B0+3.
pub const FIRST: &str = "71100000057120000003";

/// IX3 X1+X2, IX4 X2-X1, NO and PS.
pub const SECOND: &str = "36312374214600000000";

/// Words at their absolute addresses, in octal.
pub type Words<'a> = &'a [(u32, &'a str)];

/// A word of at most twenty octal digits; +0 for any other text.
pub fn word(octal: &str) -> Word60 {
    Word60::from_octal(octal.as_bytes()).unwrap_or_default()
}

fn place_all(memory: &mut Storage, words: Words<'_>) {
    for (address, octal) in words {
        if *address < memory.size() {
            memory.store(*address, word(octal));
        }
    }
}

/// A machine with 256 words of memory. A package with RA 100 and FL 20 is stored at 40, then the first words, and then
/// the other words.
pub fn booted_over(alloc: Global, first: Words<'_>, others: Words<'_>) -> Result<Machine, Refusal> {
    let area = [
        (0o41, "00000100000000000000"),
        (0o42, "00000020000000000000"),
    ];
    let mut memory = Storage::new(alloc, 256)?;
    place_all(&mut memory, &area);
    place_all(&mut memory, first);
    place_all(&mut memory, others);
    Machine::boot(alloc, memory, 1_000_000)
}

/// A machine with such a package, and these words over it.
pub fn booted(alloc: Global, words: Words<'_>) -> Result<Machine, Refusal> {
    booted_over(alloc, &[], words)
}

pub fn x(number: u16) -> Reg {
    Reg::X(Digit::low(number))
}

pub fn note(unit: Unit, number: u64) -> Note {
    Note { unit, number }
}

/// Gives up a seat. Returns its unit and how many reservations were stored with it.
pub fn leave(seat: Seat) -> (Unit, u64) {
    let unit = seat.unit();
    (unit, seat.leave())
}

/// Gives up all seats. Returns the unit and the count of each seat.
pub fn leave_all(seats: [Seat; 7]) -> [(Unit, u64); 7] {
    PerUnit::from_array(seats).map(leave).into_array()
}

/// The seats of Increment1 and Increment2. The other seats are given up.
pub fn of_increments(seats: [Seat; 7]) -> (Seat, Seat) {
    let [
        branch,
        boolean,
        shift,
        long_add,
        divide,
        increment1,
        increment2,
    ] = seats;
    branch.leave();
    boolean.leave();
    shift.leave();
    long_add.leave();
    divide.leave();
    (increment1, increment2)
}

/// The seat of Increment1. The other seats are given up.
pub fn of_increment1(seats: [Seat; 7]) -> Seat {
    let (increment1, increment2) = of_increments(seats);
    increment2.leave();
    increment1
}

/// Whether a holder is empty. A seat in the holder is given up.
pub fn is_empty(holder: Option<Seat>) -> bool {
    match holder {
        None => true,
        Some(seat) => {
            seat.leave();
            false
        }
    }
}

/// The answer of an issue.
pub type Issued = Result<Option<Note>, Refusal>;

/// An entry expected in a log. A constant can't lend an `Entry`, which may hold a word.
#[derive(Clone, Copy, Drop)]
pub enum Wanted {
    Exchange(u32),
    Issued(u64),
    PpRead(u32),
    PpWrite(u32, u64),
}

impl Wanted {
    fn is(&self, entry: &Entry) -> bool {
        match entry {
            Entry::Exchange(at) => matches!(self, Wanted::Exchange(wanted) if wanted == at),
            Entry::Issued(count) => matches!(self, Wanted::Issued(wanted) if wanted == count),
            Entry::PpRead(at) => matches!(self, Wanted::PpRead(wanted) if wanted == at),
            Entry::PpWrite(at, word) => {
                matches!(self, Wanted::PpWrite(wanted, number) if wanted == at && *number == word.get())
            }
        }
    }
}

/// Whether the entries are the expected ones.
pub fn are(entries: &[Entry], log: &[Wanted]) -> bool {
    if entries.len() != log.len() {
        return false;
    }
    for index in 0..log.len() {
        if !log[index].is(&entries[index]) {
            return false;
        }
    }
    true
}

ghost use Rattle.instruction_table.specs.Table.{parcels_of, IsInstr, StandsAt};
ghost use Rattle.std.specs.Prelude.{ℕ, length, ◌≡◌, ◌<◌, ◌≤◌, ◌+◌, ◌*◌, ◌^◌};
ghost use Rattle.instruction_table.specs.Pattern.{IsByTable, IsReadAs, parcels_from};
ghost use Rattle.instruction_table.specs.Decoding.{branches, logicals, shifts, additions, others, increments};
ghost use Rattle.instruction_table.specs.Decoding.{x_test_at, extended_at, entry, entry_of, following_at, digits_at};
ghost use Rattle.instruction_table.specs.Decoding.{reading_at, GoesOn};

use crate::{
    Addends, Addition, BTest, Base, Digit, Direction, Instr, Logic, Op, Pair, SixBits, Target,
    XTest,
};
use parcel::parcel_of;
use word60::{Word18, Word60};

/// The result of decoding at a position of a word: exactly one of these three.
#[derive(Clone, Copy, Debug, PartialEq, Eq)]
pub enum Decoded {
    /// An instruction, and the position after it, 1 to 4.
    Legal(Instr, u8),
    /// An opcode that this machine does not have. It is refused before its length is checked, so it is refused in the
    /// last parcel too; that is this project's choice.
    Refused(Op),
    /// An instruction of two parcels in the last parcel of a word. Its second parcel would be in the next word, and the
    /// machine halts. The halt is this project's choice.
    Straddle,
}

/// The table's entry for an opcode, before the length is checked.
enum TableEntry {
    Short(Instr),
    Long(Instr),
    Refused(Op),
}

/// The test of 030 to 037, by the digit i.
#[inline(always)]
fn x_test(digit: Digit) -> XTest
    ensures { result ≡ x_test_at digit }
{
    match digit.get() {
        0 => XTest::Zero,
        1 => XTest::NonZero,
        2 => XTest::Positive,
        3 => XTest::Negative,
        4 => XTest::InRange,
        5 => XTest::OutOfRange,
        6 => XTest::Definite,
        _ => XTest::Indefinite,
    }
}

/// The entry of a refused opcode of two digits.
#[inline(always)]
fn refused(f: u16, m: Digit) -> TableEntry
    requires { f < 8 }
    ensures { result ≡ TableEntry.Refused (Op.Plain f m) }
{
    TableEntry::Refused(Op::Plain(Digit::low(f), m))
}

/// The entries of 010 to 017.
#[inline(always)]
fn return_jump(i: Digit, to: Word18) -> TableEntry
    ensures { result ≡ extended_at i to }
{
    match i.get() {
        0 => TableEntry::Long(Instr::ReturnJump { to }),
        _ => TableEntry::Refused(Op::Extended(Digit::low(0), Digit::low(1), i)),
    }
}

/// The entries of 00 to 07.
#[inline(always)]
fn branch(m: Digit, i: Digit, j: Digit, to: Word18) -> TableEntry
    ensures { result ≡ entry (branches i j to) m }
{
    let test = match m.get() {
        0 => return TableEntry::Short(Instr::Stop),
        1 => return return_jump(i, to),
        2 => return TableEntry::Long(Instr::Jump { i, to }),
        3 => {
            let test = x_test(i);
            return TableEntry::Long(Instr::BranchX { test, j, to });
        }
        4 => BTest::Equal,
        5 => BTest::NotEqual,
        6 => BTest::GreaterOrEqual,
        _ => BTest::Less,
    };
    TableEntry::Long(Instr::BranchB { test, i, j, to })
}

/// The entries of 10 to 17.
#[inline(always)]
fn logical(m: Digit, i: Digit, j: Digit, k: Digit) -> TableEntry
    ensures { result ≡ entry (logicals i j k) m }
{
    let op = match m.get() {
        0 => return TableEntry::Short(Instr::Copy { i, j }),
        1 => Logic::And,
        2 => Logic::Or,
        3 => Logic::Xor,
        4 => return TableEntry::Short(Instr::Invert { i, k }),
        5 => Logic::AndNot,
        6 => Logic::OrNot,
        _ => Logic::XorNot,
    };
    TableEntry::Short(Instr::Logical { op, i, j, k })
}

/// The entries of 20 to 27.
#[inline(always)]
fn shift(m: Digit, i: Digit, j: Digit, k: Digit) -> TableEntry
    ensures { result ≡ entry (shifts i j k) m }
{
    match m.get() {
        0 => TableEntry::Short(Instr::ShiftBy {
            direction: Direction::Left,
            i,
            count: SixBits::of(j, k),
        }),
        1 => TableEntry::Short(Instr::ShiftBy {
            direction: Direction::Right,
            i,
            count: SixBits::of(j, k),
        }),
        2 => TableEntry::Short(Instr::ShiftNominal {
            direction: Direction::Left,
            i,
            j,
            k,
        }),
        3 => TableEntry::Short(Instr::ShiftNominal {
            direction: Direction::Right,
            i,
            j,
            k,
        }),
        _ => refused(2, m),
    }
}

/// The entries of 30 to 37.
#[inline(always)]
fn addition(m: Digit, i: Digit, j: Digit, k: Digit) -> TableEntry
    ensures { result ≡ entry (additions i j k) m }
{
    let op = match m.get() {
        0..=5 => return refused(3, m),
        6 => Addition::Sum,
        _ => Addition::Difference,
    };
    TableEntry::Short(Instr::LongAdd { op, i, j, k })
}

/// The entries of 40 to 47.
#[inline(always)]
fn other(m: Digit, i: Digit, j: Digit, k: Digit) -> TableEntry
    ensures { result ≡ entry (others i j k) m }
{
    match m.get() {
        0..=2 => refused(4, m),
        3 => TableEntry::Short(Instr::Mask {
            i,
            count: SixBits::of(j, k),
        }),
        4 | 5 => refused(4, m),
        6 => TableEntry::Short(Instr::Pass),
        _ => TableEntry::Short(Instr::CountOnes { i, k }),
    }
}

/// The entry of an instruction of 50 to 77 that adds K to a register.
#[inline(always)]
fn address_increment(target: Target, i: Digit, base: Base, j: Digit, address: Word18) -> TableEntry
    ensures { result ≡ TableEntry.Long (Instr.Increment target i (Addends.Address base j address)) }
{
    let addends = Addends::Address { base, j, address };
    TableEntry::Long(Instr::Increment { target, i, addends })
}

/// The entries of 50 to 77.
#[inline(always)]
fn increment(target: Target, m: Digit, i: Digit, j: Digit, k: Digit, address: Word18) -> TableEntry
    ensures { result ≡ entry (increments target i j k address) m }
{
    let pair = match m.get() {
        0 => return address_increment(target, i, Base::A, j, address),
        1 => return address_increment(target, i, Base::B, j, address),
        2 => return address_increment(target, i, Base::X, j, address),
        3 => Pair::XPlusB,
        4 => Pair::APlusB,
        5 => Pair::AMinusB,
        6 => Pair::BPlusB,
        _ => Pair::BMinusB,
    };
    let addends = Addends::Registers { pair, j, k };
    TableEntry::Short(Instr::Increment { target, i, addends })
}

/// Decodes as `decode` does, given the first two digits. If the digits are a constant, the compiler keeps only the code
/// for that opcode.
#[inline(always)]
pub fn decode_as(word: Word60, position: u8, digits: u16) -> Decoded
    requires position { position < 4 }
    requires digits { digits ≡ digits_at word position }
    ensures value { result ≡ reading_at word position }
    ensures range { GoesOn position result }
{
    let low = parcel_of(word, position) % 0x200;
    let parcel = digits * 0x200 + low;
    // No parcel follows the last parcel of a word.
    let following = if position < 3 {
        parcel_of(word, position + 1)
    } else {
        0
    };
    let m = Digit::low(parcel >> 9);
    let i = Digit::low(parcel >> 6);
    let j = Digit::low(parcel >> 3);
    let k = Digit::low(parcel);
    let constant = Word18::from_bits(u32::from(parcel % 8) * 0x8000 + u32::from(following));
    let entry = match parcel >> 12 {
        0 => branch(m, i, j, constant),
        1 => logical(m, i, j, k),
        2 => shift(m, i, j, k),
        3 => addition(m, i, j, k),
        4 => other(m, i, j, k),
        5 => increment(Target::A, m, i, j, k, constant),
        6 => increment(Target::B, m, i, j, k, constant),
        _ => increment(Target::X, m, i, j, k, constant),
    };
    match entry {
        TableEntry::Short(instr) => Decoded::Legal(instr, position + 1),
        TableEntry::Long(instr) if position < 3 => Decoded::Legal(instr, position + 2),
        TableEntry::Long(_) => Decoded::Straddle,
        TableEntry::Refused(op) => Decoded::Refused(op),
    }
}

/// The two digits of the opcode at a position, as one number, 0 to 63.
#[inline(always)]
pub fn first_digits(word: Word60, position: u8) -> u16
    requires { position < 4 }
    ensures value { result ≡ digits_at word position }
    ensures range { result < 64 }
{
    parcel_of(word, position) >> 9
}

/// Decodes the instruction at a position of a word. Positions count from 0, the uppermost parcel, to 3.
///
/// Unused fields are ignored, which is this project's choice: i, j and k of `PS` and `NO`, j of `RJ` and `JP`, k of
/// `BXi Xj`, j of `BXi -Xk` and `CXi Xk`.
#[inline(always)]
#[tactic(auto, using(crate::proofs::table::RoundTrip::reading_of_parcels, crate::proofs::table::RoundTrip::reading_of_pattern, crate::proofs::table::ByTable::by_table))]
pub fn decode(word: Word60, position: u8) -> Decoded
    requires { position < 4 }
    ensures value { result ≡ reading_at word position }
    ensures range { GoesOn position result }

    // If the word has the parcels of an instruction at this position, that instruction is the result.
    ensures encoded { (instr : Instr) → IsInstr instr → StandsAt word position (parcels_of instr)
        → result ≡ Decoded.Legal instr (position + length (parcels_of instr)) }

    // The same holds for any content of the fields that the instruction doesn't use.
    ensures pattern { (instr : Instr) (n : ℕ) → position + n ≤ 4 → IsReadAs instr (parcels_from word position n)
        → result ≡ Decoded.Legal instr (position + n) }

    // Both the instructions decoded and the opcodes refused agree with the instruction table.
    ensures table { IsByTable word position result }
{
    decode_as(word, position, parcel_of(word, position) >> 9)
}

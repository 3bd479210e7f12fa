ghost use Rattle.std.specs.Prelude.{◌≡◌, ◌+◌, ◌%◌, ◌==◌, IsSome};
ghost use Rattle.instructions.specs.Operands.{uses};
ghost use Rattle.unit_ops.specs.Values.{x_holds, is_zero, is_out_of_range, is_indefinite, b_holds, rank, logic};
ghost use Rattle.unit_ops.specs.Values.{is_negative, magnitude, shifted_out, shifted_nominally, shifted};
ghost use Rattle.unit_ops.specs.Values.{pair_value, addends_value, increment_value, branch_to, value_of, destination};
ghost use Rattle.unit_ops.specs.Values.{branch_of};
ghost use Rattle.word60.specs.Words.{bit};

use crate::{Operands, UnitValue};
use instructions::{
    Addends, Addition, BTest, Digit, Direction, Instr, Logic, MemoryUse, Pair, SixBits, Target,
    XTest,
};
use word60::{Word18, Word60};

/// Whether the word is +0 or -0.
#[inline(always)]
fn is_zero(x: Word60) -> bool
    ensures { result ≡ is_zero x }
{
    x.get() == 0 || x.get() == 0xfff_ffff_ffff_ffff
}

/// Whether the upper twelve bits are 3777 or 4000: an exponent that overflowed.
#[inline(always)]
fn is_out_of_range(x: Word60) -> bool
    ensures { result ≡ is_out_of_range x }
{
    let upper = x.get() >> 48;
    upper == 0o3777 || upper == 0o4000
}

/// Whether the upper twelve bits are 1777 or 6000: an indefinite result.
#[inline(always)]
fn is_indefinite(x: Word60) -> bool
    ensures { result ≡ is_indefinite x }
{
    let upper = x.get() >> 48;
    upper == 0o1777 || upper == 0o6000
}

/// Whether bit 59 is 1.
#[inline(always)]
fn is_minus(x: Word60) -> bool
    ensures { result ≡ (bit x 59 == 1) }
{
    x.get() >> 59 == 1
}

/// Whether a branch on an X register is taken.
#[inline(always)]
fn x_holds(test: XTest, x: Word60) -> bool
    ensures { result ≡ x_holds test x }
{
    match test {
        XTest::Zero => is_zero(x),
        XTest::NonZero => !is_zero(x),
        XTest::Positive => !is_minus(x),
        XTest::Negative => is_minus(x),
        XTest::InRange => !is_out_of_range(x),
        XTest::OutOfRange => is_out_of_range(x),
        XTest::Definite => !is_indefinite(x),
        XTest::Indefinite => is_indefinite(x),
    }
}

/// The rank of a pattern of 18 bits in the order of two's complement, lowest first.
#[inline(always)]
fn rank(b: Word18) -> u32
    ensures { result ≡ rank b }
{
    (b.get() + 0x2_0000) % 0x4_0000
}

/// Whether a branch on two B registers is taken.
#[inline(always)]
fn b_holds(test: BTest, a: Word18, b: Word18) -> bool
    ensures { result ≡ b_holds test a b }
{
    match test {
        BTest::Equal => a.get() == b.get(),
        BTest::NotEqual => a.get() != b.get(),
        BTest::GreaterOrEqual => rank(b) <= rank(a),
        BTest::Less => rank(a) < rank(b),
    }
}

/// A logical operation; the last three complement the second word.
#[inline(always)]
fn logic(op: Logic, x: Word60, y: Word60) -> Word60
    ensures { result ≡ logic op x y }
{
    match op {
        Logic::And => x.and(y),
        Logic::Or => x.or(y),
        Logic::Xor => x.xor(y),
        Logic::AndNot => x.and(y.complement()),
        Logic::OrNot => x.or(y.complement()),
        Logic::XorNot => x.xor(y.complement()),
    }
}

/// Whether bit 17 is 1.
#[inline(always)]
fn is_negative(b: Word18) -> bool
    ensures { result ≡ is_negative b }
{
    b.get() >> 17 == 1
}

/// The number without its sign: the complement if it is negative.
#[inline(always)]
fn magnitude(b: Word18) -> u32
    ensures { result ≡ magnitude b }
{
    if is_negative(b) {
        b.complement().get()
    } else {
        b.get()
    }
}

/// Shifts right by a nominal count. A count above 63 leaves +0.
#[inline(always)]
fn shifted_out(x: Word60, count: u32) -> Word60
    ensures { result ≡ shifted_out x count }
{
    if count > 63 {
        Word60::default()
    } else {
        x.shift_right(count)
    }
}

/// Shifts by the count in a B register, in the other direction if the count is negative. A circular shift uses the low
/// six bits of the magnitude.
#[inline(always)]
fn shifted_nominally(direction: Direction, b: Word18, x: Word60) -> Word60
    ensures { result ≡ shifted_nominally direction b x }
{
    let turns = match direction {
        Direction::Left => !is_negative(b),
        Direction::Right => is_negative(b),
    };
    if turns {
        x.rotate_left(magnitude(b) % 64)
    } else {
        shifted_out(x, magnitude(b))
    }
}

/// Shifts by the instruction's own count, 0 to 63.
#[inline(always)]
fn shifted(direction: Direction, x: Word60, count: SixBits) -> Word60
    ensures { result ≡ shifted direction x count }
{
    match direction {
        Direction::Left => x.rotate_left(u32::from(count.get())),
        Direction::Right => x.shift_right(u32::from(count.get())),
    }
}

/// The sum or difference of two registers, in 18 bits.
#[inline(always)]
fn pair_value(pair: Pair, x: Word60, y: Word60) -> Word18
    ensures { result ≡ pair_value pair x y }
{
    let left = x.low18();
    let right = y.low18();
    match pair {
        Pair::XPlusB | Pair::APlusB | Pair::BPlusB => left.add(right),
        Pair::AMinusB | Pair::BMinusB => left.sub(right),
    }
}

/// The 18 bits that an increment instruction computes.
#[inline(always)]
fn addends_value(addends: Addends, x: Word60, y: Word60) -> Word18
    ensures { result ≡ addends_value addends x y }
{
    match addends {
        Addends::Address { address, .. } => x.low18().add(address),
        Addends::Registers { pair, .. } => pair_value(pair, x, y),
    }
}

/// The value of an increment instruction, from the 18 bits that it computes.
#[inline(always)]
fn increment_value(target: Target, i: Digit, value: Word18, outgoing: Word60) -> UnitValue
    ensures { result ≡ increment_value target i value outgoing }
{
    match target {
        Target::A => match target.memory(i) {
            None => UnitValue::Index(value),
            Some(MemoryUse::Loads(_)) => UnitValue::Load(value),
            Some(MemoryUse::Stores(_) | MemoryUse::Links) => UnitValue::Store(value, outgoing),
        },
        Target::B => UnitValue::Index(value),
        Target::X => UnitValue::Word(value.extend()),
    }
}

/// The value of a branch: its target if it is taken.
#[inline(always)]
fn branch_to(taken: bool, to: Word18) -> UnitValue
    ensures { result ≡ branch_to taken to }
{
    UnitValue::Jump(if taken { Some(to) } else { None })
}

/// The value that the unit of an instruction computes from its operands. `PS` and `NO` have no unit and no value.
#[inline(always)]
pub fn value(instr: &Instr, operands: &Operands) -> UnitValue
    requires { IsSome (uses instr.now).unit }
    ensures { result ≡ value_of instr.now operands.now }
{
    let x = operands.first;
    let y = operands.second;
    match *instr {
        Instr::Stop | Instr::Pass => unreachable!(),
        Instr::ReturnJump { to } => UnitValue::Link {
            at: to,
            back: operands.place.next(),
        },
        Instr::Jump { to, .. } => UnitValue::Jump(Some(x.low18().add(to))),
        Instr::BranchX { test, to, .. } => branch_to(x_holds(test, x), to),
        Instr::BranchB { test, to, .. } => branch_to(b_holds(test, x.low18(), y.low18()), to),
        Instr::Copy { .. } => UnitValue::Word(x),
        Instr::Invert { .. } => UnitValue::Word(x.complement()),
        Instr::Logical { op, .. } => UnitValue::Word(logic(op, x, y)),
        Instr::ShiftBy {
            direction,
            count,
            ..
        } => UnitValue::Word(shifted(direction, x, count)),
        Instr::ShiftNominal { direction, .. } => UnitValue::Word(shifted_nominally(
            direction,
            x.low18(),
            y,
        )),
        Instr::LongAdd { op, .. } => UnitValue::Word(match op {
            Addition::Sum => x.add(y),
            Addition::Difference => x.sub(y),
        }),
        Instr::Mask { count, .. } => UnitValue::Word(Word60::mask(u32::from(count.get()))),
        Instr::CountOnes { .. } => UnitValue::Word(Word60::from_bits(u64::from(x.ones()))),
        Instr::Increment { target, i, addends } => {
            increment_value(target, i, addends_value(addends, x, y), operands.outgoing)
        }
    }
}

impl UnitValue {
    /// The address that this value makes the machine jump to, or `None` if it continues in order. A return jump
    /// continues at the word after the one it stores.
    #[inline(always)]
    pub fn destination(self) -> Option<Word18>
        ensures { result ≡ destination self }
    {
        match self {
            UnitValue::Jump(to) => to,
            UnitValue::Link { at, .. } => Some(at.next()),
            _ => None,
        }
    }
}

/// The target of a branch if it is taken; for `RJ K` that is K + 1. `None` if the branch isn't taken, or if the
/// instruction isn't a branch.
pub fn branch_taken(instr: &Instr, operands: &Operands) -> Option<Word18>
    ensures { result ≡ branch_of instr.now operands.now }
{
    match instr {
        Instr::ReturnJump { .. }
        | Instr::Jump { .. }
        | Instr::BranchX { .. }
        | Instr::BranchB { .. } => { value(instr, operands).destination() }
        _ => None,
    }
}

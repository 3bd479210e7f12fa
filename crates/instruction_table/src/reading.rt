ghost use Rattle.std.specs.Prelude.{◌≡◌, ◌<◌, ◌-◌, ◌%◌, ◌^◌, slice_index, IfSome, Some};
ghost use Rattle.instruction_table.specs.Candidate.{digit_of, number_of, jump_in, branch_x_in, branch_b_in, shift_in};
ghost use Rattle.instruction_table.specs.Candidate.{boolean_in, mask_in, addition_in, addends_in, increment_in};
ghost use Rattle.instruction_table.specs.Candidate.{candidate_in};
ghost use Rattle.instruction_table.specs.Spelling.{spelling, instr_of};
ghost use Rattle.instruction_table.specs.Table.{IsInstr};
ghost use Rattle.instructions.specs.declared.instr.Instr.{Instr};

use crate::spelling::spell;
use crate::{
    Addends, Addition, BTest, Base, Digit, Direction, Instr, Logic, Pair, SixBits, Target, XTest,
};
use word60::Word18;

/// The byte at a position, or 0 past the end.
fn byte(text: &[u8], at: usize) -> u8
    ensures { result ≡ slice_index text.now at }
{
    text.get(at).copied().unwrap_or(0)
}

/// The octal digit at a position. If the byte there isn't an octal digit, the result is some digit.
fn digit(text: &[u8], at: usize) -> Digit
    ensures { result ≡ digit_of text.now at }
{
    Digit::low(u16::from(byte(text, at).saturating_sub(b'0')))
}

/// The octal number from a position on, modulo 2^18.
#[tactic(auto, using(std::proofs::lemmas::List::drop_all), unfolding(crate::specs::Candidate::number_of))]
fn number(text: &[u8], from: usize) -> u32
    ensures value { result ≡ number_of text.now from }
    ensures range { result < 2 ^ 18 }
{
    let mut number = 0;
    for at in from..text.len() {
        number = (number * 8 + u32::from(digit(text, at).get())) % 0x4_0000;
    }
    number
}

/// The address from a position on.
fn address(text: &[u8], from: usize) -> Word18
    ensures { result ≡ number_of text.now from }
{
    Word18::from_bits(number(text, from))
}

/// The count of bit positions or bits from a position on.
fn count(text: &[u8], from: usize) -> SixBits
    ensures { result ≡ number_of text.now from % 64 }
{
    SixBits::low(number(text, from))
}

/// A jump to Bi+K.
fn jump(text: &[u8]) -> Instr
    ensures { result ≡ jump_in text.now }
{
    Instr::Jump {
        i: digit(text, 4),
        to: address(text, 6),
    }
}

/// A branch on an X register.
fn branch_x(text: &[u8], test: XTest) -> Instr
    ensures { result ≡ branch_x_in text.now test }
{
    Instr::BranchX {
        test,
        j: digit(text, 4),
        to: address(text, 6),
    }
}

/// A branch on two B registers.
fn branch_b(text: &[u8], test: BTest) -> Instr
    ensures { result ≡ branch_b_in text.now test }
{
    Instr::BranchB {
        test,
        i: digit(text, 4),
        j: digit(text, 7),
        to: address(text, 9),
    }
}

/// A shift by a count or by a B register.
fn shift(text: &[u8], direction: Direction) -> Instr
    ensures { result ≡ shift_in text.now direction }
{
    let i = digit(text, 2);
    if byte(text, 4) == b'B' {
        Instr::ShiftNominal {
            direction,
            i,
            j: digit(text, 5),
            k: digit(text, 8),
        }
    } else {
        Instr::ShiftBy {
            direction,
            i,
            count: count(text, 4),
        }
    }
}

/// An instruction of the Boolean unit.
fn boolean(text: &[u8]) -> Instr
    ensures { result ≡ boolean_in text.now }
{
    let i = digit(text, 2);
    if byte(text, 4) == b'X' {
        let j = digit(text, 5);
        let op = match byte(text, 6) {
            b'*' => Logic::And,
            b'+' => Logic::Or,
            b'-' => Logic::Xor,
            _ => return Instr::Copy { i, j },
        };
        let k = digit(text, 8);
        Instr::Logical { op, i, j, k }
    } else {
        let k = digit(text, 6);
        let op = match byte(text, 7) {
            b'*' => Logic::AndNot,
            b'+' => Logic::OrNot,
            b'-' => Logic::XorNot,
            _ => return Instr::Invert { i, k },
        };
        let j = digit(text, 9);
        Instr::Logical { op, i, j, k }
    }
}

/// Ones in the highest bits.
fn mask(text: &[u8]) -> Instr
    ensures { result ≡ mask_in text.now }
{
    Instr::Mask {
        i: digit(text, 2),
        count: count(text, 4),
    }
}

/// A sum or a difference of two X registers.
fn addition(text: &[u8]) -> Instr
    ensures { result ≡ addition_in text.now }
{
    let op = if byte(text, 6) == b'+' {
        Addition::Sum
    } else {
        Addition::Difference
    };
    Instr::LongAdd {
        op,
        i: digit(text, 2),
        j: digit(text, 5),
        k: digit(text, 8),
    }
}

/// The sum or difference that an increment instruction computes.
fn addends(text: &[u8]) -> Addends
    ensures { result ≡ addends_in text.now }
{
    let j = digit(text, 5);
    if byte(text, 7) == b'B' {
        let pair = match (byte(text, 4), byte(text, 6)) {
            (b'X', _) => Pair::XPlusB,
            (b'A', b'+') => Pair::APlusB,
            (b'A', _) => Pair::AMinusB,
            (_, b'+') => Pair::BPlusB,
            _ => Pair::BMinusB,
        };
        let k = digit(text, 8);
        Addends::Registers { pair, j, k }
    } else {
        let base = match byte(text, 4) {
            b'A' => Base::A,
            b'B' => Base::B,
            _ => Base::X,
        };
        let address = address(text, 7);
        Addends::Address { base, j, address }
    }
}

/// An increment instruction.
fn increment(text: &[u8], target: Target) -> Instr
    ensures { result ≡ increment_in text.now target }
{
    Instr::Increment {
        target,
        i: digit(text, 2),
        addends: addends(text),
    }
}

/// The only instruction that can have this text, by its first two letters. The text isn't checked here: the caller
/// compares it with the candidate's own text.
#[tactic(auto, unfolding(crate::specs::Candidate::candidate_in))]
fn candidate(text: &[u8]) -> Instr
    ensures { result ≡ candidate_in text.now }
{
    match (byte(text, 0), byte(text, 1)) {
        (b'A', _) => shift(text, Direction::Right),
        (b'B', _) => boolean(text),
        (b'C', _) => Instr::CountOnes {
            i: digit(text, 2),
            k: digit(text, 5),
        },
        (b'D', _) => branch_x(text, XTest::Definite),
        (b'E', _) => branch_b(text, BTest::Equal),
        (b'G', _) => branch_b(text, BTest::GreaterOrEqual),
        (b'I', b'D') => branch_x(text, XTest::Indefinite),
        (b'I', b'R') => branch_x(text, XTest::InRange),
        (b'I', _) => addition(text),
        (b'J', _) => jump(text),
        (b'L', b'T') => branch_b(text, BTest::Less),
        (b'L', _) => shift(text, Direction::Left),
        (b'M', _) => mask(text),
        (b'N', b'E') => branch_b(text, BTest::NotEqual),
        (b'N', b'G') => branch_x(text, XTest::Negative),
        (b'N', b'O') => Instr::Pass,
        (b'N', _) => branch_x(text, XTest::NonZero),
        (b'O', _) => branch_x(text, XTest::OutOfRange),
        (b'P', b'L') => branch_x(text, XTest::Positive),
        (b'P', _) => Instr::Stop,
        (b'R', _) => Instr::ReturnJump {
            to: address(text, 3),
        },
        (b'S', b'A') => increment(text, Target::A),
        (b'S', b'B') => increment(text, Target::B),
        (b'S', _) => increment(text, Target::X),
        _ => branch_x(text, XTest::Zero),
    }
}

/// The candidate, if its text is the given one.
#[tactic(auto, unfolding(crate::specs::Spelling::instr_of))]
fn instr_of(text: &[u8]) -> Option<Instr>
    ensures { result ≡ instr_of text.now }
{
    let instr = candidate(text);
    if spell(&instr).as_str().as_bytes() == text {
        Some(instr)
    } else {
        None
    }
}

/// The instruction with this text, or `None` if no instruction has it. Other spacing, lower case, leading zeros and
/// numbers out of range are refused.
#[tactic(auto, using(crate::proofs::texts::TextLaws::texts_of_instr))]
pub fn read_bytes(text: &[u8]) -> Option<Instr>
    ensures value { result ≡ instr_of text.now }
    ensures fields { IfSome result IsInstr }
    ensures spelled { IfSome result (λ instr. spelling instr ≡ text.now) }
    ensures all { (instr : Instr) → IsInstr instr → spelling instr ≡ text.now → result ≡ Some instr }
{
    instr_of(text)
}

/// The instruction with this text, or `None` if no instruction has it.
pub fn read_text(text: &str) -> Option<Instr>
    ensures value { result ≡ instr_of text.now }
    ensures fields { IfSome result IsInstr }
    ensures spelled { IfSome result (λ instr. spelling instr ≡ text.now) }
    ensures all { (instr : Instr) → IsInstr instr → spelling instr ≡ text.now → result ≡ Some instr }
{
    read_bytes(text.as_bytes())
}

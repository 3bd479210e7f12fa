ghost use Rattle.std.specs.Prelude.{◌≡◌, ◌<◌, ◌≤◌, ◌+◌, ◌++◌, codes, length, MatchResult};
ghost use Rattle.std.specs.String.{string_bytes};
ghost use Rattle.arrayvec.specs.ArrayString.{array_string_len};
ghost use Rattle.instructions.specs.declared.refusal.Refusal.TheVariants.{OutOfMemory};
ghost use Rattle.instruction_table.specs.Octal.{octal};
ghost use Rattle.instruction_table.specs.Spelling.{name_of, jump_text, branch_x_text, branch_b_text, logic_text};
ghost use Rattle.instruction_table.specs.Spelling.{addition_text, addends_text, spelling};
ghost use Rattle.instruction_table.specs.Table.{digit};
ghost use Rattle.instructions.specs.declared.instr.Addends.TheVariants.{Registers};

use crate::{
    Addends, Addition, BTest, Base, Digit, Direction, Instr, Logic, Pair, Refusal, SixBits, Target,
    XTest,
};
use arrayvec::ArrayString;
use std::alloc::Global;
use word60::Word18;

/// The text of an instruction. The longest, such as `EQ B1,B2,777777`, have 15 bytes.
pub type InstrText = ArrayString<16>;

/// The two letters that the text of an instruction begins with.
fn name(instr: &Instr) -> &'static str
    ensures value { result.now ≡ name_of instr.now }
    ensures len { length result.now ≡ 2 }
{
    match *instr {
        Instr::Stop => "PS",
        Instr::Pass => "NO",
        Instr::ReturnJump { .. } => "RJ",
        Instr::Jump { .. } => "JP",
        Instr::BranchX { test, .. } => match test {
            XTest::Zero => "ZR",
            XTest::NonZero => "NZ",
            XTest::Positive => "PL",
            XTest::Negative => "NG",
            XTest::InRange => "IR",
            XTest::OutOfRange => "OR",
            XTest::Definite => "DF",
            XTest::Indefinite => "ID",
        },
        Instr::BranchB { test, .. } => match test {
            BTest::Equal => "EQ",
            BTest::NotEqual => "NE",
            BTest::GreaterOrEqual => "GE",
            BTest::Less => "LT",
        },
        Instr::Copy { .. } | Instr::Invert { .. } | Instr::Logical { .. } => "BX",
        Instr::ShiftBy { direction, .. } | Instr::ShiftNominal { direction, .. } =>
            match direction {
                Direction::Left => "LX",
                Direction::Right => "AX",
            },
        Instr::LongAdd { .. } => "IX",
        Instr::Mask { .. } => "MX",
        Instr::CountOnes { .. } => "CX",
        Instr::Increment { target, .. } => match target {
            Target::A => "SA",
            Target::B => "SB",
            Target::X => "SX",
        },
    }
}

/// Appends an octal digit.
fn put_digit(text: &mut InstrText, value: u8)
    requires room { array_string_len text.old < 16 }
    requires octal { value < 8 }
    ensures { text.new.bytes ≡ text.old.bytes ++ digit value }
{
    text.push(char::from(b'0' + value));
}

/// Appends a text and the number of a register.
fn put(text: &mut InstrText, front: &str, register: Digit)
    requires { array_string_len text.old + length front.now < 16 }
    ensures bytes { text.new.bytes ≡ text.old.bytes ++ (front.now ++ digit register) }
    ensures len { array_string_len text.new ≡ array_string_len text.old + length front.now + 1 }
{
    text.push_str(front);
    put_digit(text, register.get());
}

/// Appends a number in octal, without leading zeros.
#[tactic(auto, using(crate::proofs::texts::OctalLaws::octal_ends, crate::proofs::texts::OctalLaws::octal_small))]
fn put_octal(text: &mut InstrText, number: u32)
    requires { array_string_len text.old + length (octal number) ≤ 16 }
    ensures { text.new.bytes ≡ text.old.bytes ++ octal number }
{
    let last = (number % 8) as u8;
    if number < 8 {
        put_digit(text, last);
    } else {
        put_octal(text, number / 8);
        put_digit(text, last);
    }
}

/// Appends a text and an address.
#[tactic(auto, using(crate::proofs::texts::OctalLaws::octal_length_6))]
fn put_address(text: &mut InstrText, front: &str, address: Word18)
    requires { array_string_len text.old + length front.now ≤ 10 }
    ensures { text.new.bytes ≡ text.old.bytes ++ (front.now ++ octal address) }
{
    text.push_str(front);
    put_octal(text, address.get());
}

/// Appends a space and a count of bit positions or bits.
#[tactic(auto, using(crate::proofs::texts::OctalLaws::octal_length_2))]
fn put_count(text: &mut InstrText, count: SixBits)
    requires { array_string_len text.old ≤ 10 }
    ensures { text.new.bytes ≡ text.old.bytes ++ (codes " " ++ octal count) }
{
    text.push_str(" ");
    put_octal(text, u32::from(count.get()));
}

/// Appends the register and the address of a jump.
fn put_jump(text: &mut InstrText, i: Digit, to: Word18)
    requires { array_string_len text.old ≤ 2 }
    ensures { text.new.bytes ≡ text.old.bytes ++ jump_text i to }
{
    put(text, " B", i);
    put_address(text, "+", to);
}

/// Appends the register that a branch tests, and its address.
fn put_branch_x(text: &mut InstrText, j: Digit, to: Word18)
    requires { array_string_len text.old ≤ 2 }
    ensures { text.new.bytes ≡ text.old.bytes ++ branch_x_text j to }
{
    put(text, " X", j);
    put_address(text, ",", to);
}

/// Appends the two registers that a branch compares, and its address.
fn put_branch_b(text: &mut InstrText, i: Digit, j: Digit, to: Word18)
    requires { array_string_len text.old ≤ 2 }
    ensures { text.new.bytes ≡ text.old.bytes ++ branch_b_text i j to }
{
    put(text, " B", i);
    put(text, ",B", j);
    put_address(text, ",", to);
}

/// Appends two registers and the sign between them.
fn put_addition(text: &mut InstrText, op: Addition, j: Digit, k: Digit)
    requires { array_string_len text.old < 10 }
    ensures { text.new.bytes ≡ text.old.bytes ++ addition_text op j k }
{
    let sign = match op {
        Addition::Sum => "+X",
        Addition::Difference => "-X",
    };
    put(text, " X", j);
    put(text, sign, k);
}

/// Appends two registers and the operation on them.
fn put_logic(text: &mut InstrText, op: Logic, j: Digit, k: Digit)
    requires { array_string_len text.old < 10 }
    ensures { text.new.bytes ≡ text.old.bytes ++ logic_text op j k }
{
    let (front, left, sign, right) = match op {
        Logic::And => (" X", j, "*X", k),
        Logic::Or => (" X", j, "+X", k),
        Logic::Xor => (" X", j, "-X", k),
        Logic::AndNot => (" -X", k, "*X", j),
        Logic::OrNot => (" -X", k, "+X", j),
        Logic::XorNot => (" -X", k, "-X", j),
    };
    put(text, front, left);
    put(text, sign, right);
}

/// Appends two registers and the sign between them.
fn put_pair(text: &mut InstrText, pair: Pair, j: Digit, k: Digit)
    requires { array_string_len text.old < 10 }
    ensures { text.new.bytes ≡ text.old.bytes ++ addends_text (Registers pair j k) }
{
    let (left, right) = match pair {
        Pair::XPlusB => (" X", "+B"),
        Pair::APlusB => (" A", "+B"),
        Pair::AMinusB => (" A", "-B"),
        Pair::BPlusB => (" B", "+B"),
        Pair::BMinusB => (" B", "-B"),
    };
    put(text, left, j);
    put(text, right, k);
}

/// Appends the operands of an increment instruction.
fn put_addends(text: &mut InstrText, addends: Addends)
    requires { array_string_len text.old < 4 }
    ensures { text.new.bytes ≡ text.old.bytes ++ addends_text addends }
{
    match addends {
        Addends::Address { base, j, address } => {
            let front = match base {
                Base::A => " A",
                Base::B => " B",
                Base::X => " X",
            };
            put(text, front, j);
            put_address(text, "+", address);
        }
        Addends::Registers { pair, j, k } => put_pair(text, pair, j, k),
    }
}

/// The text of an instruction. Each instruction has exactly one text. Allocates nothing.
pub fn spell(instr: &Instr) -> InstrText
    ensures { result.bytes ≡ spelling instr.now }
{
    let mut text = ArrayString::new();
    text.push_str(name(instr));
    match *instr {
        Instr::Stop | Instr::Pass => {}
        Instr::ReturnJump { to } => put_address(&mut text, " ", to),
        Instr::Jump { i, to } => put_jump(&mut text, i, to),
        Instr::BranchX { j, to, .. } => put_branch_x(&mut text, j, to),
        Instr::BranchB { i, j, to, .. } => put_branch_b(&mut text, i, j, to),
        Instr::Copy { i, j: x } | Instr::CountOnes { i, k: x } => {
            put(&mut text, "", i);
            put(&mut text, " X", x);
        }
        Instr::Invert { i, k } => {
            put(&mut text, "", i);
            put(&mut text, " -X", k);
        }
        Instr::Logical { op, i, j, k } => {
            put(&mut text, "", i);
            put_logic(&mut text, op, j, k);
        }
        Instr::ShiftBy { i, count, .. } | Instr::Mask { i, count } => {
            put(&mut text, "", i);
            put_count(&mut text, count);
        }
        Instr::ShiftNominal { i, j, k, .. } => {
            put(&mut text, "", i);
            put(&mut text, " B", j);
            put(&mut text, ",X", k);
        }
        Instr::LongAdd { op, i, j, k } => {
            put(&mut text, "", i);
            put_addition(&mut text, op, j, k);
        }
        Instr::Increment { i, addends, .. } => {
            put(&mut text, "", i);
            put_addends(&mut text, addends);
        }
    }
    text
}

/// The text of an instruction, as a `String`.
///
/// # Errors
/// `OutOfMemory` if memory runs out.
pub fn text(alloc: Global, instr: &Instr) -> Result<String, Refusal>
    ensures { MatchResult result
        (λ text. string_bytes text ≡ spelling instr.now)
        (λ refusal. refusal ≡ OutOfMemory) }
{
    match String::from_str(alloc, spell(instr).as_str()) {
        Ok(text) => Ok(text),
        Err(_) => Err(Refusal::OutOfMemory),
    }
}

ghost use Rattle.std.specs.Prelude.{◌≡◌, ◌<◌};
ghost use Rattle.device_text.specs.Putting.{Puts};
ghost use Rattle.device_text.specs.Names.{register_text};
ghost use Rattle.device_text.specs.Pieces.{code_text, reason_text, text_of, text_of_all};

use crate::digits::trim;
use crate::output::{Output, WriteFailed};
use crate::spelling::unit_name;
use instruction_table::spell;
use instructions::{Halt, Instr, Op, ParcelNumber, Reg, Unit};
use itoa::Buffer;
use word60::{Word18, Word60};

/// A piece of a printed line.
#[derive(Clone, Copy, Drop)]
pub enum Piece<'a> {
    /// These bytes.
    Text(&'a [u8]),
    /// The text of an instruction.
    Instruction(Instr),
    /// The code of a refused opcode: two octal digits or three.
    Opcode(Op),
    /// The reason why a machine is halted.
    Reason(Halt),
    /// The name of a unit.
    UnitName(Unit),
    /// A register's letter and digit.
    Register(Reg),
    /// The number of a parcel, one digit.
    Parcel(ParcelNumber),
    /// Six octal digits.
    Index(Word18),
    /// Twenty octal digits.
    Word(Word60),
    /// An octal number without leading zeros: as many digits as it needs.
    Address(u32),
    /// A word in octal without leading zeros: one to twenty digits.
    ShortWord(Word60),
    /// Decimal digits.
    Count(u64),
}

/// Writes an opcode's digits.
fn put_opcode<O: Output>(output: &mut O, op: Op) -> Result<(), WriteFailed>
    ensures { Puts O.Output result output.old output.new (code_text op) }
{
    match op {
        Op::Plain(f, m) => output.put(&[b'0' + f.get(), b'0' + m.get()]),
        Op::Extended(f, m, i) => output.put(&[b'0' + f.get(), b'0' + m.get(), b'0' + i.get()]),
    }
}

/// Writes the reason why a machine is halted.
fn put_reason<O: Output>(output: &mut O, halt: Halt) -> Result<(), WriteFailed>
    ensures { Puts O.Output result output.old output.new (reason_text halt) }
{
    match halt {
        Halt::Stop => output.put(b"stop"),
        Halt::Illegal(op) => {
            output.put(b"illegal ")?;
            put_opcode(output, op)
        }
        Halt::Straddle => output.put(b"straddle"),
        Halt::FetchRange => output.put(b"fetch"),
    }
}

/// Writes a register's letter and digit.
fn put_register<O: Output>(output: &mut O, register: Reg) -> Result<(), WriteFailed>
    ensures { Puts O.Output result output.old output.new (register_text register) }
{
    match register {
        Reg::X(digit) => output.put(&[b'X', b'0' + digit.get()]),
        Reg::A(digit) => output.put(&[b'A', b'0' + digit.get()]),
        Reg::B(digit) => output.put(&[b'B', b'0' + digit.get()]),
    }
}

/// Writes a piece.
fn put_piece<O: Output>(output: &mut O, piece: &Piece<'_>) -> Result<(), WriteFailed>
    ensures { Puts O.Output result output.old output.new (text_of piece.now) }
{
    match *piece {
        Piece::Text(bytes) => output.put(bytes),
        Piece::Instruction(instr) => output.put(spell(&instr).as_str().as_bytes()),
        Piece::Opcode(op) => put_opcode(output, op),
        Piece::Reason(halt) => put_reason(output, halt),
        Piece::UnitName(unit) => output.put(unit_name(unit)),
        Piece::Register(register) => put_register(output, register),
        Piece::Parcel(parcel) => output.put(&[b'0' + parcel.get()]),
        Piece::Index(number) => output.put(&number.octal()),
        Piece::Word(word) => output.put(&word.octal()),
        Piece::Address(address) => {
            output.put(trim(&Word60::from_bits(u64::from(address)).octal()))
        }
        Piece::ShortWord(word) => output.put(trim(&word.octal())),
        Piece::Count(number) => {
            let mut buffer = Buffer::new();
            output.put(buffer.format(number).as_bytes())
        }
    }
}

/// Writes pieces, one after another.
pub fn put_pieces<O: Output>(output: &mut O, pieces: &[Piece<'_>]) -> Result<(), WriteFailed>
    ensures { Puts O.Output result output.old output.new (text_of_all pieces.now) }
{
    for piece in pieces {
        put_piece(output, piece)?;
    }
    Ok(())
}

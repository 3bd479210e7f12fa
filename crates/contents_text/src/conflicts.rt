//! The lines of reserved registers and of operands that are still to be read.

ghost use Rattle.std.specs.Prelude.{◌≡◌, find};
ghost use Rattle.std.specs.List.{flat_map};
ghost use Rattle.device_text.specs.Putting.{Puts};
ghost use Rattle.contents_text.specs.Contents.{awaits, operand_line, unread_of, unread_text};
ghost use Rattle.contents_text.specs.Contents.{reserved_line, reserved_of, reserved_text};

use device_text::{Output, Piece, WriteFailed, put_pieces};
use in_flight::Pending;
use instructions::Reg;

/// Writes the line of a register that an instruction is still to write.
fn put_reserved_line<O: Output>(
    output: &mut O,
    writer: &Pending,
    register: Reg,
) -> Result<(), WriteFailed>
    ensures { Puts O.Output result output.old output.new (reserved_line writer.now register) }
{
    put_pieces(
        output,
        &[
            Piece::Register(register),
            Piece::Text(b" "),
            Piece::Count(writer.number),
            Piece::Text(b" "),
            Piece::Instruction(writer.instr),
            Piece::Text(b"\n"),
        ],
    )
}

/// Writes the lines of these registers, which an instruction is still to write.
fn put_reserved_lines<O: Output>(
    output: &mut O,
    writer: &Pending,
    registers: &[Reg],
) -> Result<(), WriteFailed>
    ensures { Puts O.Output result output.old output.new (flat_map (reserved_line writer.now) registers.now) }
{
    for register in registers {
        put_reserved_line(output, writer, *register)?;
    }
    Ok(())
}

/// Writes the lines of the registers that an instruction is still to write.
fn put_reserved_of<O: Output>(output: &mut O, writer: &Pending) -> Result<(), WriteFailed>
    ensures { Puts O.Output result output.old output.new (reserved_of writer.now) }
{
    let registers = writer.reservation().to_come();
    put_reserved_lines(output, writer, registers.as_slice())
}

/// Writes a line for each register that one of the pending instructions is still to write.
pub(crate) fn put_reserved<O: Output>(
    output: &mut O,
    pending: &[Pending],
) -> Result<(), WriteFailed>
    ensures { Puts O.Output result output.old output.new (reserved_text pending.now) }
{
    for writer in pending {
        put_reserved_of(output, writer)?;
    }
    Ok(())
}

/// Whether the register is a result still to come of this writer, which was issued before the reader.
fn awaits(reader: &Pending, register: &Reg, writer: &Pending) -> bool
    ensures { result ≡ awaits reader.now register.now writer.now }
{
    writer.is_before(reader.number) && writer.reservation().has_to_come(register)
}

/// The earlier instruction that is still to write an operand of the reader.
fn writer_for(pending: &[Pending], reader: &Pending, register: &Reg) -> Option<Pending>
    ensures { result ≡ find (awaits reader.now register.now) pending.now }
{
    pending
        .iter()
        .find(
            |writer|
                ensures { result ≡ awaits reader.entry.now register.entry.now writer.now.now }
            { awaits(reader, register, writer) },
        )
        .copied()
}

/// Writes the line of an operand that the reader is still to read, with the earlier instruction that is still to write
/// it, if there is one.
fn put_operand<O: Output>(
    output: &mut O,
    pending: &[Pending],
    reader: &Pending,
    register: &Reg,
) -> Result<(), WriteFailed>
    ensures { Puts O.Output result output.old output.new (operand_line pending.now reader.now register.now) }
{
    match writer_for(pending, reader, register) {
        Some(writer) => put_pieces(
            output,
            &[
                Piece::Count(reader.number),
                Piece::Text(b" "),
                Piece::Register(*register),
                Piece::Text(b" "),
                Piece::Count(writer.number),
                Piece::Text(b"\n"),
            ],
        ),
        None => put_pieces(
            output,
            &[
                Piece::Count(reader.number),
                Piece::Text(b" "),
                Piece::Register(*register),
                Piece::Text(b"\n"),
            ],
        ),
    }
}

/// Writes the lines of these operands of an instruction.
fn put_unread_operands<O: Output>(
    output: &mut O,
    pending: &[Pending],
    reader: &Pending,
    operands: &[Reg],
) -> Result<(), WriteFailed>
    ensures { Puts O.Output result output.old output.new
        (flat_map (operand_line pending.now reader.now) operands.now) }
{
    for register in operands {
        put_operand(output, pending, reader, register)?;
    }
    Ok(())
}

/// Writes the lines of the operands that an instruction is still to read.
fn put_unread_of<O: Output>(
    output: &mut O,
    pending: &[Pending],
    reader: &Pending,
) -> Result<(), WriteFailed>
    ensures { Puts O.Output result output.old output.new (unread_of pending.now reader.now) }
{
    let operands = reader.reservation().reads();
    put_unread_operands(output, pending, reader, operands.as_slice())
}

/// Writes a line for each operand that one of the pending instructions is still to read.
pub(crate) fn put_unread<O: Output>(output: &mut O, pending: &[Pending]) -> Result<(), WriteFailed>
    ensures { Puts O.Output result output.old output.new (unread_text pending.now) }
{
    for reader in pending {
        put_unread_of(output, pending, reader)?;
    }
    Ok(())
}

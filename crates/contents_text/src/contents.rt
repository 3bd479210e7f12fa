ghost use Rattle.std.specs.Prelude.{◌≡◌, ◌<◌};
ghost use Rattle.std.specs.List.{flat_map};
ghost use Rattle.device_text.specs.Pieces.{text_of_all};
ghost use Rattle.device_text.specs.Putting.{Puts};
ghost use Rattle.contents_text.specs.Contents.{access_text, arrival_line, bank_line, banks_text, channels_text};
ghost use Rattle.contents_text.specs.Contents.{contents_text, entry_line, hopper_text, request_text, stage_text, unit_line};
ghost use Rattle.contents_text.specs.Contents.{fetched_text, next_text, position_text, units_text};

use crate::conflicts::{put_reserved, put_unread};
use device_text::{Output, Piece, WriteFailed, put_pieces};
use hopper::PLACES;
use in_flight::Stage;
use instructions::{FIRST_CHANNEL, Halt, PAST_CHANNELS, Unit};
use machine::Machine;
use relocation::{Access, BANKS};
use sequential::{Fetched, ProgramPosition, State};

/// A part of the machine whose contents can be written.
#[derive(Clone, Copy, Drop)]
pub enum Part {
    /// The functional units.
    Units,
    /// The places of the hopper.
    Hopper,
    /// The load channels.
    Channels,
    /// The banks of memory.
    Banks,
    /// The request for an exchange.
    Request,
    /// The instruction that is issued next.
    NextInstruction,
    /// The registers that pending instructions are still to write.
    ReservedRegisters,
    /// The operands that pending instructions are still to read.
    UnreadOperands,
}

/// The word for the stage of the instruction in a unit.
fn stage_text(stage: &Stage) -> &'static [u8]
    ensures { result.now ≡ stage_text stage.now }
{
    match stage {
        Stage::Unread => b" issued ",
        Stage::Read(_) => b" read ",
        Stage::Finished(_) => b" finished ",
    }
}

/// Writes the line of a unit, if an instruction holds it.
fn put_unit<O: Output>(output: &mut O, machine: &Machine, unit: Unit) -> Result<(), WriteFailed>
    ensures { Puts O.Output result output.old output.new (unit_line machine.now.pending unit) }
{
    match machine.in_unit(unit) {
        Some(held) => put_pieces(
            output,
            &[
                Piece::UnitName(unit),
                Piece::Text(b" "),
                Piece::Count(held.pending.number),
                Piece::Text(stage_text(&held.answer)),
                Piece::Instruction(held.pending.instr),
                Piece::Text(b"\n"),
            ],
        ),
        None => Ok(()),
    }
}

/// Writes the lines of these units.
fn put_units<O: Output>(
    output: &mut O,
    machine: &Machine,
    units: &[Unit],
) -> Result<(), WriteFailed>
    ensures { Puts O.Output result output.old output.new (flat_map (unit_line machine.now.pending) units.now) }
{
    for unit in units {
        put_unit(output, machine, *unit)?;
    }
    Ok(())
}

/// Writes the lines of the units in use, in the order of their numbers.
fn put_all_units<O: Output>(output: &mut O, machine: &Machine) -> Result<(), WriteFailed>
    ensures { Puts O.Output result output.old output.new (units_text machine.now.pending) }
{
    let units = [
        Unit::Branch,
        Unit::Boolean,
        Unit::Shift,
        Unit::LongAdd,
        Unit::Divide,
        Unit::Increment1,
        Unit::Increment2,
    ];
    put_units(output, machine, &units)
}

/// The word for a kind of reference.
fn access_text(access: &Access) -> &'static [u8]
    ensures { result.now ≡ access_text access.now }
{
    match access {
        Access::Load(_) => b" load ",
        Access::Store(_) => b" store ",
    }
}

/// Writes the line of a place of the hopper, if a reference waits there.
fn put_entry<O: Output>(output: &mut O, machine: &Machine, place: u8) -> Result<(), WriteFailed>
    requires { place < 4 }
    ensures { Puts O.Output result output.old output.new (entry_line machine.now.pending place) }
{
    match machine.in_hopper(place) {
        Some(waiting) => put_pieces(
            output,
            &[
                Piece::Count(u64::from(place)),
                Piece::Text(b" "),
                Piece::Count(waiting.pending.number),
                Piece::Text(b" "),
                Piece::Address(waiting.answer.address),
                Piece::Text(access_text(&waiting.answer.access)),
                Piece::Instruction(waiting.pending.instr),
                Piece::Text(b"\n"),
            ],
        ),
        None => Ok(()),
    }
}

/// Writes the lines of the places of the hopper in which references wait.
fn put_hopper<O: Output>(output: &mut O, machine: &Machine) -> Result<(), WriteFailed>
    ensures { Puts O.Output result output.old output.new (hopper_text machine.now.pending) }
{
    for place in 0..PLACES as u8 {
        put_entry(output, machine, place)?;
    }
    Ok(())
}

/// Writes the line of a load channel, if a load waits there.
fn put_arrival<O: Output>(output: &mut O, machine: &Machine, channel: u8) -> Result<(), WriteFailed>
    ensures { Puts O.Output result output.old output.new (arrival_line machine.now.pending channel) }
{
    match machine.in_channel(channel) {
        Some(waiting) => put_pieces(
            output,
            &[
                Piece::Count(u64::from(channel)),
                Piece::Text(b" "),
                Piece::Count(waiting.pending.number),
                Piece::Text(b" "),
                Piece::Word(waiting.answer.word),
                Piece::Text(b" "),
                Piece::Instruction(waiting.pending.instr),
                Piece::Text(b"\n"),
            ],
        ),
        None => Ok(()),
    }
}

/// Writes the lines of the load channels in which loads wait.
fn put_channels<O: Output>(output: &mut O, machine: &Machine) -> Result<(), WriteFailed>
    ensures { Puts O.Output result output.old output.new (channels_text machine.now.pending) }
{
    for channel in FIRST_CHANNEL..PAST_CHANNELS {
        put_arrival(output, machine, channel)?;
    }
    Ok(())
}

/// Writes the number of a bank, if the bank is busy.
fn put_bank<O: Output>(output: &mut O, machine: &Machine, bank: u8) -> Result<(), WriteFailed>
    ensures { Puts O.Output result output.old output.new (bank_line machine.now.busy bank) }
{
    if machine.is_bank_busy(bank) {
        put_pieces(output, &[Piece::Count(u64::from(bank)), Piece::Text(b"\n")])
    } else {
        Ok(())
    }
}

/// Writes the numbers of the busy banks.
fn put_banks<O: Output>(output: &mut O, machine: &Machine) -> Result<(), WriteFailed>
    ensures { Puts O.Output result output.old output.new (banks_text machine.now.busy) }
{
    for bank in 0..BANKS as u8 {
        put_bank(output, machine, bank)?;
    }
    Ok(())
}

/// Writes the package address of the exchange that is requested, if one is.
fn put_request<O: Output>(output: &mut O, machine: &Machine) -> Result<(), WriteFailed>
    ensures { Puts O.Output result output.old output.new (request_text machine.now.request) }
{
    match machine.request() {
        Some(at) => put_pieces(output, &[Piece::Address(at), Piece::Text(b"\n")]),
        None => Ok(()),
    }
}

/// Writes the text of the next instruction, or a question mark and the reason why there is none.
fn put_fetched<O: Output>(output: &mut O, fetched: Fetched) -> Result<(), WriteFailed>
    ensures { Puts O.Output result output.old output.new (fetched_text fetched) }
{
    match fetched {
        Fetched::Taking(instr, _) => put_pieces(output, &[Piece::Instruction(instr)]),
        Fetched::Passing(_) => output.put(b"NO"),
        Fetched::Halting(Halt::Stop, _) => output.put(b"PS"),
        Fetched::Halting(Halt::Illegal(op), _) => {
            put_pieces(output, &[Piece::Text(b"?"), Piece::Opcode(op)])
        }
        Fetched::Halting(Halt::Straddle, _) => output.put(b"?straddle"),
        Fetched::Halting(Halt::FetchRange, _) => output.put(b"?fetch"),
    }
}

/// P and the parcel of the next instruction, with a space after each.
fn position_pieces(position: &ProgramPosition) -> [Piece<'static>; 4]
    ensures { text_of_all result ≡ position_text position.now }
{
    [
        Piece::Address(position.p.get()),
        Piece::Text(b" "),
        Piece::Parcel(position.parcel),
        Piece::Text(b" "),
    ]
}

/// Writes the position of the next instruction and its text.
fn put_next<O: Output>(output: &mut O, state: &State) -> Result<(), WriteFailed>
    ensures { Puts O.Output result output.old output.new (next_text state.now) }
{
    put_pieces(output, &position_pieces(&state.position))?;
    put_fetched(output, state.fetch())?;
    output.put(b"\n")
}

/// Writes the contents of a part of the machine.
///
/// # Errors
/// Fails if a write fails. The output then has a prefix of the text.
pub fn put_contents<O: Output>(
    output: &mut O,
    machine: &Machine,
    part: Part,
) -> Result<(), WriteFailed>
    ensures { Puts O.Output result output.old output.new (contents_text part machine.now) }
{
    match part {
        Part::Units => put_all_units(output, machine),
        Part::Hopper => put_hopper(output, machine),
        Part::Channels => put_channels(output, machine),
        Part::Banks => put_banks(output, machine),
        Part::Request => put_request(output, machine),
        Part::NextInstruction => put_next(output, machine.state()),
        Part::ReservedRegisters => put_reserved(output, machine.pending().as_slice()),
        Part::UnreadOperands => put_unread(output, machine.pending().as_slice()),
    }
}

ghost use Rattle.std.specs.Prelude.{◌≡◌, ◌<◌, slice_index_or, OnOk, OnErr, Err, false};
ghost use Rattle.std.specs.List.{flat_map};
ghost use Rattle.device_text.specs.Device.{Writes};
ghost use Rattle.device_text.specs.Putting.{Puts};
ghost use Rattle.job_deck.specs.Dump.{held_text, place_line, halt_text, fault_text, area_line, spaced_index};
ghost use Rattle.job_deck.specs.Dump.{index_line, x_line, x_lines, state_lines, register_lines, word_line, show_lines};
ghost use Rattle.job_deck.specs.Dump.{log_text, log_line, spaced_entry, dump_text};
ghost use Rattle.device_text.specs.Pieces.{text_of, text_of_all};
ghost use Rattle.instructions.specs.declared.refusal.Refusal.TheVariants.{Write as WriteRefusal};
ghost use Rattle.sequential.specs.Log.{entries_of};

use deck::{Deck, Show};
use device_text::{CheckedWriter, Output, Piece, WriteFailed, put_pieces};
use instructions::{Halt, Refusal};
use registers::RegisterFile;
use relocation::{Area, Storage};
use sequential::{Entry, Log, ProgramPosition, State};
use std::io::Write;
use word60::{Word18, Word60};

/// The text of the held word, or `none`.
fn held_piece(held: &Option<Word60>) -> Piece<'static>
    ensures { text_of result ≡ held_text held.now }
{
    match *held {
        None => Piece::Text(b"none"),
        Some(word) => Piece::Word(word),
    }
}

/// The line with P, the next parcel and the held word.
fn place_line(position: &ProgramPosition) -> [Piece<'static>; 7]
    ensures { text_of_all result ≡ place_line position.now }
{
    [
        Piece::Text(b"P "),
        Piece::Index(position.p),
        Piece::Text(b" PARCEL "),
        Piece::Parcel(position.parcel),
        Piece::Text(b" HELD "),
        held_piece(&position.held),
        Piece::Text(b"\n"),
    ]
}

/// The first half of the `HALT` line: why the machine is halted, or `running`.
fn halt_text(halt: &Option<Halt>) -> [Piece<'static>; 2]
    ensures { text_of_all result ≡ halt_text halt.now }
{
    match halt {
        None => [Piece::Text(b"HALT running"), Piece::Text(b"")],
        Some(halt) => [Piece::Text(b"HALT "), Piece::Reason(*halt)],
    }
}

/// The second half of the `HALT` line: whether the fault flag is set.
fn fault_text(fault: bool) -> [Piece<'static>; 1]
    ensures { text_of_all result ≡ fault_text fault }
{
    [Piece::Text(if fault {
        b" FAULT address\n"
    } else {
        b" FAULT none\n"
    })]
}

/// The line with RA, FL and the exit mode.
fn area_line(area: &Area) -> [Piece<'static>; 7]
    ensures { text_of_all result ≡ area_line area.now }
{
    [
        Piece::Text(b"RA "),
        Piece::Index(area.ra),
        Piece::Text(b" FL "),
        Piece::Index(area.fl),
        Piece::Text(b" EM "),
        Piece::Index(area.mode),
        Piece::Text(b"\n"),
    ]
}

/// A space and a number of six octal digits.
fn spaced_index(index: Word18) -> [Piece<'static>; 2]
    ensures { text_of_all result ≡ spaced_index index }
{
    [Piece::Text(b" "), Piece::Index(index)]
}

/// Writes numbers of six octal digits, with a space before each.
fn put_indexes<O: Output>(output: &mut O, indexes: &[Word18]) -> Result<(), WriteFailed>
    ensures { Puts O.Output result output.old output.new (flat_map spaced_index indexes.now) }
{
    for index in indexes {
        put_pieces(output, &spaced_index(*index))?;
    }
    Ok(())
}

/// Writes a line with a name and numbers of six octal digits.
fn put_index_line<O: Output>(
    output: &mut O,
    name: &[u8],
    indexes: &[Word18],
) -> Result<(), WriteFailed>
    ensures { Puts O.Output result output.old output.new (index_line name.now indexes.now) }
{
    output.put(name)?;
    put_indexes(output, indexes)?;
    output.put(b"\n")
}

/// The line of one X register.
fn x_line(x: &[Word60; 8], number: u8) -> [Piece<'static>; 5]
    requires { number < 8 }
    ensures { text_of_all result ≡ x_line x.now number }
{
    [
        Piece::Text(b"X"),
        Piece::Count(u64::from(number)),
        Piece::Text(b" "),
        Piece::Word(x[number as usize]),
        Piece::Text(b"\n"),
    ]
}

/// Writes X0 to X7, one per line.
fn put_x_lines<O: Output>(output: &mut O, x: &[Word60; 8]) -> Result<(), WriteFailed>
    ensures { Puts O.Output result output.old output.new (x_lines x.now) }
{
    for number in 0..8u8 {
        put_pieces(output, &x_line(x, number))?;
    }
    Ok(())
}

/// Writes the lines of the machine's state, without the registers.
fn put_state<O: Output>(output: &mut O, state: &State) -> Result<(), WriteFailed>
    ensures { Puts O.Output result output.old output.new (state_lines state.now) }
{
    put_pieces(output, &place_line(&state.position))?;
    put_pieces(output, &halt_text(&state.halt))?;
    put_pieces(output, &fault_text(state.fault))?;
    put_pieces(output, &area_line(&state.area))
}

/// Writes the lines of the registers.
fn put_registers<O: Output>(output: &mut O, registers: &RegisterFile) -> Result<(), WriteFailed>
    ensures { Puts O.Output result output.old output.new (register_lines registers.now) }
{
    put_index_line(output, b"A", &registers.a)?;
    // B0 is always +0.
    put_index_line(output, b"B 000000", &registers.b)?;
    put_x_lines(output, &registers.x)
}

/// The word at an address, or +0 if the address is past the end of the memory.
fn word_at(memory: &Storage, address: Word18) -> Word60
    ensures { result ≡ slice_index_or memory.now address 0 }
{
    if address.get() < memory.size() {
        memory.load(address.get())
    } else {
        Word60::default()
    }
}

/// The line of one word of memory.
fn word_line(memory: &Storage, address: Word18) -> [Piece<'static>; 5]
    ensures { text_of_all result ≡ word_line memory.now address }
{
    [
        Piece::Text(b"M "),
        Piece::Index(address),
        Piece::Text(b" "),
        Piece::Word(word_at(memory, address)),
        Piece::Text(b"\n"),
    ]
}

/// Writes the words of a `show` line.
fn put_show<O: Output>(output: &mut O, memory: &Storage, show: Show) -> Result<(), WriteFailed>
    ensures { Puts O.Output result output.old output.new (show_lines memory.now show) }
{
    for address in show.first.get()..show.last.get() + 1 {
        put_pieces(output, &word_line(memory, Word18::from_bits(address)))?;
    }
    Ok(())
}

/// Writes the words of all `show` lines.
fn put_shows<O: Output>(output: &mut O, memory: &Storage, shows: &[Show]) -> Result<(), WriteFailed>
    ensures { Puts O.Output result output.old output.new (flat_map (show_lines memory.now) shows.now) }
{
    for show in shows {
        put_show(output, memory, *show)?;
    }
    Ok(())
}

/// A space and one entry of a log.
fn spaced_entry(entry: Entry) -> [Piece<'static>; 4]
    ensures { text_of_all result ≡ spaced_entry entry }
{
    match entry {
        Entry::Exchange(address) => [
            Piece::Text(b" E"),
            Piece::Address(address),
            Piece::Text(b""),
            Piece::Text(b""),
        ],
        Entry::Issued(count) => [
            Piece::Text(b" I"),
            Piece::Count(count),
            Piece::Text(b""),
            Piece::Text(b""),
        ],
        Entry::PpRead(address) => [
            Piece::Text(b" R"),
            Piece::Address(address),
            Piece::Text(b""),
            Piece::Text(b""),
        ],
        Entry::PpWrite(address, word) => [
            Piece::Text(b" W"),
            Piece::Address(address),
            Piece::Text(b"="),
            Piece::ShortWord(word),
        ],
    }
}

/// Writes the entries of a log with a space before each.
fn put_entries<O: Output>(output: &mut O, entries: &[Entry]) -> Result<(), WriteFailed>
    ensures { Puts O.Output result output.old output.new (flat_map spaced_entry entries.now) }
{
    for entry in entries {
        put_pieces(output, &spaced_entry(*entry))?;
    }
    Ok(())
}

/// Writes a space and the text of a log.
///
/// # Errors
/// Fails if a write fails. The output then has a prefix of the text.
pub fn put_log<O: Output>(output: &mut O, entries: &[Entry]) -> Result<(), WriteFailed>
    ensures { Puts O.Output result output.old output.new (log_text entries.now) }
{
    match entries {
        [] => output.put(b" none"),
        _ => put_entries(output, entries),
    }
}

/// Writes the line of the log.
pub fn put_log_line<O: Output>(output: &mut O, entries: &[Entry]) -> Result<(), WriteFailed>
    ensures { Puts O.Output result output.old output.new (log_line entries.now) }
{
    output.put(b"LOG")?;
    put_log(output, entries)?;
    output.put(b"\n")
}

/// Writes a dump: the machine's state, the words of the `show` lines, and the log.
fn put_dump<O: Output>(
    output: &mut O,
    state: &State,
    entries: &[Entry],
    shows: &[Show],
) -> Result<(), WriteFailed>
    ensures { Puts O.Output result output.old output.new (dump_text state.now entries.now shows.now) }
{
    put_state(output, state)?;
    put_registers(output, &state.registers)?;
    put_shows(output, &state.memory, shows)?;
    put_log_line(output, entries)
}

/// Writes a dump and flushes the output. The dump has the machine's state, the words of the deck's `show` lines, and
/// the log.
///
/// # Errors
/// Fails if a write or the flush fails. The output then has a prefix of the text.
pub fn dump_to<O: Output>(
    output: &mut O,
    state: &State,
    log: &Log,
    deck: &Deck,
) -> Result<(), WriteFailed>
    ensures puts { Puts O.Output result output.old output.new
        (dump_text state.now (entries_of log.now.steps) deck.now.shows) }
    ensures handed_on { OnOk result (O.waits output.new ≡ false) }
{
    put_dump(output, state, log.entries(), deck.shows.as_slice())?;
    output.flush()
}

/// Writes the same dump to any writer.
///
/// # Errors
/// `Write` if a write or the flush fails. The writer then has a prefix of the text.
pub fn dump<W: Write>(state: &State, log: &Log, deck: &Deck, writer: &mut W) -> Result<(), Refusal>
    ensures written { Writes result (W.contents writer.old) (W.contents writer.new)
        (dump_text state.now (entries_of log.now.steps) deck.now.shows) }
    ensures refusal { OnErr result (result ≡ Err WriteRefusal) }
{
    let mut output = CheckedWriter::new(writer);
    let result = dump_to(&mut output, state, log, deck);
    // No effect at run time. The proof reads what the writer holds from this use.
    let _ = &*output.into_inner();
    match result {
        Ok(()) => Ok(()),
        Err(_) => Err(Refusal::Write),
    }
}

ghost use Rattle.std.specs.Prelude.{◌≡◌, ◌∷◌, ◌-◌, length, true, false, Option, unwrap_or};
ghost use Rattle.embedding.specs.Keeping.{HasRegisters, TellsRegisters, TellsWords, halt_number, halting_opcode, opcode_number};
ghost use Rattle.embedding.specs.Keeping.{words_from};
ghost use Rattle.embedding.specs.Embedding.{filled};

use crate::booted::Booted;
use crate::outcome::Outcome;
use instructions::{Halt, Op};
use operator_terms::Status;
use relocation::Storage;
use sequential::State;
use word60::{Word18, Word60};

/// The registers of a machine, for C.
#[repr(C)]
#[derive(Clone, Copy, Drop)]
pub struct Registers {
    /// X0 to X7.
    pub x: [u64; 8],
    /// A0 to A7.
    pub a: [u32; 8],
    /// B0 to B7; B0 is 0.
    pub b: [u32; 8],
    pub p: u32,
    pub ra: u32,
    pub fl: u32,
    /// The exit mode.
    pub em: u32,
    /// The number of the next parcel.
    pub parcel: u8,
    /// The reason why the machine is halted. 0 means that it runs, 1 a stop, 2 a refused opcode, 3 a straddling
    /// instruction, and 4 a fetch out of range.
    pub halt: u8,
    pub fault: bool,
    /// Whether the machine holds a word of the program.
    pub has_held: bool,
    /// The refused opcode if `halt` is 2: its octal digits f, m and i, or f, m and 0 if it has two. Otherwise 0.
    pub opcode: u16,
    /// The word of the program that the machine holds, or 0 if it holds none.
    pub held: u64,
}

/// The number of the reason why a machine is halted.
fn halt_number(halt: &Option<Halt>) -> u8
    ensures { result ≡ halt_number halt.now }
{
    match halt {
        None => 0,
        Some(Halt::Stop) => 1,
        Some(Halt::Illegal(_)) => 2,
        Some(Halt::Straddle) => 3,
        Some(Halt::FetchRange) => 4,
    }
}

/// The digits of a refused opcode as a number.
fn opcode_number(op: &Op) -> u16
    ensures { result ≡ opcode_number op.now }
{
    match *op {
        Op::Plain(f, m) => u16::from(f.get()) * 64 + u16::from(m.get()) * 8,
        Op::Extended(f, m, i) => {
            u16::from(f.get()) * 64 + u16::from(m.get()) * 8 + u16::from(i.get())
        }
    }
}

/// The refused opcode that halted the machine, as a number; 0 if there is none.
fn halting_opcode(halt: &Option<Halt>) -> u16
    ensures { result ≡ halting_opcode halt.now }
{
    match halt {
        Some(Halt::Illegal(op)) => opcode_number(op),
        _ => 0,
    }
}

/// The number of a held word; 0 if none is held.
fn held_number(held: &Option<Word60>) -> u64
    ensures { result ≡ unwrap_or held.now 0 }
{
    match held {
        Some(word) => word.get(),
        None => 0,
    }
}

/// The X registers as numbers.
fn x_numbers(x: &[Word60; 8]) -> [u64; 8]
    ensures { result ≡ x.now }
{
    x.map(|word| word.get())
}

/// The A registers as numbers.
fn a_numbers(a: &[Word18; 8]) -> [u32; 8]
    ensures { result ≡ a.now }
{
    a.map(|index| index.get())
}

/// The B registers as numbers, including B0.
fn b_numbers(b: &[Word18; 7]) -> [u32; 8]
    ensures { result ≡ 0 ∷ b.now }
{
    [
        0,
        b[0].get(),
        b[1].get(),
        b[2].get(),
        b[3].get(),
        b[4].get(),
        b[5].get(),
        b[6].get(),
    ]
}

/// The registers of a state.
fn registers_of(state: &State) -> Registers
    ensures { HasRegisters state.now result }
{
    Registers {
        x: x_numbers(&state.registers.x),
        a: a_numbers(&state.registers.a),
        b: b_numbers(&state.registers.b),
        p: state.position.p.get(),
        ra: state.area.ra.get(),
        fl: state.area.fl.get(),
        em: state.area.mode.get(),
        parcel: state.position.parcel.get(),
        halt: halt_number(&state.halt),
        fault: state.fault,
        has_held: state.position.held.is_some(),
        opcode: halting_opcode(&state.halt),
        held: held_number(&state.position.held),
    }
}

/// Copies the registers as they are now, even if the machine isn't drained. Returns the status.
pub fn show_registers(booted: &Booted, registers: &mut Registers) -> u8
    ensures { TellsRegisters booted.now result registers.new }
{
    *registers = registers_of(booted.machine.state());
    Status::Stopped.code()
}

/// Copies words of a memory from an address on, as many as there are and as fit. Returns how many there are.
fn copy_words(memory: &Storage, first: u32, words: &mut [u64]) -> usize
    ensures words { words.new ≡ filled (words_from memory.now first) words.old }
    ensures count { result ≡ length memory.now - first }
{
    let there = memory.size().saturating_sub(first);
    let count = (there as usize).min(words.len());
    for k in 0..count {
        words[k] = memory.load(first + k as u32).get();
    }
    there as usize
}

/// Copies words of memory as they are now, even if the machine isn't drained.
pub fn show_words(booted: &Booted, first: u32, words: &mut [u64]) -> Outcome
    ensures { TellsWords booted.now first result words.old words.new }
{
    Outcome {
        printed: copy_words(&booted.machine.state().memory, first, words),
        told: 0,
        status: Status::Stopped.code(),
    }
}

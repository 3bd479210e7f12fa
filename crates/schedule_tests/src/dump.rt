//! Builds the texts of dumps from the parts in which the dumps differ.

use std::alloc::AllocError;

/// The parts of a dump that differ between schedules: the lines before the registers, the registers that aren't +0, the
/// lines of the words shown, and the log. A register has its digits without leading zeros.
#[derive(Clone, Copy, Drop)]
pub struct Dump<'a> {
    pub begins: &'a str,
    pub registers: &'a [(&'a str, &'a str)],
    pub shows: &'a str,
    pub log: &'a str,
}

/// Writes digits after as many zeros as the width needs.
fn put_octal(text: &mut Vec<u8>, digits: &str, width: usize) -> Result<(), AllocError> {
    if let Some(zeros) = b"00000000000000000000".get(digits.len()..width) {
        text.extend_from_slice(zeros)?;
    }
    text.extend_from_slice(digits.as_bytes())
}

/// Writes the digits of a register.
fn put_register(
    text: &mut Vec<u8>,
    dump: Dump<'_>,
    register: &str,
    width: usize,
) -> Result<(), AllocError> {
    for (named, digits) in dump.registers {
        if *named == register {
            return put_octal(text, digits, width);
        }
    }
    put_octal(text, "", width)
}

/// Writes the line of the A or B registers.
fn put_indexes(
    text: &mut Vec<u8>,
    dump: Dump<'_>,
    letter: &str,
    registers: [&str; 8],
) -> Result<(), AllocError> {
    text.extend_from_slice(letter.as_bytes())?;
    for register in registers {
        text.push(b' ')?;
        put_register(text, dump, register, 6)?;
    }
    text.extend_from_slice(b"\n")
}

/// Writes the line of an X register.
fn put_word(text: &mut Vec<u8>, dump: Dump<'_>, register: &str) -> Result<(), AllocError> {
    text.extend_from_slice(register.as_bytes())?;
    text.push(b' ')?;
    put_register(text, dump, register, 20)?;
    text.push(b'\n')?;
    Ok(())
}

/// Writes the lines of the X registers.
fn put_words(text: &mut Vec<u8>, dump: Dump<'_>) -> Result<(), AllocError> {
    for register in ["X0", "X1", "X2", "X3", "X4", "X5", "X6", "X7"] {
        put_word(text, dump, register)?;
    }
    Ok(())
}

/// Writes the lines of all registers.
fn put_registers(text: &mut Vec<u8>, dump: Dump<'_>) -> Result<(), AllocError> {
    let a = ["A0", "A1", "A2", "A3", "A4", "A5", "A6", "A7"];
    put_indexes(text, dump, "A", a)?;
    let b = ["B0", "B1", "B2", "B3", "B4", "B5", "B6", "B7"];
    put_indexes(text, dump, "B", b)?;
    put_words(text, dump)
}

/// Writes the text of a dump.
pub fn put_dump(text: &mut Vec<u8>, dump: Dump<'_>) -> Result<(), AllocError> {
    text.extend_from_slice(dump.begins.as_bytes())?;
    put_registers(text, dump)?;
    for part in [dump.shows, "LOG ", dump.log, "\n"] {
        text.extend_from_slice(part.as_bytes())?;
    }
    Ok(())
}

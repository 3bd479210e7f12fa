//! The texts of instructions in a `code` line.
ghost use Rattle.std.specs.Prelude.{IfSome};
ghost use Rattle.device_text.specs.Position.{IsPart};

use crate::fields::first_part;
use crate::refused_line::fields::{position_from, start_of};
use crate::refused_line::position::{Cause, Position};
use instruction_table::{encode, read_bytes};
use parcel::PARCELS;

/// The number of bytes before the first text: `code` and a blank.
const BEFORE: usize = 5;

/// Whether a text begins like a floating-point instruction.
fn is_floating_point(text: &[u8]) -> bool {
    match text {
        [first, b'X', ..] => b"FDRNZUP".contains(first),
        _ => false,
    }
}

/// The cause of the fault in a text that isn't an instruction.
fn cause_of(text: &[u8]) -> Cause {
    if is_floating_point(text) {
        Cause::FloatingPoint
    } else {
        Cause::Text
    }
}

/// The position of the first text that isn't an instruction, doesn't fit into the word, or has no blank before it.
pub fn text_at_fault(line: &[u8]) -> Option<Position<'_>>
    ensures { IfSome result (λ position. IsPart line.now position.start position.text.now) }
{
    let (mut ending, mut parcels) = (line.get(BEFORE..)?, 0usize);
    for _ in 0..PARCELS + 1 {
        let (text, others) = first_part(ending, b';');
        let start = start_of(line, ending);
        let Some(instr) = read_bytes(text) else {
            return Some(position_from(line, start, b';', cause_of(text)));
        };
        parcels = parcels.saturating_add(encode(&instr).len());
        if parcels > PARCELS {
            return Some(position_from(line, start, b';', Cause::Text));
        }
        let others = others?;
        match others.split_first() {
            Some((b' ', rest)) => ending = rest,
            _ => return Some(position_from(line, start_of(line, others), b';', Cause::NoBlank)),
        }
    }
    None
}

ghost use Rattle.std.specs.Prelude.{◌≡◌, ◌<◌, ◌^◌};
ghost use Rattle.instruction_table.specs.Opcode.{op_at, op_of};

use crate::{Digit, Instr, Op, encode};

/// The opcode in the top digits of a parcel.
fn opcode_at(parcel: u16) -> Op
    requires { parcel < 2 ^ 15 }
    ensures { result ≡ op_at parcel }
{
    let f = Digit::low(parcel >> 12);
    let m = Digit::low(parcel >> 9);
    let i = Digit::low(parcel >> 6);
    match parcel >> 9 {
        1 | 3 => Op::Extended(f, m, i),
        _ => Op::Plain(f, m),
    }
}

/// The opcode of an instruction: the digits f and m, and also i if the code begins with 01 or 03.
#[tactic(auto, unfolding(crate::specs::Opcode::op_of))]
pub fn opcode(instr: &Instr) -> Op
    ensures { result ≡ op_of instr.now }
{
    opcode_at(encode(instr)[0])
}

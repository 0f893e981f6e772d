// Gate words: two ids and an operation in one element.
#![tactic(auto)]

ghost use Rattle.std.specs.Prelude.{◌≡◌};
ghost use Rattle.instruction.specs.Decode.{Numbered, decode_told, decode_answer};

use field::P;
use refusal::Refusal;

pub const ID_BITS: u64 = 30;

pub const MAX_ID: u32 = (1 << ID_BITS) - 1;

const IDS: u64 = 1 << ID_BITS;

#[derive(Clone, Copy, Debug, PartialEq, Eq)]
pub enum Op {
    Sub = 0,
    Mul = 1,
    Add = 2,
}

impl TryFrom<u64> for Op {
    type Error = u64;

    ghost try_from_gives = { Numbered };

    fn try_from(opcode: u64) -> Result<Self, u64> {
        match opcode {
            0 => Ok(Op::Sub),
            1 => Ok(Op::Mul),
            2 => Ok(Op::Add),
            _ => Err(opcode),
        }
    }
}

// The left id, the right id and the operation.
pub fn decode_instruction(instruction: u64) -> Result<(u32, u32, Op), Refusal>
    ensures { decode_told result ≡ decode_answer instruction }
{
    if P <= instruction {
        return Err(Refusal::NotElement(0));
    }
    let id_l = (instruction % IDS) as u32;
    let id_r = (instruction / IDS % IDS) as u32;
    // "The Rust's test of an id over 2^30 - 1 is kept."
    if id_l > MAX_ID || id_r > MAX_ID {
        return Err(Refusal::NotInstruction(0));
    }
    match Op::try_from(instruction / IDS / IDS) {
        Ok(op) => Ok((id_l, id_r, op)),
        Err(_) => Err(Refusal::NotInstruction(0)),
    }
}

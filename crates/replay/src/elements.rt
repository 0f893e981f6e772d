// Calls of the field, of pairs and of decoding.
use crate::instructions::{Unknown, Words};
use crate::say;
use field::{felt, quad};
use instruction::decode_instruction;
use refusal::Refusal;
use std::io;

#[derive(Clone, Copy, Debug, PartialEq, Eq)]
pub enum Operation {
    Add,
    Sub,
    Mul,
}

impl TryFrom<u64> for Operation {
    type Error = Unknown;

    fn try_from(number: u64) -> Result<Self, Unknown> {
        match number {
            0 => Ok(Operation::Add),
            1 => Ok(Operation::Sub),
            2 => Ok(Operation::Mul),
            _ => Err(Unknown),
        }
    }
}

#[derive(Clone, Copy)]
pub enum ElementCall {
    Felt(Operation, u64, u64),
    Quad(Operation, [u64; 2], [u64; 2]),
    Decode(u64),
}

impl TryFrom<Words<'_>> for ElementCall {
    type Error = Unknown;

    fn try_from(words: Words<'_>) -> Result<Self, Unknown> {
        match words {
            (8, &[op, a, b]) => Ok(Self::Felt(Operation::try_from(op)?, a, b)),
            (9, &[op, a0, a1, b0, b1]) => {
                Ok(Self::Quad(Operation::try_from(op)?, [a0, a1], [b0, b1]))
            }
            (10, &[v]) => Ok(Self::Decode(v)),
            _ => Err(Unknown),
        }
    }
}

fn felt_answer(op: Operation, a: u64, b: u64) -> Result<u64, Refusal> {
    match op {
        Operation::Add => felt::add(a, b),
        Operation::Sub => felt::sub(a, b),
        Operation::Mul => felt::mul(a, b),
    }
}

// No generic of both: it would be passed the three functions, as they are named here.
fn quad_answer(op: Operation, a: [u64; 2], b: [u64; 2]) -> Result<[u64; 2], Refusal> {
    match op {
        Operation::Add => quad::add(a, b),
        Operation::Sub => quad::sub(a, b),
        Operation::Mul => quad::mul(a, b),
    }
}

pub fn answer(rt: &impl Print, call: ElementCall) -> io::Result<()> {
    match call {
        ElementCall::Felt(op, a, b) => say::answer(rt, felt_answer(op, a, b).map(|v| [v])),
        ElementCall::Quad(op, a, b) => say::answer(rt, quad_answer(op, a, b)),
        ElementCall::Decode(v) => say::answer(
            rt,
            decode_instruction(v).map(|(left, right, op)| [left.into(), right.into(), op as u64]),
        ),
    }
}

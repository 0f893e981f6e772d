// Calls of the seven-bit numbers, over the lent bytes.
use crate::instructions::{Unknown, Words};
use crate::say;
use std::io;

#[derive(Clone, Copy)]
pub enum NumberCall {
    Width(u64),
    Write(u64, usize),
    Read(usize),
    ReadBelow(usize, u64),
}

impl TryFrom<Words<'_>> for NumberCall {
    type Error = Unknown;

    fn try_from(words: Words<'_>) -> Result<Self, Unknown> {
        match words {
            (21, &[v]) => Ok(Self::Width(v)),
            (22, &[v, at]) => Ok(Self::Write(v, at as usize)),
            (23, &[at]) => Ok(Self::Read(at as usize)),
            (24, &[at, bound]) => Ok(Self::ReadBelow(at as usize, bound)),
            _ => Err(Unknown),
        }
    }
}

fn found_numbers((value, next): (u64, usize)) -> [u64; 2] {
    [value, next as u64]
}

pub fn answer(rt: &impl Print, call: NumberCall, bytes: &mut [u8]) -> io::Result<()> {
    match call {
        NumberCall::Width(v) => say::answer(rt, Ok([numbers::width(v) as u64])),
        NumberCall::Write(v, at) => {
            say::answer(rt, numbers::write(v, bytes, at).map(|next| [next as u64]))
        }
        NumberCall::Read(at) => say::answer(rt, numbers::read(bytes, at).map(found_numbers)),
        NumberCall::ReadBelow(at, bound) => say::answer(
            rt,
            numbers::read_below(bytes, at, bound).map(found_numbers),
        ),
    }
}

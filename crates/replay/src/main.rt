// Reads instructions and puts the calls that they name, as docs/REPLAY.md says.
#![tactic(auto)]

mod buffers;
mod calls;
mod cells;
mod circuits;
mod elements;
mod groups;
mod input;
mod instructions;
mod lists;
mod records;
mod say;
mod steps;

use crate::buffers::{
    BYTE_CELLS, Buffers, COUNT_CELLS, MEMORY_CELLS, NODE_CELLS, ROW_CELLS, VALUE_CELLS,
};
use crate::calls::Held;
use crate::input::{INPUT_BYTES, Input};
use crate::instructions::{ARGUMENTS, Instruction};
use std::io;
use std::io::Read;

fn replay<R: Read>(
    rt: &impl Print,
    input: &mut Input<'_, R>,
    held: &mut Held<'_>,
) -> io::Result<()> {
    // No input has more instructions; without a bound nothing would say that the program ends.
    for _ in 0..u64::MAX {
        let Some(code) = input.number()? else {
            return Ok(());
        };
        let Some(count) = input.number()? else {
            return Ok(());
        };
        let mut args = [0; ARGUMENTS];
        // There is no such instruction, and its arguments would have no place.
        let Some(args) = args.get_mut(..count as usize) else {
            return say::unknown(rt);
        };
        for arg in args.iter_mut() {
            let Some(number) = input.number()? else {
                return Ok(());
            };
            *arg = number;
        }
        let Ok(instruction) = Instruction::try_from((code, &*args)) else {
            return say::unknown(rt);
        };
        held.answer(rt, instruction)?;
    }
    Ok(())
}

fn main(rt: HostRuntime) -> io::Result<()> {
    let mut input_bytes = [0; INPUT_BYTES];
    let mut memory = [0; MEMORY_CELLS];
    let mut values = [0; VALUE_CELLS];
    let mut counts = [0; COUNT_CELLS];
    let mut nodes = [0; NODE_CELLS];
    let mut rows = [0; ROW_CELLS];
    let mut bytes = [0; BYTE_CELLS];
    let mut stdin = rt.stdin();
    replay(
        &rt,
        &mut Input::new(&mut stdin, &mut input_bytes),
        &mut Held::new(Buffers::new(
            &mut memory,
            &mut values,
            &mut counts,
            &mut nodes,
            &mut rows,
            &mut bytes,
        )),
    )
}

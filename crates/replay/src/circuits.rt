// Whole evaluation and row fill, over the lent cells.
use crate::buffers::Buffers;
use crate::cells::Cell;
use crate::instructions::{Unknown, Words};
use crate::say;
use eval_circuit::eval_circuit;
use std::io;
use trace::{CircuitEvaluation, RecordHeader};

#[derive(Clone, Copy)]
pub enum CircuitCall {
    Evaluate {
        ctx: u32,
        clk: u32,
        ptr: u64,
        num_vars: u64,
        num_eval: u64,
    },
    Fill(RecordHeader, usize),
    FillState(usize),
}

impl TryFrom<Words<'_>> for CircuitCall {
    type Error = Unknown;

    fn try_from(words: Words<'_>) -> Result<Self, Unknown> {
        match words {
            (15, &[ctx, clk, ptr, num_vars, num_eval]) => Ok(Self::Evaluate {
                ctx: u32::limited(ctx),
                clk: u32::limited(clk),
                ptr,
                num_vars,
                num_eval,
            }),
            (16, &[ctx, clk, num_read, num_eval, id_next, offset]) => Ok(Self::Fill(
                header_of(ctx, clk, num_read, num_eval, id_next),
                offset as usize,
            )),
            (17, &[offset]) => Ok(Self::FillState(offset as usize)),
            _ => Err(Unknown),
        }
    }
}

pub fn header_of(ctx: u64, clk: u64, num_read: u64, num_eval: u64, id_next: u64) -> RecordHeader {
    RecordHeader {
        ctx: u32::limited(ctx),
        clk: u32::limited(clk),
        num_read: u32::limited(num_read),
        num_eval: u32::limited(num_eval),
        id_next,
    }
}

pub fn answer(
    rt: &impl Print,
    call: CircuitCall,
    state: CircuitEvaluation,
    lent: Buffers<'_>,
) -> io::Result<()> {
    let Buffers {
        memory,
        values,
        counts,
        nodes,
        rows,
        ..
    } = lent;
    match call {
        CircuitCall::Evaluate {
            ctx,
            clk,
            ptr,
            num_vars,
            num_eval,
        } => {
            let evaluated = eval_circuit(
                ctx, clk, ptr, num_vars, num_eval, memory, values, counts, nodes,
            );
            say::answer(rt, evaluated.map(<[u64; 5]>::from))
        }
        CircuitCall::Fill(header, offset) => {
            let filled = rows::fill(header, values, counts, nodes, offset, rows);
            say::answer(rt, filled.map(|()| []))
        }
        CircuitCall::FillState(offset) => {
            let filled = rows::fill_state(state, values, counts, nodes, offset, rows);
            say::answer(rt, filled.map(|()| []))
        }
    }
}

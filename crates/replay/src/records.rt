// Record writer and reader, over the lent cells.
use crate::buffers::Buffers;
use crate::circuits::header_of;
use crate::instructions::{Unknown, Words};
use crate::say;
use std::io;
use trace::{CircuitEvaluation, RecordHeader};

#[derive(Clone, Copy)]
pub enum RecordCall {
    Write(RecordHeader),
    WriteState,
    Read,
}

impl TryFrom<Words<'_>> for RecordCall {
    type Error = Unknown;

    fn try_from(words: Words<'_>) -> Result<Self, Unknown> {
        match words {
            (18, &[ctx, clk, num_read, num_eval, id_next]) => {
                Ok(Self::Write(header_of(ctx, clk, num_read, num_eval, id_next)))
            }
            (19, []) => Ok(Self::WriteState),
            (20, []) => Ok(Self::Read),
            _ => Err(Unknown),
        }
    }
}

pub fn answer(
    rt: &impl Print,
    call: RecordCall,
    state: CircuitEvaluation,
    lent: Buffers<'_>,
) -> io::Result<()> {
    let Buffers {
        values,
        counts,
        nodes,
        bytes,
        ..
    } = lent;
    match call {
        RecordCall::Write(header) => {
            let written = record::write_into(header, values, counts, nodes, bytes);
            say::answer(rt, written.map(|len| [len as u64]))
        }
        RecordCall::WriteState => {
            let written = record::write_state_into(state, values, counts, nodes, bytes);
            say::answer(rt, written.map(|len| [len as u64]))
        }
        RecordCall::Read => {
            let read = record::read_from(bytes, values, counts, nodes);
            say::answer(rt, read.map(<[u64; 5]>::from))
        }
    }
}

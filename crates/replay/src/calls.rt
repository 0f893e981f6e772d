// An instruction, done.
use crate::buffers::{Buffers, Lent, first};
use crate::instructions::{Instruction, LentCall};
use crate::{circuits, elements, groups, lists, records, steps};
use runs::Ace;
use std::io;
use trace::CircuitEvaluation;

// What there is.
#[derive(Drop)]
pub struct Held<'a> {
    buffers: Buffers<'a>,
    lent: Lent,
    state: CircuitEvaluation,
    list: Ace,
}

impl<'a> Held<'a> {
    pub fn new(buffers: Buffers<'a>) -> Self {
        Held {
            buffers,
            lent: Lent::default(),
            state: steps::nothing(),
            list: lists::empty(),
        }
    }

    pub fn answer(&mut self, rt: &impl Print, instruction: Instruction<'_>) -> io::Result<()> {
        match instruction {
            Instruction::Cells(buffer, call) => self.buffers.answer(rt, buffer, call),
            Instruction::Lend(buffer, n) => {
                self.lent.lend(buffer, n);
                Ok(())
            }
            Instruction::List(call) => lists::answer(rt, call, &mut self.list),
            Instruction::Element(call) => elements::answer(rt, call),
            Instruction::OverLent(call) => {
                over_lent(rt, call, &mut self.buffers, self.lent, &mut self.state)
            }
        }
    }
}

fn over_lent(
    rt: &impl Print,
    call: LentCall,
    buffers: &mut Buffers<'_>,
    lent: Lent,
    state: &mut CircuitEvaluation,
) -> io::Result<()> {
    // No method of Buffers gives these back: tried, and parts of several `&mut` fields got no proof.
    let buffers = Buffers {
        memory: first(buffers.memory, lent.memory),
        values: first(buffers.values, lent.values),
        counts: first(buffers.counts, lent.counts),
        nodes: first(buffers.nodes, lent.nodes),
        rows: first(buffers.rows, lent.rows),
        bytes: first(buffers.bytes, lent.bytes),
    };
    match call {
        LentCall::Step(call) => steps::answer(rt, call, state, buffers),
        LentCall::Circuit(call) => circuits::answer(rt, call, *state, buffers),
        LentCall::Record(call) => records::answer(rt, call, *state, buffers),
        LentCall::Number(call) => groups::answer(rt, call, buffers.bytes),
    }
}

// The step state, and its calls, over the lent cells.
use crate::buffers::Buffers;
use crate::cells::Cell;
use crate::instructions::{Unknown, Words};
use crate::say;
use refusal::Refusal;
use std::io;
use trace::{CircuitEvaluation, RefusedStep};

#[derive(Clone, Copy)]
pub enum StepCall {
    Set(CircuitEvaluation),
    // ctx, clk, num_read and num_eval.
    Open(u32, u32, u32, u32),
    Read(u64, [[u64; 2]; 2]),
    Eval(u64, u64),
    Output,
}

impl TryFrom<Words<'_>> for StepCall {
    type Error = Unknown;

    fn try_from(words: Words<'_>) -> Result<Self, Unknown> {
        match words {
            (
                3,
                &[
                    ctx,
                    clk,
                    num_read,
                    num_eval,
                    reads_done,
                    evals_done,
                    id_next,
                ],
            ) => Ok(Self::Set(CircuitEvaluation {
                ctx: u32::limited(ctx),
                clk: u32::limited(clk),
                num_read: u32::limited(num_read),
                num_eval: u32::limited(num_eval),
                reads_done: u32::limited(reads_done),
                evals_done: u32::limited(evals_done),
                id_next,
            })),
            (11, &[ctx, clk, num_read, num_eval]) => Ok(Self::Open(
                u32::limited(ctx),
                u32::limited(clk),
                u32::limited(num_read),
                u32::limited(num_eval),
            )),
            (12, &[ptr, c0, c1, c2, c3]) => Ok(Self::Read(ptr, [[c0, c1], [c2, c3]])),
            (13, &[ptr, instruction]) => Ok(Self::Eval(ptr, instruction)),
            (14, []) => Ok(Self::Output),
            _ => Err(Unknown),
        }
    }
}

// By hand: trace's states have no Default, since no call opens this one.
pub fn nothing() -> CircuitEvaluation {
    CircuitEvaluation {
        ctx: 0,
        clk: 0,
        num_read: 0,
        num_eval: 0,
        reads_done: 0,
        evals_done: 0,
        id_next: 0,
    }
}

// A refused opening gives no state, and the one before stays.
fn opened(
    rt: &impl Print,
    outcome: Result<CircuitEvaluation, Refusal>,
    state: &mut CircuitEvaluation,
) -> io::Result<()> {
    *state = outcome.unwrap_or(*state);
    say::answer(rt, outcome.map(<[u64; 7]>::from))
}

// "After the answer, whatever it is, the state that came back."
fn stepped(
    rt: &impl Print,
    outcome: Result<CircuitEvaluation, RefusedStep>,
    state: &mut CircuitEvaluation,
) -> io::Result<()> {
    *state = outcome.unwrap_or_else(|refused| refused.state);
    say::answer(rt, outcome.map(|_| []).map_err(Refusal::from))?;
    say::numbers(rt, &<[u64; 7]>::from(*state))
}

pub fn answer(
    rt: &impl Print,
    call: StepCall,
    state: &mut CircuitEvaluation,
    lent: Buffers<'_>,
) -> io::Result<()> {
    let Buffers {
        values,
        counts,
        nodes,
        ..
    } = lent;
    match call {
        StepCall::Set(given) => {
            *state = given;
            Ok(())
        }
        StepCall::Open(ctx, clk, num_read, num_eval) => {
            let outcome = CircuitEvaluation::new(
                ctx, clk, num_read, num_eval, values, counts, nodes,
            );
            opened(rt, outcome, state)
        }
        StepCall::Read(ptr, word) => {
            let outcome = state.do_read(ptr, word, values, counts, nodes);
            stepped(rt, outcome, state)
        }
        StepCall::Eval(ptr, instruction) => {
            let outcome = state.do_eval(ptr, instruction, values, counts, nodes);
            stepped(rt, outcome, state)
        }
        StepCall::Output => {
            let output = state.output_value(values, counts, nodes);
            say::answer(rt, output.map(<[u64; 5]>::from))
        }
    }
}

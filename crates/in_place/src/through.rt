// From a state by value to the call in place and back, for callers that hold the state by value.
ghost use Rattle.std.specs.Prelude.{◌≡◌};
ghost use Rattle.trace.specs.Outcome.{Lent, lent, outcome, step_outcome};
ghost use Rattle.trace.specs.Read.{read_step};
ghost use Rattle.trace.specs.Eval.{eval_step};
ghost use Rattle.trace.specs.Output.{output_told, output_answer};
ghost use Rattle.trace.specs.Record.{tested_told};
ghost use Rattle.in_place.specs.InPlace.{open_step};

use crate::{eval_in_place, new_in_place, output_in_place, read_in_place};
use refusal::Refusal;
use trace::{CircuitEvaluation, RecordHeader, RefusedStep};

pub fn new(
    mut state: CircuitEvaluation,
    ctx: u32,
    clk: u32,
    num_read: u32,
    num_eval: u32,
    values: &[u64],
    counts: &[u32],
    nodes: &[u64],
) -> Result<CircuitEvaluation, RefusedStep>
    ensures { step_outcome result (lent values.now counts.now nodes.now) ≡ open_step state ctx clk num_read num_eval (lent values.now counts.now nodes.now) }
{
    let told = new_in_place(
        &mut state, ctx, clk, num_read, num_eval, values, counts, nodes,
    );
    stepped(state, told)
}

pub fn do_read(
    mut state: CircuitEvaluation,
    ptr: u64,
    word: [[u64; 2]; 2],
    values: &mut [u64],
    counts: &mut [u32],
    nodes: &mut [u64],
) -> Result<CircuitEvaluation, RefusedStep>
    ensures { step_outcome result (lent values.new counts.new nodes.new) ≡ read_step state ptr word (lent values.old counts.old nodes.old) }
{
    let told = read_in_place(&mut state, ptr, word, values, counts, nodes);
    stepped(state, told)
}

pub fn do_eval(
    mut state: CircuitEvaluation,
    ptr: u64,
    instruction: u64,
    values: &mut [u64],
    counts: &mut [u32],
    nodes: &mut [u64],
) -> Result<CircuitEvaluation, RefusedStep>
    ensures { step_outcome result (lent values.new counts.new nodes.new) ≡ eval_step state ptr instruction (lent values.old counts.old nodes.old) }
{
    let told = eval_in_place(&mut state, ptr, instruction, values, counts, nodes);
    stepped(state, told)
}

pub fn output_value(
    state: CircuitEvaluation,
    values: &[u64],
    counts: &[u32],
    nodes: &[u64],
) -> Result<RecordHeader, Refusal>
    ensures { output_told result ≡ output_answer state (lent values.now counts.now nodes.now) }
{
    output_in_place(&state, values, counts, nodes)
}

// What a call in place tells, with the state that it left.
fn stepped(
    state: CircuitEvaluation,
    told: Result<(), Refusal>,
) -> Result<CircuitEvaluation, RefusedStep>
    ensures { (b : Lent) → step_outcome result b ≡ outcome (tested_told told) state b }
{
    match told {
        Ok(()) => Ok(state),
        Err(refusal) => Err(RefusedStep { state, refusal }),
    }
}

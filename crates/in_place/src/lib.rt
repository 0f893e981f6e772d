// "A second step surface changes the same state in place, over the first": each call here hands the
// state to the call by value and stores the state that comes back.
#![tactic(auto)]

pub mod through;

ghost use Rattle.std.specs.Prelude.{◌≡◌};
ghost use Rattle.trace.specs.Outcome.{Lent, lent, outcome, step_outcome};
ghost use Rattle.trace.specs.Read.{read_step};
ghost use Rattle.trace.specs.Eval.{eval_step};
ghost use Rattle.trace.specs.Output.{output_told, output_answer};
ghost use Rattle.trace.specs.Record.{tested_told};
ghost use Rattle.in_place.specs.InPlace.{open_step};

use refusal::Refusal;
use trace::{CircuitEvaluation, RecordHeader, RefusedStep};

// A refused opening leaves the state as it was.
pub fn new_in_place(
    state: &mut CircuitEvaluation,
    ctx: u32,
    clk: u32,
    num_read: u32,
    num_eval: u32,
    values: &[u64],
    counts: &[u32],
    nodes: &[u64],
) -> Result<(), Refusal>
    ensures { outcome (tested_told result) state.new (lent values.now counts.now nodes.now) ≡ open_step state.old ctx clk num_read num_eval (lent values.now counts.now nodes.now) }
{
    let opened = CircuitEvaluation::new(ctx, clk, num_read, num_eval, values, counts, nodes)?;
    *state = opened;
    Ok(())
}

pub fn read_in_place(
    state: &mut CircuitEvaluation,
    ptr: u64,
    word: [[u64; 2]; 2],
    values: &mut [u64],
    counts: &mut [u32],
    nodes: &mut [u64],
) -> Result<(), Refusal>
    ensures { outcome (tested_told result) state.new (lent values.new counts.new nodes.new) ≡ read_step state.old ptr word (lent values.old counts.old nodes.old) }
{
    let step = state.do_read(ptr, word, values, counts, nodes);
    store(state, step)
}

pub fn eval_in_place(
    state: &mut CircuitEvaluation,
    ptr: u64,
    instruction: u64,
    values: &mut [u64],
    counts: &mut [u32],
    nodes: &mut [u64],
) -> Result<(), Refusal>
    ensures { outcome (tested_told result) state.new (lent values.new counts.new nodes.new) ≡ eval_step state.old ptr instruction (lent values.old counts.old nodes.old) }
{
    let step = state.do_eval(ptr, instruction, values, counts, nodes);
    store(state, step)
}

pub fn output_in_place(
    state: &CircuitEvaluation,
    values: &[u64],
    counts: &[u32],
    nodes: &[u64],
) -> Result<RecordHeader, Refusal>
    ensures { output_told result ≡ output_answer state.now (lent values.now counts.now nodes.now) }
{
    state.output_value(values, counts, nodes)
}

fn store(
    state: &mut CircuitEvaluation,
    step: Result<CircuitEvaluation, RefusedStep>,
) -> Result<(), Refusal>
    ensures { (b : Lent) → outcome (tested_told result) state.new b ≡ step_outcome step b }
{
    match step {
        Ok(after) => {
            *state = after;
            Ok(())
        }
        Err(refused) => {
            *state = refused.state;
            Err(refused.refusal)
        }
    }
}

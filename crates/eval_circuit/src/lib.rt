// Whole evaluation: a circuit in memory is checked to evaluate to zero.
#![tactic(auto)]

mod clear;
mod region;
mod steps;

ghost use Rattle.std.specs.Prelude.{◌≡◌};
ghost use Rattle.trace.specs.Outcome.{lent};
ghost use Rattle.trace.specs.Output.{output_told};
ghost use Rattle.eval_circuit.specs.Evaluated.{eval_answer, eval_buffers};

use crate::clear::clear;
use crate::region::test_region;
use crate::steps::run;
use field::cells::first_over;
use refusal::Refusal;
use trace::{CircuitEvaluation, RecordHeader};

// "Order 1 to 7, then gate by gate 8, 9, 10, then 12. 1 to 7 change nothing. 8, 9, 10 and 12 leave
// the used value cells, counts and node cells zero."
pub fn eval_circuit(
    ctx: u32,
    clk: u32,
    ptr: u64,
    num_vars: u64,
    num_eval: u64,
    memory: &[u64],
    values: &mut [u64],
    counts: &mut [u32],
    nodes: &mut [u64],
) -> Result<RecordHeader, Refusal>
    ensures result_value { output_told result ≡ eval_answer ctx clk ptr num_vars num_eval memory.now (lent values.old counts.old nodes.old) }
    ensures nodes_after { lent values.new counts.new nodes.new ≡ eval_buffers ctx clk ptr num_vars num_eval memory.now (lent values.old counts.old nodes.old) }
{
    test_region(ptr, num_vars, num_eval, memory.len())?;
    let num_read = (num_vars / 2) as u32;
    let state = CircuitEvaluation::new(ctx, clk, num_read, num_eval as u32, values, counts, nodes)?;
    let start = ptr as usize;
    let end = start + 2 * num_vars as usize + num_eval as usize;
    let over = first_over(memory, start, end);
    if over < end {
        return Err(Refusal::NotElement(over as u64));
    }
    let answer = run(state, memory, start, values, counts, nodes);
    if answer.is_err() {
        clear(state, values, counts, nodes);
    }
    answer
}

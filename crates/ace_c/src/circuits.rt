// Whole evaluation.
ghost use Rattle.std.specs.Prelude.{◌≡◌};
ghost use Rattle.refusal.specs.Codes.{code, values_or, place_told};
ghost use Rattle.trace.specs.Outcome.{lent};
ghost use Rattle.eval_circuit.specs.Evaluated.{eval_answer, eval_buffers};

use crate::tell::{hand_back, tell};
use eval_circuit::eval_circuit;

pub fn ace_eval_circuit(
    ctx: u32,
    clk: u32,
    ptr: u64,
    num_vars: u64,
    num_eval: u64,
    memory: &[u64],
    values: &mut [u64],
    counts: &mut [u32],
    nodes: &mut [u64],
    header: &mut [u64; 5],
    place: &mut u64,
) -> u32
    ensures value { result ≡ code (eval_answer ctx clk ptr num_vars num_eval memory.now (lent values.old counts.old nodes.old)) }
    ensures header_after { header.new ≡ values_or 5 header.old (eval_answer ctx clk ptr num_vars num_eval memory.now (lent values.old counts.old nodes.old)) }
    ensures place_after { place.new ≡ place_told (eval_answer ctx clk ptr num_vars num_eval memory.now (lent values.old counts.old nodes.old)) }
    ensures nodes_after { lent values.new counts.new nodes.new ≡ eval_buffers ctx clk ptr num_vars num_eval memory.now (lent values.old counts.old nodes.old) }
{
    let answer = eval_circuit(
        ctx, clk, ptr, num_vars, num_eval, memory, values, counts, nodes,
    );
    hand_back(answer, header);
    tell(answer, place)
}

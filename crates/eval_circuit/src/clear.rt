// "8, 9, 10 and 12 leave the used value cells, counts and node cells zero; used means all that the
// whole circuit needs."
ghost use Rattle.std.specs.Prelude.{◌≡◌, ◌*◌};
ghost use Rattle.trace.specs.Counts.{node_cells};
ghost use Rattle.trace.specs.State.{wires_of};
ghost use Rattle.trace.specs.Inside.{Room};
ghost use Rattle.eval_circuit.specs.Evaluated.{zeroed};

use trace::{CircuitEvaluation, EVAL_CELLS, READ_CELLS};

pub fn clear(state: CircuitEvaluation, values: &mut [u64], counts: &mut [u32], nodes: &mut [u64])
    requires { Room state values.old counts.old nodes.old }
    ensures values_after { values.new ≡ zeroed (2 * wires_of state) values.old }
    ensures counts_after { counts.new ≡ zeroed (wires_of state) counts.old }
    ensures nodes_after { nodes.new ≡ zeroed (node_cells state.num_read state.num_eval) nodes.old }
{
    let reads = state.num_read as usize;
    let evals = state.num_eval as usize;
    let wires = 2 * reads + evals;
    values[..2 * wires].fill(0);
    counts[..wires].fill(0);
    nodes[..READ_CELLS * reads + EVAL_CELLS * evals].fill(0);
}

// The steps of a circuit in memory, one after the other.
ghost use Rattle.std.specs.Prelude.{◌≡◌, [], ◌+◌, ◌≤◌, length};
ghost use Rattle.refusal.specs.Told.{accepted};
ghost use Rattle.trace.specs.Outcome.{lent, outcome, step_outcome};
ghost use Rattle.trace.specs.Output.{output_told};
ghost use Rattle.eval_circuit.specs.Circuit.{gates_answer};
ghost use Rattle.eval_circuit.specs.Evaluated.{circuit_answer};
ghost use Rattle.eval_circuit.specs.Inside.{circuit_of, word_at, after, stage, Prepared, step_told, Left, Ran};

use refusal::Refusal;
use trace::{CircuitEvaluation, RecordHeader, RefusedStep};

// "A memory word is two pairs, first cells first, held as an array of two pairs."
fn word_at(memory: &[u64], at: usize) -> [[u64; 2]; 2]
    requires { at + 4 ≤ length memory.now }
    ensures { result ≡ word_at memory.now at }
{
    [
        [memory[at], memory[at + 1]],
        [memory[at + 2], memory[at + 3]],
    ]
}

// Two functions for the steps of both kinds: a step given as a closure would need its own law for
// what it leaves, and two of them would be no shorter. `Prepared` is no invariant of a type, since it
// speaks of state, memory and lent buffers at once, and each step changes two of them.
fn do_reads(
    state: CircuitEvaluation,
    memory: &[u64],
    start: usize,
    values: &mut [u64],
    counts: &mut [u32],
    nodes: &mut [u64],
) -> Result<CircuitEvaluation, RefusedStep>
    requires { Prepared state memory.now start (lent values.old counts.old nodes.old) × (state ≡ after state 0 0) }
    ensures { step_outcome result (lent values.new counts.new nodes.new) ≡ outcome (accepted []) (after state state.num_read 0) (stage (circuit_of state memory.now start) start state.num_read 0 (lent values.old counts.old nodes.old)) }
{
    let mut read = state;
    for i in 0..state.num_read as usize {
        let at = start + 4 * i;
        let word = word_at(memory, at);
        let next = read.do_read(at as u64, word, values, counts, nodes)?;
        // A step leaves the rest of the state as it is, and not copying it is faster.
        read.reads_done = next.reads_done;
        read.id_next = next.id_next;
    }
    Ok(read)
}

fn do_evals(
    state: CircuitEvaluation,
    memory: &[u64],
    start: usize,
    values: &mut [u64],
    counts: &mut [u32],
    nodes: &mut [u64],
) -> Result<CircuitEvaluation, RefusedStep>
    requires { Prepared state memory.now start (lent values.old counts.old nodes.old) × (state ≡ after state state.num_read 0) × (lent values.old counts.old nodes.old ≡ stage (circuit_of state memory.now start) start state.num_read 0 (lent values.old counts.old nodes.old)) }
    ensures result_value { step_told result ≡ gates_answer state.num_eval 0 (circuit_of state memory.now start) (accepted []) }
    ensures left { Left result state (circuit_of state memory.now start) start (lent values.new counts.new nodes.new) (lent values.old counts.old nodes.old) }
{
    let gates = start + 4 * state.num_read as usize;
    let mut made = state;
    for i in 0..state.num_eval as usize {
        let at = gates + i;
        let next = made.do_eval(at as u64, memory[at], values, counts, nodes)?;
        made.evals_done = next.evals_done;
        made.id_next = next.id_next;
    }
    Ok(made)
}

// "All READ steps come before the EVAL steps."
fn do_steps(
    state: CircuitEvaluation,
    memory: &[u64],
    start: usize,
    values: &mut [u64],
    counts: &mut [u32],
    nodes: &mut [u64],
) -> Result<CircuitEvaluation, RefusedStep>
    requires { Prepared state memory.now start (lent values.old counts.old nodes.old) × (state ≡ after state 0 0) }
    ensures result_value { step_told result ≡ gates_answer state.num_eval 0 (circuit_of state memory.now start) (accepted []) }
    ensures left { Left result state (circuit_of state memory.now start) start (lent values.new counts.new nodes.new) (lent values.old counts.old nodes.old) }
{
    let read = do_reads(state, memory, start, values, counts, nodes)?;
    do_evals(read, memory, start, values, counts, nodes)
}

// All steps, and the result after them.
pub fn run(
    state: CircuitEvaluation,
    memory: &[u64],
    start: usize,
    values: &mut [u64],
    counts: &mut [u32],
    nodes: &mut [u64],
) -> Result<RecordHeader, Refusal>
    requires { Prepared state memory.now start (lent values.old counts.old nodes.old) × (state ≡ after state 0 0) }
    ensures result_value { output_told result ≡ circuit_answer state.ctx state.clk (circuit_of state memory.now start) }
    ensures ran { Ran result state (circuit_of state memory.now start) start (lent values.new counts.new nodes.new) (lent values.old counts.old nodes.old) }
{
    let done = do_steps(state, memory, start, values, counts, nodes)?;
    done.output_value(values, counts, nodes)
}

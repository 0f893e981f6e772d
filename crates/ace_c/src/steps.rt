// Opening, steps and the result.
ghost use Rattle.std.specs.Prelude.{◌≡◌};
ghost use Rattle.refusal.specs.Codes.{code, value_or, values_or, place_told};
ghost use Rattle.trace.specs.Outcome.{lent};
ghost use Rattle.trace.specs.Open.{open_answer};
ghost use Rattle.trace.specs.Read.{read_step};
ghost use Rattle.trace.specs.Eval.{eval_step};
ghost use Rattle.trace.specs.Output.{output_answer};
ghost use Rattle.ace_c.specs.States.{state_of, six_of, word_by};

use crate::convert::StateNumbers;
use crate::tell::{hand_back, tell};
use in_place::{eval_in_place, read_in_place};
use trace::CircuitEvaluation;

pub fn ace_new(
    ctx: u32,
    clk: u32,
    num_read: u32,
    num_eval: u32,
    values: &[u64],
    counts: &[u32],
    nodes: &[u64],
    state: &mut [u32; 6],
    id_next: &mut u64,
    place: &mut u64,
) -> u32
    ensures value { result ≡ code (open_answer ctx clk num_read num_eval (lent values.now counts.now nodes.now)) }
    ensures state_after { state.new ≡ values_or 6 state.old (open_answer ctx clk num_read num_eval (lent values.now counts.now nodes.now)) }
    ensures id_next_after { id_next.new ≡ value_or 6 id_next.old (open_answer ctx clk num_read num_eval (lent values.now counts.now nodes.now)) }
    ensures place_after { place.new ≡ place_told (open_answer ctx clk num_read num_eval (lent values.now counts.now nodes.now)) }
{
    let answer = CircuitEvaluation::new(ctx, clk, num_read, num_eval, values, counts, nodes);
    if let Ok(opened) = answer {
        StateNumbers(*state, *id_next) = opened.into();
    }
    tell(answer, place)
}

pub fn ace_do_read(
    state: &mut [u32; 6],
    id_next: &mut u64,
    ptr: u64,
    c0: u64,
    c1: u64,
    c2: u64,
    c3: u64,
    values: &mut [u64],
    counts: &mut [u32],
    nodes: &mut [u64],
    place: &mut u64,
) -> u32
    ensures value { result ≡ code (read_step (state_of state.old id_next.old) ptr (word_by c0 c1 c2 c3) (lent values.old counts.old nodes.old)).told }
    ensures state_after { state.new ≡ six_of (read_step (state_of state.old id_next.old) ptr (word_by c0 c1 c2 c3) (lent values.old counts.old nodes.old)).state }
    ensures id_next_after { id_next.new ≡ (read_step (state_of state.old id_next.old) ptr (word_by c0 c1 c2 c3) (lent values.old counts.old nodes.old)).state.id_next }
    ensures place_after { place.new ≡ place_told (read_step (state_of state.old id_next.old) ptr (word_by c0 c1 c2 c3) (lent values.old counts.old nodes.old)).told }
    ensures nodes_after { lent values.new counts.new nodes.new ≡ (read_step (state_of state.old id_next.old) ptr (word_by c0 c1 c2 c3) (lent values.old counts.old nodes.old)).buffers }
{
    let mut circuit = CircuitEvaluation::from(StateNumbers(*state, *id_next));
    let word = [[c0, c1], [c2, c3]];
    let told = read_in_place(&mut circuit, ptr, word, values, counts, nodes);
    StateNumbers(*state, *id_next) = circuit.into();
    tell(told, place)
}

pub fn ace_do_eval(
    state: &mut [u32; 6],
    id_next: &mut u64,
    ptr: u64,
    instruction: u64,
    values: &mut [u64],
    counts: &mut [u32],
    nodes: &mut [u64],
    place: &mut u64,
) -> u32
    ensures value { result ≡ code (eval_step (state_of state.old id_next.old) ptr instruction (lent values.old counts.old nodes.old)).told }
    ensures state_after { state.new ≡ six_of (eval_step (state_of state.old id_next.old) ptr instruction (lent values.old counts.old nodes.old)).state }
    ensures id_next_after { id_next.new ≡ (eval_step (state_of state.old id_next.old) ptr instruction (lent values.old counts.old nodes.old)).state.id_next }
    ensures place_after { place.new ≡ place_told (eval_step (state_of state.old id_next.old) ptr instruction (lent values.old counts.old nodes.old)).told }
    ensures nodes_after { lent values.new counts.new nodes.new ≡ (eval_step (state_of state.old id_next.old) ptr instruction (lent values.old counts.old nodes.old)).buffers }
{
    let mut circuit = CircuitEvaluation::from(StateNumbers(*state, *id_next));
    let told = eval_in_place(&mut circuit, ptr, instruction, values, counts, nodes);
    StateNumbers(*state, *id_next) = circuit.into();
    tell(told, place)
}

pub fn ace_output_value(
    state: &[u32; 6],
    id_next: u64,
    values: &[u64],
    counts: &[u32],
    nodes: &[u64],
    header: &mut [u64; 5],
    place: &mut u64,
) -> u32
    ensures value { result ≡ code (output_answer (state_of state.now id_next) (lent values.now counts.now nodes.now)) }
    ensures header_after { header.new ≡ values_or 5 header.old (output_answer (state_of state.now id_next) (lent values.now counts.now nodes.now)) }
    ensures place_after { place.new ≡ place_told (output_answer (state_of state.now id_next) (lent values.now counts.now nodes.now)) }
{
    let state = CircuitEvaluation::from(StateNumbers(*state, id_next));
    let output = state.output_value(values, counts, nodes);
    hand_back(output, header);
    tell(output, place)
}

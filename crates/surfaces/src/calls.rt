// The calls that are put to both surfaces.
use field::P;
use trace::CircuitEvaluation;

#[derive(Clone, Copy)]
pub enum Call {
    // num_read and num_eval.
    New(u32, u32),
    // The word.
    DoRead([[u64; 2]; 2]),
    // The pointer and the word.
    DoEval(u64, u64),
    OutputValue,
}

// By hand: trace's states have no Default, since no call opens this one.
pub const NO_STATE: CircuitEvaluation = CircuitEvaluation {
    ctx: 0,
    clk: 0,
    num_read: 0,
    num_eval: 0,
    reads_done: 0,
    evals_done: 0,
    id_next: 0,
};

// First the listing, whose gates "2305843013508661253, 1152921508901814277, 3221225475,
// 1152921506754330625" are at addresses 4 to 7; then a circuit without an EVAL step, an EVAL step out of
// turn, a cell p, a word with opcode 3, two words whose left and whose right operand is not yet made, and
// a result before the last step.
pub const CALLS: &[Call] = &[
    Call::New(1, 4),
    Call::DoRead([[3, 0], [4, 0]]),
    Call::DoEval(4, 2305843013508661253),
    Call::DoEval(5, 1152921508901814277),
    Call::DoEval(6, 3221225475),
    Call::DoEval(7, 1152921506754330625),
    Call::OutputValue,
    Call::New(1, 0),
    Call::New(1, 4),
    Call::DoEval(4, 2305843013508661253),
    Call::DoRead([[3, 0], [4, P]]),
    Call::DoRead([[3, 0], [4, 0]]),
    Call::DoEval(4, 3458764513820540928),
    Call::DoEval(4, 3),
    Call::DoEval(4, 3221225477),
    Call::OutputValue,
];

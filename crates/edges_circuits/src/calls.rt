// A call of whole evaluation over a memory of sixteen cells, which holds the listing's circuit twice,
// with the answer, and every cell of what was lent and of one or two more behind it.
use eval_circuit::eval_circuit;
use std::io;
use telling::answers::{Answer, Header};
use telling::buffers::Lengths;
use telling::gates::{ADD_5_4, MUL_1_2, MUL_5_4, SUB_3_3};
use telling::listing::{EXACT, UNTOUCHED};

#[derive(Clone, Copy)]
pub struct Call {
    pub ptr: u64,
    pub num_vars: u64,
    pub num_eval: u64,
    pub memory: usize,
    pub lent: Lengths,
}

// The listing's call, over exact room.
pub const LISTING: Call = Call {
    ptr: 0,
    num_vars: 2,
    num_eval: 4,
    memory: 16,
    lent: EXACT,
};

pub const MEMORY: [u64; 16] = [
    3, 0, 4, 0, ADD_5_4, MUL_5_4, SUB_3_3, MUL_1_2, 3, 0, 4, 0, ADD_5_4, MUL_5_4, SUB_3_3, MUL_1_2,
];

pub fn evaluate(rt: &impl Print, case: &str, call: Call, memory: &[u64; 16]) -> io::Result<()> {
    let mut buffers = UNTOUCHED;
    // Cut here: through a struct of three `&mut` slices the borrow checker doesn't cover the call.
    let output = eval_circuit(
        0,
        7,
        call.ptr,
        call.num_vars,
        call.num_eval,
        &memory[..call.memory.min(16)],
        &mut buffers.values[..call.lent.values.min(14)],
        &mut buffers.counts[..call.lent.counts.min(7)],
        &mut buffers.nodes[..call.lent.nodes.min(52)],
    );
    println!(rt;
        "eval_circuit: {case} = {}{buffers}",
        Answer(output.map(Header))
    )
}

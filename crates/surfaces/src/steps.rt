// The two surfaces: each call gives the state after it, beside a refusal too.
use in_place::through;
use refusal::Refusal;
use telling::buffers::Buffers;
use trace::{CircuitEvaluation, RecordHeader, RefusedStep};

// What the listing's six wires and five nodes need, and cells past them.
pub type Lent = Buffers<14, 8, 53>;

pub type Step = Result<CircuitEvaluation, RefusedStep>;

// No function that is passed the four calls: tried, and what a closure asks of a call got no proof.
pub trait Surface {
    const NAME: &'static str;

    // In the listing's context and at its clock.
    fn new(state: CircuitEvaluation, num_read: u32, num_eval: u32, lent: &Lent) -> Step;

    fn do_read(state: CircuitEvaluation, ptr: u64, word: [[u64; 2]; 2], lent: &mut Lent) -> Step;

    fn do_eval(state: CircuitEvaluation, ptr: u64, instruction: u64, lent: &mut Lent) -> Step;

    fn output_value(state: CircuitEvaluation, lent: &Lent) -> Result<RecordHeader, Refusal>;
}

pub struct ByValue;

impl Surface for ByValue {
    const NAME: &'static str = "by value";

    fn new(state: CircuitEvaluation, num_read: u32, num_eval: u32, lent: &Lent) -> Step {
        let opened = CircuitEvaluation::new(
            0,
            7,
            num_read,
            num_eval,
            &lent.values,
            &lent.counts,
            &lent.nodes,
        );
        opened.map_err(|refusal| RefusedStep { state, refusal })
    }

    fn do_read(state: CircuitEvaluation, ptr: u64, word: [[u64; 2]; 2], lent: &mut Lent) -> Step {
        state.do_read(
            ptr,
            word,
            &mut lent.values,
            &mut lent.counts,
            &mut lent.nodes,
        )
    }

    fn do_eval(state: CircuitEvaluation, ptr: u64, instruction: u64, lent: &mut Lent) -> Step {
        state.do_eval(
            ptr,
            instruction,
            &mut lent.values,
            &mut lent.counts,
            &mut lent.nodes,
        )
    }

    fn output_value(state: CircuitEvaluation, lent: &Lent) -> Result<RecordHeader, Refusal> {
        state.output_value(&lent.values, &lent.counts, &lent.nodes)
    }
}

pub struct InPlace;

impl Surface for InPlace {
    const NAME: &'static str = "in place";

    fn new(state: CircuitEvaluation, num_read: u32, num_eval: u32, lent: &Lent) -> Step {
        through::new(
            state,
            0,
            7,
            num_read,
            num_eval,
            &lent.values,
            &lent.counts,
            &lent.nodes,
        )
    }

    fn do_read(state: CircuitEvaluation, ptr: u64, word: [[u64; 2]; 2], lent: &mut Lent) -> Step {
        through::do_read(
            state,
            ptr,
            word,
            &mut lent.values,
            &mut lent.counts,
            &mut lent.nodes,
        )
    }

    fn do_eval(state: CircuitEvaluation, ptr: u64, instruction: u64, lent: &mut Lent) -> Step {
        through::do_eval(
            state,
            ptr,
            instruction,
            &mut lent.values,
            &mut lent.counts,
            &mut lent.nodes,
        )
    }

    fn output_value(state: CircuitEvaluation, lent: &Lent) -> Result<RecordHeader, Refusal> {
        through::output_value(state, &lent.values, &lent.counts, &lent.nodes)
    }
}

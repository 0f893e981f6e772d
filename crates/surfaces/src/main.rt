// Runs document 01's listing, and then calls that are refused, by the steps that hand the state on by
// value and by those that change it in place. Each call's answer and the state after it are told, then
// the buffers, and whether both surfaces came to the same.
#![tactic(auto)]

mod calls;
mod steps;

use crate::calls::{CALLS, Call, NO_STATE};
use crate::steps::{ByValue, InPlace, Lent, Step, Surface};
use refusal::Refusal;
use std::io;
use telling::answers::{Answer, State};
use telling::buffers::{CANARY, COUNT_CANARY};
use telling::lists::{Cells, Numbers};
use trace::CircuitEvaluation;

const UNTOUCHED: Lent = Lent {
    values: [CANARY; 14],
    counts: [COUNT_CANARY; 8],
    nodes: [CANARY; 53],
};

fn tell<S: Surface>(rt: &impl Print, call: &str, step: Step) -> io::Result<CircuitEvaluation> {
    let state = step.unwrap_or_else(|refused| refused.state);
    println!(rt;
        "{}: {call} = {},{}",
        S::NAME,
        Answer(step.map(|_| Numbers([])).map_err(Refusal::from)),
        State(state)
    )?;
    Ok(state)
}

fn output<S: Surface>(rt: &impl Print, state: CircuitEvaluation, lent: &Lent) -> io::Result<()> {
    let id_next = S::output_value(state, lent).map(|header| Numbers([header.id_next]));
    println!(rt;
        "{}: output_value = {},{}",
        S::NAME,
        Answer(id_next),
        State(state)
    )
}

fn run<S: Surface>(rt: &impl Print, lent: &mut Lent) -> io::Result<CircuitEvaluation> {
    let mut state = NO_STATE;
    for &call in CALLS {
        match call {
            Call::New(num_read, num_eval) => {
                state = tell::<S>(rt, "new", S::new(state, num_read, num_eval, lent))?;
            }
            Call::DoRead(word) => {
                state = tell::<S>(rt, "do_read", S::do_read(state, 0, word, lent))?;
            }
            Call::DoEval(ptr, instruction) => {
                state = tell::<S>(rt, "do_eval", S::do_eval(state, ptr, instruction, lent))?;
            }
            Call::OutputValue => output::<S>(rt, state, lent)?,
        }
    }
    println!(rt; "values{}", Cells(&lent.values))?;
    println!(rt; "counts{}", Cells(&lent.counts))?;
    println!(rt; "nodes{}", Cells(&lent.nodes))?;
    Ok(state)
}

fn compare(rt: &impl Print, what: &str, is_same: bool) -> io::Result<()> {
    println!(rt; "{what} {}", if is_same { "same" } else { "differ" })
}

fn main(rt: HostRuntime) -> io::Result<()> {
    let mut by_value = UNTOUCHED;
    let mut in_place = UNTOUCHED;
    let state = run::<ByValue>(&rt, &mut by_value)?;
    let state_in_place = run::<InPlace>(&rt, &mut in_place)?;
    compare(&rt, "state", state == state_in_place)?;
    compare(&rt, "values", by_value.values == in_place.values)?;
    compare(&rt, "counts", by_value.counts == in_place.counts)?;
    compare(&rt, "nodes", by_value.nodes == in_place.nodes)
}

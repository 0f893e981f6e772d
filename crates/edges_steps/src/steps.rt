// A step, and what it leaves.
use std::{fmt, io};
use telling::answers::{Answer, State};
use telling::buffers::{Buffers, Lengths};
use telling::lists::Numbers;
use trace::{CircuitEvaluation, RefusedStep};

// The state after a call.
#[derive(Clone, Copy)]
pub struct After(pub CircuitEvaluation);

impl fmt::Display for After {
    fn fmt<W: fmt::Write>(&self, f: &mut fmt::Formatter<W>) -> fmt::Result {
        write!(f, " state{}", State(self.0))
    }
}

pub fn take<
    F: FnOnce(&mut [u64], &mut [u32], &mut [u64]) -> Result<CircuitEvaluation, RefusedStep>,
>(
    rt: &impl Print,
    call: &str,
    case: &str,
    lent: Lengths,
    mut buffers: Buffers<14, 7, 52>,
    step: F,
) -> io::Result<()>
    requires { F.IsAlwaysCallable step }
{
    // Cut here: through a struct of three `&mut` slices the borrow checker doesn't cover the call.
    let stepped = step(
        &mut buffers.values[..lent.values.min(14)],
        &mut buffers.counts[..lent.counts.min(7)],
        &mut buffers.nodes[..lent.nodes.min(52)],
    );
    let answer = Answer(
        stepped
            .map(|_| Numbers([]))
            .map_err(|refused| refused.refusal),
    );
    let after = After(stepped.unwrap_or_else(|refused| refused.state));
    println!(rt; "{call}: {case} = {answer}{after}{buffers}")
}

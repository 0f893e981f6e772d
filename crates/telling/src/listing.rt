// The listing's circuit, of one READ step and four EVAL steps.
use crate::buffers::{Buffers, CANARY, COUNT_CANARY, Lengths};
use trace::CircuitEvaluation;

// Before the first step.
pub const OPENED: CircuitEvaluation = CircuitEvaluation {
    ctx: 0,
    clk: 7,
    num_read: 1,
    num_eval: 4,
    reads_done: 0,
    evals_done: 0,
    id_next: 5,
};

// What the circuit needs.
pub const EXACT: Lengths = Lengths {
    values: 12,
    counts: 6,
    nodes: 51,
};

// Cells of which no call has written one, one or two more than the circuit needs.
pub const UNTOUCHED: Buffers<14, 7, 52> = Buffers {
    values: [CANARY; 14],
    counts: [COUNT_CANARY; 7],
    nodes: [CANARY; 52],
};

pub const WHOLE: Lengths = Lengths {
    values: 14,
    counts: 7,
    nodes: 52,
};

pub const ONE_SHORT: &[(&str, Lengths)] = &[
    (
        "values one short",
        Lengths {
            values: 11,
            ..EXACT
        },
    ),
    ("counts one short", Lengths { counts: 5, ..EXACT }),
    ("nodes one short", Lengths { nodes: 50, ..EXACT }),
];

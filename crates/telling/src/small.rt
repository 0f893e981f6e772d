// A small record: a READ node with ids 2 and 1, an EVAL node that subtracts them, and counts that no
// evaluation gives, 5, 6 and 7, so that each is seen in its place.
use crate::buffers::{Buffers, Lengths};
use field::P;
use trace::{CircuitEvaluation, RecordHeader};

pub const HEADER: RecordHeader = RecordHeader {
    ctx: 0,
    clk: 7,
    num_read: 1,
    num_eval: 1,
    id_next: P - 1,
};

// After its last step.
pub const FINISHED: CircuitEvaluation = CircuitEvaluation {
    ctx: 0,
    clk: 7,
    num_read: 1,
    num_eval: 1,
    reads_done: 1,
    evals_done: 1,
    id_next: P - 1,
};

// What the record needs, and one cell more.
pub const BUFFERS: Buffers<7, 4, 19> = Buffers {
    values: [3, 0, 3, 0, 0, 0, 9],
    counts: [5, 6, 7, 9],
    nodes: [0, 2, 3, 0, 1, 3, 0, 4, P - 1, 0, 0, 0, 2, 3, 0, 1, 3, 0, 9],
};

pub const EXACT: Lengths = Lengths {
    values: 6,
    counts: 3,
    nodes: 18,
};

const NODES_SHORT: Lengths = Lengths { nodes: 17, ..EXACT };

pub const WHOLE: Lengths = Lengths {
    values: 7,
    counts: 4,
    nodes: 19,
};

const NO_ELEMENT: RecordHeader = RecordHeader {
    id_next: P,
    ..HEADER
};

const ONE_LACKS: CircuitEvaluation = CircuitEvaluation {
    evals_done: 0,
    id_next: 0,
    ..FINISHED
};

// Buffers with p in the first value cell, the last used one, and the first of the last wire.
pub const FIRST_VALUE_OVER: Buffers<7, 4, 19> = Buffers {
    values: [P, 0, 3, 0, 0, 0, 9],
    ..BUFFERS
};

const LAST_VALUE_OVER: Buffers<7, 4, 19> = Buffers {
    values: [3, 0, 3, 0, 0, P, 9],
    ..BUFFERS
};

pub const LAST_WIRE_OVER: Buffers<7, 4, 19> = Buffers {
    values: [3, 0, 3, 0, P, 0, 9],
    ..BUFFERS
};

pub const ONE_SHORT: &[(&str, Lengths)] = &[
    ("values one short", Lengths { values: 5, ..EXACT }),
    ("counts one short", Lengths { counts: 2, ..EXACT }),
    ("nodes one short", NODES_SHORT),
];

pub const BAD_COUNTS: &[(&str, RecordHeader)] = &[
    (
        "no EVAL node",
        RecordHeader {
            num_eval: 0,
            ..HEADER
        },
    ),
    (
        "21 ahead of 19",
        RecordHeader {
            num_read: u32::MAX,
            num_eval: 0,
            ..HEADER
        },
    ),
    (
        "1073741824 wires",
        RecordHeader {
            num_read: 536870911,
            num_eval: 2,
            ..HEADER
        },
    ),
    (
        "1073741823 wires pass 19, short buffers",
        RecordHeader {
            num_read: 536870911,
            ..HEADER
        },
    ),
];

// Headers, and states below, each with what is lent.
pub const TESTED: &[(&str, RecordHeader, Lengths, Buffers<7, 4, 19>)] = &[
    ("6 ahead of 17", NO_ELEMENT, NODES_SHORT, BUFFERS),
    ("id_next p", NO_ELEMENT, EXACT, BUFFERS),
    ("a used value cell is p", HEADER, WHOLE, LAST_VALUE_OVER),
    (
        "p past the used value cells passes",
        HEADER,
        WHOLE,
        Buffers {
            values: [3, 0, 3, 0, 0, 0, P],
            ..BUFFERS
        },
    ),
];

pub const NODES_TESTED: &[(&str, RecordHeader, Lengths, Buffers<7, 4, 19>)] = &[
    (
        "a used node cell is p",
        HEADER,
        WHOLE,
        Buffers {
            nodes: [0, 2, 3, 0, 1, 3, 0, 4, P - 1, 0, 0, 0, 2, 3, 0, 1, 3, P, 9],
            ..BUFFERS
        },
    ),
    (
        "p past the used node cells passes",
        HEADER,
        WHOLE,
        Buffers {
            nodes: [0, 2, 3, 0, 1, 3, 0, 4, P - 1, 0, 0, 0, 2, 3, 0, 1, 3, 0, P],
            ..BUFFERS
        },
    ),
];

pub const STATES: &[(&str, CircuitEvaluation, Lengths, Buffers<7, 4, 19>)] = &[
    ("all steps are done", FINISHED, EXACT, BUFFERS),
    (
        "12 is not asked",
        FINISHED,
        EXACT,
        Buffers {
            values: [3, 0, 3, 0, 5, 0, 9],
            ..BUFFERS
        },
    ),
    ("the EVAL step lacks", ONE_LACKS, EXACT, BUFFERS),
    (
        "id_next 0 after all steps",
        CircuitEvaluation {
            id_next: 0,
            ..FINISHED
        },
        EXACT,
        BUFFERS,
    ),
    (
        "13 ahead of 11",
        CircuitEvaluation {
            id_next: 1,
            ..ONE_LACKS
        },
        EXACT,
        BUFFERS,
    ),
    ("11 ahead of 6", ONE_LACKS, NODES_SHORT, BUFFERS),
    ("nodes one short", FINISHED, NODES_SHORT, BUFFERS),
    ("6 ahead of 17", FINISHED, NODES_SHORT, LAST_WIRE_OVER),
    ("a used value cell is p", FINISHED, EXACT, LAST_WIRE_OVER),
];

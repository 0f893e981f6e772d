// EVAL steps: after 13, 6 and 7 "8, then the left operand: 9, 7 (a stored value p or more; returns its
// value cell), 13 (count at 4294967295), then the right with 10 likewise".
use crate::steps::take;
use field::P;
use std::io;
use telling::buffers::{Buffers, CANARY, Lengths};
use telling::gates::{ADD_3_3, ADD_5_3, ADD_5_4, ADD_5_5, MUL_5_4, OPCODE_3};
use telling::listing::{EXACT, ONE_SHORT, OPENED, UNTOUCHED};
use trace::CircuitEvaluation;

// After the listing's READ step.
const READ: CircuitEvaluation = CircuitEvaluation {
    reads_done: 1,
    id_next: 3,
    ..OPENED
};

// The wires that it leaves: 3 and 4, with ids 5 and 4, at positions 0 and 1.
const STORED: [u64; 5] = [3, 0, 4, 0, CANARY];

const OPERATIONS: &[(&str, u64, u64)] = &[
    ("Add of 5 and 4", 4, ADD_5_4),
    ("Mul of 5 and 4", 4, MUL_5_4),
    ("Sub of 5 and 4", 4, 4294967301),
    ("Sub of 4 and 5", 4, 5368709124),
    ("Add of 5 and 5 counts the wire twice", 4, ADD_5_5),
    ("the pointer p - 1", P - 1, ADD_5_4),
];

// Steps done and the next id, of the listing's circuit.
const TURNS: &[(&str, u32, u32, u64)] = &[
    ("a READ step lacks", 0, 0, 5),
    ("all EVAL steps are done", 1, 4, P - 1),
    ("an EVAL step done before the READ step", 0, 1, 4),
    ("id_next one too large", 1, 0, 4),
];

// The counts and the next id, of circuits whose READ step is done.
const COUNTS: &[(&str, u32, u32, u64)] = &[
    ("a state with num_eval 0", 1, 0, P - 1),
    ("a state of 32769 wires", 1, 32767, 32766),
];

const WORDS: &[(&str, u64, u64)] = &[
    ("the word is p", 4, P),
    ("the pointer is p", P, ADD_5_4),
    ("word and pointer, the first counts", P, P),
    ("7 ahead of 8", P, OPCODE_3),
    ("opcode 3", 4, OPCODE_3),
    ("the word p - 1", 4, P - 1),
    ("8 ahead of 9", 4, OPCODE_3 + 3),
    (
        "the left operand is the gate itself",
        4,
        2305843013508661251,
    ),
    ("the left operand is a later gate", 4, 2305843013508661248),
    ("the left id is num_wires", 4, 2305843013508661254),
    ("the left id is the largest", 4, 1152921504606846975),
    ("9 ahead of 10", 4, ADD_3_3),
    ("the right operand is the gate itself", 4, ADD_5_3),
    ("the right operand is a later gate", 4, 2305843009213693957),
    ("the right id is num_wires", 4, 2305843015656144901),
];

// The word of the last gate.
const GATE_NUMBERS: &[(&str, u64)] = &[
    ("8 tells the gate", OPCODE_3),
    ("9 tells the gate", 4294967296),
    ("10 tells the gate", 5),
];

// The word, the first value cells and the counts of both wires.
const OPERANDS: &[(&str, u64, [u64; 5], [u32; 2])] = &[
    (
        "the left value's first cell is p",
        ADD_5_4,
        [P, 0, 4, 0, CANARY],
        [0, 0],
    ),
    (
        "the left value's second cell is p",
        ADD_5_4,
        [3, P, 4, 0, CANARY],
        [0, 0],
    ),
    (
        "the right value's first cell is p",
        ADD_5_4,
        [3, 0, P, 0, CANARY],
        [0, 0],
    ),
    (
        "the right value's second cell is p",
        ADD_5_4,
        [3, 0, 4, P, CANARY],
        [0, 0],
    ),
    (
        "stored p - 1 passes",
        ADD_5_4,
        [P - 1, 0, 4, 0, CANARY],
        [0, 0],
    ),
    (
        "10 ahead of the right value's 7",
        ADD_5_3,
        [3, 0, 4, 0, P],
        [0, 0],
    ),
    (
        "the left value's 7 ahead of 10",
        ADD_5_3,
        [3, P, 4, 0, CANARY],
        [0, 0],
    ),
    (
        "the left count at 4294967294",
        ADD_5_4,
        STORED,
        [4294967294, 0],
    ),
    (
        "the left count at 4294967295",
        ADD_5_4,
        STORED,
        [4294967295, 0],
    ),
    (
        "the left count's 13 ahead of 10",
        ADD_5_3,
        STORED,
        [4294967295, 0],
    ),
    (
        "the right count at 4294967294",
        ADD_5_4,
        STORED,
        [0, 4294967294],
    ),
    (
        "the right count at 4294967295",
        ADD_5_4,
        STORED,
        [0, 4294967295],
    ),
    (
        "one wire twice, its count at 4294967293",
        ADD_5_5,
        STORED,
        [4294967293, 0],
    ),
    (
        "one wire twice, its count at 4294967294",
        ADD_5_5,
        STORED,
        [4294967294, 0],
    ),
    (
        "the left value's 7 ahead of its count's 13",
        ADD_5_4,
        [P, 0, 4, 0, CANARY],
        [4294967295, 0],
    ),
];

// Buffers that begin with these value cells and counts.
fn holding(values: &[u64; 5], counts: &[u32; 2]) -> Buffers<14, 7, 52> {
    let mut buffers = UNTOUCHED;
    buffers.values[..5].copy_from_slice(values);
    buffers.counts[..2].copy_from_slice(counts);
    buffers
}

fn eval(
    rt: &impl Print,
    case: &str,
    state: CircuitEvaluation,
    ptr: u64,
    word: u64,
    lent: Lengths,
    buffers: Buffers<14, 7, 52>,
) -> io::Result<()> {
    take(
        rt,
        "do_eval",
        case,
        lent,
        buffers,
        |values, counts, nodes| { state.do_eval(ptr, word, values, counts, nodes) },
    )
}

fn after_read(
    rt: &impl Print,
    case: &str,
    state: CircuitEvaluation,
    ptr: u64,
    word: u64,
    lent: Lengths,
) -> io::Result<()> {
    eval(rt, case, state, ptr, word, lent, holding(&STORED, &[0, 0]))
}

pub fn operations(rt: &impl Print) -> io::Result<()> {
    for &(case, ptr, word) in OPERATIONS {
        after_read(rt, case, READ, ptr, word, EXACT)?;
    }
    Ok(())
}

pub fn turns(rt: &impl Print) -> io::Result<()> {
    for &(case, reads_done, evals_done, id_next) in TURNS {
        let state = CircuitEvaluation {
            reads_done,
            evals_done,
            id_next,
            ..OPENED
        };
        after_read(rt, case, state, 4, ADD_5_4, EXACT)?;
    }
    for &(case, num_read, num_eval, id_next) in COUNTS {
        let state = CircuitEvaluation {
            num_read,
            num_eval,
            id_next,
            ..READ
        };
        after_read(rt, case, state, 4, ADD_5_4, EXACT)?;
    }
    for &(case, lent) in ONE_SHORT {
        after_read(rt, case, READ, 4, ADD_5_4, lent)?;
    }
    after_read(rt, "13 ahead of 6", OPENED, 4, ADD_5_4, Lengths::NOTHING)?;
    let short = Lengths { nodes: 50, ..EXACT };
    after_read(rt, "6 ahead of 7", READ, 4, P, short)
}

pub fn words(rt: &impl Print) -> io::Result<()> {
    for &(case, ptr, word) in WORDS {
        after_read(rt, case, READ, ptr, word, EXACT)?;
    }
    Ok(())
}

pub fn gate_numbers(rt: &impl Print) -> io::Result<()> {
    let at_last = CircuitEvaluation {
        evals_done: 3,
        id_next: 0,
        ..READ
    };
    for &(case, word) in GATE_NUMBERS {
        after_read(rt, case, at_last, 7, word, EXACT)?;
    }
    Ok(())
}

pub fn operands(rt: &impl Print) -> io::Result<()> {
    for (case, word, values, counts) in OPERANDS {
        eval(rt, case, READ, 4, *word, EXACT, holding(values, counts))?;
    }
    Ok(())
}

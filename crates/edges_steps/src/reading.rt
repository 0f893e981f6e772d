// READ steps: "A step refuses in the order 13, 6, 7".
use crate::steps::take;
use field::P;
use std::io;
use telling::buffers::Lengths;
use telling::listing::{EXACT, ONE_SHORT, OPENED, UNTOUCHED};
use trace::CircuitEvaluation;

// The listing's.
const WORD: [[u64; 2]; 2] = [[3, 0], [4, 0]];

// The pointer and the word.
const HANDED: &[(&str, u64, [[u64; 2]; 2])] = &[
    ("the listing's word", 0, WORD),
    ("p - 1 in each", P - 1, [[P - 1, P - 1], [P - 1, P - 1]]),
    ("cell 0 is p", 0, [[P, 0], [4, 0]]),
    ("cell 1 is p", 0, [[3, P], [4, 0]]),
    ("cell 2 is p", 0, [[3, 0], [P, 0]]),
    ("cell 3 is p", 0, [[3, 0], [4, P]]),
    ("the pointer is p", P, WORD),
    (
        "cell 2 and the pointer, the first counts",
        P,
        [[3, 0], [P, 0]],
    ),
    ("a pointer need not be a multiple of 4", 3, WORD),
];

// Steps done and the next id, of the listing's circuit.
const TURNS: &[(&str, u32, u32, u64)] = &[
    ("all READ steps are done", 1, 0, 3),
    ("all steps are done", 1, 4, P - 1),
    ("an EVAL step done before the READ step", 0, 1, 4),
    ("more READ steps than num_read", 2, 0, 1),
    ("more EVAL steps than num_eval", 1, 5, P - 2),
    ("id_next one too small", 0, 0, 4),
    ("id_next p - 1 at the start", 0, 0, P - 1),
];

// The counts and the next id, of circuits of which no step is done.
const COUNTS: &[(&str, u32, u32, u64)] = &[
    ("a state with num_read 0", 0, 4, 3),
    ("a state with num_eval 0", 1, 0, 1),
    ("a state of 32769 wires", 1, 32767, 32768),
    ("a state of 32768 wires passes 13", 1, 32766, 32767),
];

fn read(
    rt: &impl Print,
    case: &str,
    state: CircuitEvaluation,
    ptr: u64,
    word: [[u64; 2]; 2],
    lent: Lengths,
) -> io::Result<()> {
    take(
        rt,
        "do_read",
        case,
        lent,
        UNTOUCHED,
        |values, counts, nodes| { state.do_read(ptr, word, values, counts, nodes) },
    )
}

pub fn handed(rt: &impl Print) -> io::Result<()> {
    for &(case, ptr, word) in HANDED {
        read(rt, case, OPENED, ptr, word, EXACT)?;
    }
    Ok(())
}

pub fn turns(rt: &impl Print) -> io::Result<()> {
    for &(case, reads_done, evals_done, id_next) in TURNS {
        let state = CircuitEvaluation {
            reads_done,
            evals_done,
            id_next,
            ..OPENED
        };
        read(rt, case, state, 0, WORD, EXACT)?;
    }
    for &(case, num_read, num_eval, id_next) in COUNTS {
        let state = CircuitEvaluation {
            num_read,
            num_eval,
            id_next,
            ..OPENED
        };
        read(rt, case, state, 0, WORD, EXACT)?;
    }
    Ok(())
}

pub fn room(rt: &impl Print) -> io::Result<()> {
    for &(case, lent) in ONE_SHORT {
        read(rt, case, OPENED, 0, WORD, lent)?;
    }
    let all_read = CircuitEvaluation {
        reads_done: 1,
        id_next: 3,
        ..OPENED
    };
    read(rt, "13 ahead of 6", all_read, 0, WORD, Lengths::NOTHING)?;
    let short = Lengths {
        values: 11,
        ..EXACT
    };
    read(rt, "6 ahead of 7", OPENED, 0, [[P, 0], [4, 0]], short)
}

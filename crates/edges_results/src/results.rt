// The result, "13, 6, 11, 12, changing nothing", and the header of a finished state.
use field::P;
use std::io;
use telling::answers::{Answer, Header};
use telling::buffers::{Buffers, Lengths, Lent};
use telling::listing::{EXACT, ONE_SHORT, OPENED, UNTOUCHED};
use trace::CircuitEvaluation;

const FINISHED: CircuitEvaluation = CircuitEvaluation {
    reads_done: 1,
    evals_done: 4,
    id_next: P - 1,
    ..OPENED
};

const ONE_LACKS: CircuitEvaluation = CircuitEvaluation {
    evals_done: 3,
    id_next: 0,
    ..FINISHED
};

// The first cell of the second READ wire, and the cells of the last wire.
const VALUES: &[(&str, u64, [u64; 2])] = &[
    ("the last wire is (0, 0)", 4, [0, 0]),
    ("the last wire is (1, 0)", 4, [1, 0]),
    ("the last wire is (0, 1)", 4, [0, 1]),
    ("a stored (p, 0) is not (0, 0)", 4, [P, 0]),
    ("the last READ wire is zero, the last wire not", 0, [1, 0]),
];

const STATES: &[(&str, CircuitEvaluation)] = &[
    ("one EVAL step lacks", ONE_LACKS),
    ("no step is done", OPENED),
    (
        "id_next 0 after all steps",
        CircuitEvaluation {
            id_next: 0,
            ..FINISHED
        },
    ),
    (
        "a state with num_read 0",
        CircuitEvaluation {
            num_read: 0,
            reads_done: 0,
            ..FINISHED
        },
    ),
];

// The EVAL steps, those done, and the next id.
const FINISHES: &[(&str, u32, u32, u64)] = &[
    ("all steps are done", 4, 4, P - 1),
    ("one EVAL step lacks", 4, 3, 0),
    ("only the READ step is done", 4, 0, 3),
    ("13 ahead of 11", 4, 3, 1),
    ("more EVAL steps than num_eval", 4, 5, P - 2),
    ("a state of 32769 wires", 32767, 32767, P - 1),
];

fn output(
    rt: &impl Print,
    case: &str,
    state: CircuitEvaluation,
    lengths: Lengths,
    read_1: u64,
    last: [u64; 2],
) -> io::Result<()> {
    let buffers = Buffers {
        values: [3, 0, read_1, 0, 7, 0, 12, 0, 0, 0, last[0], last[1], 9, 9],
        ..UNTOUCHED
    };
    let lent = Lent::from((&buffers, lengths));
    let output = state.output_value(lent.values, lent.counts, lent.nodes);
    println!(rt; "output_value: {case} = {}", Answer(output.map(Header)))
}

pub fn outputs(rt: &impl Print) -> io::Result<()> {
    for &(case, read_1, last) in VALUES {
        output(rt, case, FINISHED, EXACT, read_1, last)?;
    }
    for &(case, state) in STATES {
        output(rt, case, state, EXACT, 4, [0, 0])?;
    }
    for &(case, lent) in ONE_SHORT {
        output(rt, case, FINISHED, lent, 4, [0, 0])?;
    }
    let unsound = CircuitEvaluation {
        id_next: 0,
        ..FINISHED
    };
    output(rt, "13 ahead of 6", unsound, Lengths::NOTHING, 4, [0, 0])?;
    let short = Lengths { nodes: 50, ..EXACT };
    output(rt, "6 ahead of 11", ONE_LACKS, short, 4, [0, 0])?;
    output(rt, "11 ahead of 12", ONE_LACKS, EXACT, 4, [1, 0])
}

pub fn finished(rt: &impl Print) -> io::Result<()> {
    for &(case, num_eval, evals_done, id_next) in FINISHES {
        let state = CircuitEvaluation {
            num_eval,
            evals_done,
            id_next,
            ..FINISHED
        };
        println!(rt;
            "finalized: {case} = {}",
            Answer(state.finalized().map(Header))
        )?;
    }
    Ok(())
}

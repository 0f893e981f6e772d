// Fill: "21, 19, 6, 17 (a used value or node cell, or id_next, p or more), then fill 14". Every cell
// of the row buffer is told, and of what lies behind the lent part.
use field::P;
use refusal::Refusal;
use rows::{fill, fill_state};
use std::io;
use telling::answers::Answer;
use telling::buffers::{Buffers, CANARY, Lengths, Lent};
use telling::lists::{Cells, Numbers};
use telling::small::{
    BAD_COUNTS, BUFFERS, EXACT, FINISHED, FIRST_VALUE_OVER, HEADER, LAST_WIRE_OVER, NODES_TESTED,
    ONE_SHORT, STATES, TESTED, WHOLE,
};
use trace::{CircuitEvaluation, RecordHeader};

// The row that is filled first, and how many cells are lent.
const PLACES: &[(&str, usize, usize)] = &[
    ("the small record, room exact", 0, 32),
    ("room one cell short", 0, 31),
    ("from row 1 on, room exact", 1, 48),
    ("from row 1 on, room one cell short", 1, 47),
    ("from row 2 on", 2, 49),
    ("from row 2^60 on, 16 times which is 2^64", 1 << 60, 49),
    ("from the largest row on", usize::MAX, 49),
];

// Node cells of which one differs from the small record's.
const NODES: &[(&str, [u64; 19])] = &[
    (
        "counts go by position, whatever ids the nodes hold",
        [0, 40, 3, 0, 1, 3, 0, 4, P - 1, 0, 0, 0, 2, 3, 0, 1, 3, 0, 9],
    ),
    (
        "any eval_op passes",
        [0, 2, 3, 0, 1, 3, 0, 4, 77, 0, 0, 0, 2, 3, 0, 1, 3, 0, 9],
    ),
];

// Into the first `room` of these cells.
fn tell<const N: usize, F: FnOnce(&mut [u64]) -> Result<(), Refusal>>(
    rt: &impl Print,
    call: &str,
    case: &str,
    mut rows: [u64; N],
    room: usize,
    fill: F,
) -> io::Result<()>
    requires { F.IsAlwaysCallable fill }
{
    let filled = fill(&mut rows[..room.min(N)]);
    let answer = Answer(filled.map(|()| Numbers([])));
    println!(rt; "{call}: {case} = {answer} rows{}", Cells(&rows))
}

// Over three rows and one cell.
fn fill_over(
    rt: &impl Print,
    case: &str,
    header: RecordHeader,
    lengths: Lengths,
    buffers: Buffers<7, 4, 19>,
    offset: usize,
    room: usize,
) -> io::Result<()> {
    let lent = Lent::from((&buffers, lengths));
    tell(rt, "fill", case, [CANARY; 49], room, |rows| {
        fill(header, lent.values, lent.counts, lent.nodes, offset, rows)
    })
}

pub fn rows_filled(rt: &impl Print) -> io::Result<()> {
    for &(case, offset, room) in PLACES {
        fill_over(rt, case, HEADER, EXACT, BUFFERS, offset, room)?;
    }
    for &(case, nodes) in NODES {
        let buffers = Buffers { nodes, ..BUFFERS };
        fill_over(rt, case, HEADER, WHOLE, buffers, 0, 32)?;
    }
    Ok(())
}

// Their cells are all 0.
pub fn two_of_each(rt: &impl Print) -> io::Result<()> {
    let header = RecordHeader {
        num_read: 2,
        num_eval: 2,
        id_next: 0,
        ..HEADER
    };
    tell(
        rt,
        "fill",
        "two READ and two EVAL nodes, num_eval - 1, one s_start",
        [CANARY; 65],
        65,
        |rows| { fill(header, &[0; 12], &[1, 2, 3, 4, 5, 6], &[0; 36], 0, rows) },
    )
}

pub fn records_refused(rt: &impl Print) -> io::Result<()> {
    for &(case, header) in BAD_COUNTS {
        fill_over(rt, case, header, EXACT, BUFFERS, 0, 32)?;
    }
    let no_read = RecordHeader {
        num_read: 0,
        id_next: 33,
        ..HEADER
    };
    fill_over(
        rt,
        "no READ node passes, the nodes' first cells are the EVAL node",
        no_read,
        EXACT,
        BUFFERS,
        0,
        32,
    )?;
    for &(case, lent) in ONE_SHORT {
        fill_over(rt, case, HEADER, lent, BUFFERS, 0, 32)?;
    }
    Ok(())
}

pub fn cells(rt: &impl Print) -> io::Result<()> {
    for &(case, header, lent, buffers) in TESTED {
        fill_over(rt, case, header, lent, buffers, 0, 32)?;
    }
    fill_over(rt, "17 ahead of 14", HEADER, WHOLE, FIRST_VALUE_OVER, 0, 31)?;
    for &(case, header, lent, buffers) in NODES_TESTED {
        fill_over(rt, case, header, lent, buffers, 0, 32)?;
    }
    Ok(())
}

fn fill_state_over(
    rt: &impl Print,
    case: &str,
    state: CircuitEvaluation,
    lengths: Lengths,
    buffers: Buffers<7, 4, 19>,
    room: usize,
) -> io::Result<()> {
    let lent = Lent::from((&buffers, lengths));
    tell(rt, "fill_state", case, [CANARY; 33], room, |rows| {
        fill_state(state, lent.values, lent.counts, lent.nodes, 0, rows)
    })
}

pub fn from_states(rt: &impl Print) -> io::Result<()> {
    for &(case, state, lent, buffers) in STATES {
        fill_state_over(rt, case, state, lent, buffers, 32)?;
    }
    fill_state_over(rt, "17 ahead of 14", FINISHED, EXACT, LAST_WIRE_OVER, 31)?;
    fill_state_over(rt, "room one cell short", FINISHED, EXACT, BUFFERS, 31)
}

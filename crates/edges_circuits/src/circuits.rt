// What is refused for what a cell holds: 7, then "gate by gate 8, 9, 10, then 12".
use crate::calls::{Call, LISTING, MEMORY, evaluate};
use field::P;
use std::io;
use telling::buffers::Lengths;
use telling::gates::{ADD_3_3, ADD_5_3, ADD_5_4, MUL_1_2, MUL_5_4, OPCODE_3, SUB_3_3};
use telling::listing::EXACT;

// A region of the listing's shape.
type Region = [u64; 8];

const RESULTS: &[(&str, Region)] = &[
    (
        "P11, the listing, counts 2 2 2 1 1 0 from id 5 to 0",
        [3, 0, 4, 0, ADD_5_4, MUL_5_4, SUB_3_3, MUL_1_2],
    ),
    (
        "P12, its last word Add of 1 and 2",
        [3, 0, 4, 0, ADD_5_4, MUL_5_4, SUB_3_3, 2305843011361177601],
    ),
    (
        "the last READ wire is zero, the last wire not",
        [3, 0, 0, 0, ADD_5_4, MUL_5_4, SUB_3_3, ADD_3_3],
    ),
    (
        "the same total of counts, other counts",
        [3, 0, 4, 0, ADD_5_4, 1152921509975556101, SUB_3_3, MUL_1_2],
    ),
];

const CELLS: &[(&str, Region)] = &[
    (
        "the region's first cell is p",
        [P, 0, 4, 0, ADD_5_4, MUL_5_4, SUB_3_3, MUL_1_2],
    ),
    (
        "the region's last cell is p",
        [3, 0, 4, 0, ADD_5_4, MUL_5_4, SUB_3_3, P],
    ),
    (
        "cells 5 and 3 are p, the first counts",
        [3, 0, 4, P, ADD_5_4, P, SUB_3_3, MUL_1_2],
    ),
    (
        "a cell p - 1 passes",
        [P - 1, 0, 4, 0, ADD_5_4, MUL_5_4, SUB_3_3, MUL_1_2],
    ),
];

const GATES: &[(&str, [u64; 4])] = &[
    (
        "the first gate has opcode 3",
        [OPCODE_3, MUL_5_4, SUB_3_3, MUL_1_2],
    ),
    (
        "the last gate has opcode 3",
        [ADD_5_4, MUL_5_4, SUB_3_3, OPCODE_3],
    ),
    (
        "the second gate is p - 1",
        [ADD_5_4, P - 1, SUB_3_3, MUL_1_2],
    ),
    ("8 ahead of 9", [OPCODE_3 + 3, MUL_5_4, SUB_3_3, MUL_1_2]),
    (
        "the first gate names id 3, itself, on the left",
        [2305843013508661251, MUL_5_4, SUB_3_3, MUL_1_2],
    ),
    (
        "the first gate names id 6 on the left",
        [2305843013508661254, MUL_5_4, SUB_3_3, MUL_1_2],
    ),
    (
        "the first gate names id 2, a later one, on the left",
        [2305843013508661250, MUL_5_4, SUB_3_3, MUL_1_2],
    ),
    (
        "the last gate names itself on the left",
        [ADD_5_4, MUL_5_4, SUB_3_3, 1152921506754330624],
    ),
    ("9 ahead of 10", [ADD_3_3, MUL_5_4, SUB_3_3, MUL_1_2]),
    (
        "the first gate names id 3, itself, on the right",
        [ADD_5_3, MUL_5_4, SUB_3_3, MUL_1_2],
    ),
    (
        "the first gate names id 6 on the right",
        [2305843015656144901, MUL_5_4, SUB_3_3, MUL_1_2],
    ),
    (
        "the third gate names itself on the right",
        [ADD_5_4, MUL_5_4, 1073741827, MUL_1_2],
    ),
    (
        "the first gate's 10 ahead of the second's 8",
        [ADD_5_3, OPCODE_3, SUB_3_3, MUL_1_2],
    ),
];

fn with_region(region: &Region) -> [u64; 16] {
    let mut memory = MEMORY;
    memory[..8].copy_from_slice(region);
    memory
}

pub fn results(rt: &impl Print) -> io::Result<()> {
    for (case, region) in RESULTS {
        evaluate(rt, case, LISTING, &with_region(region))?;
    }
    Ok(())
}

// The second copy of the circuit is at address 8.
pub fn cells(rt: &impl Print) -> io::Result<()> {
    for (case, region) in CELLS {
        evaluate(rt, case, LISTING, &with_region(region))?;
    }
    let mut with_8 = MEMORY;
    with_8[8] = P;
    evaluate(rt, "p past the region passes", LISTING, &with_8)?;
    let second = Call { ptr: 8, ..LISTING };
    let mut with_7 = MEMORY;
    with_7[7] = P;
    evaluate(rt, "p before the region passes", second, &with_7)?;
    evaluate(rt, "the place of 7 is the address", second, &with_8)?;
    let short = Call {
        lent: Lengths { nodes: 50, ..EXACT },
        ..LISTING
    };
    let mut with_0 = MEMORY;
    with_0[0] = P;
    evaluate(rt, "6 ahead of 7", short, &with_0)?;
    with_7[4] = OPCODE_3;
    evaluate(rt, "7 ahead of 8", LISTING, &with_7)
}

pub fn gates(rt: &impl Print) -> io::Result<()> {
    for (case, gates) in GATES {
        let mut memory = MEMORY;
        memory[4..8].copy_from_slice(gates);
        evaluate(rt, case, LISTING, &memory)?;
    }
    Ok(())
}

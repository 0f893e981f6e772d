// What is refused before a cell is looked at: 1 to 6.
use crate::calls::{Call, LISTING, MEMORY, evaluate};
use std::io;
use telling::buffers::Lengths;
use telling::listing::{ONE_SHORT, WHOLE};

// num_vars and num_eval.
const SIZES: &[(&str, u64, u64)] = &[
    ("counts 4 and 32764 pass 1, memory too small", 4, 32764),
    ("counts 6 and 32764", 6, 32764),
    ("counts 32769 and 0, size before evenness", 32769, 0),
    ("counts 0 and 32769, 1 ahead of 2", 0, 32769),
    ("counts 32768 and 0 pass 1 and 2", 32768, 0),
    ("counts 0 and 32768 pass 1", 0, 32768),
    ("the record's limit of wires", 2, 1073741821),
    ("num_vars 2^32 + 2", (1 << 32) + 2, 4),
    ("num_vars the largest u64, a whole sum", u64::MAX, 1),
    ("num_eval the largest u64, a whole sum", 2, u64::MAX),
    ("num_eval 2^32 + 4", 2, (1 << 32) + 4),
];

const COUNTS: &[(&str, u64, u64)] = &[
    ("counts 3 and 5", 3, 5),
    ("num_vars 0", 0, 4),
    ("num_vars 1", 1, 4),
    ("num_vars 3", 3, 4),
    ("counts 0 and 0, 2 ahead of 3", 0, 0),
    ("num_eval 0", 2, 0),
    ("num_eval 3", 2, 3),
    ("num_eval 5", 2, 5),
    ("num_eval 6", 2, 6),
    ("counts 4 and 4 pass 5, short buffers", 4, 4),
    ("counts 4 and 8 pass 5, memory exact", 4, 8),
    ("counts 4 and 12", 4, 12),
];

// The pointer, and how many cells of memory are lent.
const POINTERS: &[(&str, u64, usize)] = &[
    ("ptr 1", 1, 16),
    ("ptr 2", 2, 16),
    ("ptr 3", 3, 16),
    ("ptr 4, a region with other gates", 4, 16),
    ("ptr 8, the circuit's second copy, memory exact", 8, 16),
    ("ptr 8, memory one cell short", 8, 15),
    ("ptr 12", 12, 16),
    ("the largest ptr", u64::MAX, 16),
    ("the largest multiple of 4, a whole sum", u64::MAX - 3, 16),
    ("4 ahead of 5", 2, 0),
    ("memory of 7 cells", 0, 7),
    ("memory of 8 cells", 0, 8),
    ("no memory", 0, 0),
];

fn counted(rt: &impl Print, cases: &[(&str, u64, u64)]) -> io::Result<()> {
    for &(case, num_vars, num_eval) in cases {
        let call = Call {
            num_vars,
            num_eval,
            ..LISTING
        };
        evaluate(rt, case, call, &MEMORY)?;
    }
    Ok(())
}

pub fn sizes(rt: &impl Print) -> io::Result<()> {
    counted(rt, SIZES)
}

pub fn counts(rt: &impl Print) -> io::Result<()> {
    counted(rt, COUNTS)?;
    let unaligned = Call {
        ptr: 2,
        num_eval: 5,
        ..LISTING
    };
    evaluate(rt, "3 ahead of 4", unaligned, &MEMORY)
}

pub fn pointers(rt: &impl Print) -> io::Result<()> {
    for &(case, ptr, memory) in POINTERS {
        let call = Call {
            ptr,
            memory,
            ..LISTING
        };
        evaluate(rt, case, call, &MEMORY)?;
    }
    Ok(())
}

pub fn room(rt: &impl Print) -> io::Result<()> {
    for &(case, lent) in ONE_SHORT {
        evaluate(rt, case, Call { lent, ..LISTING }, &MEMORY)?;
    }
    let spare = Call {
        lent: WHOLE,
        ..LISTING
    };
    evaluate(rt, "room to spare", spare, &MEMORY)?;
    let short = Call {
        memory: 7,
        lent: Lengths::NOTHING,
        ..LISTING
    };
    evaluate(rt, "5 ahead of 6", short, &MEMORY)
}

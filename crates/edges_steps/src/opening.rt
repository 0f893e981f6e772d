// Opening: "1 (2·num_read + num_eval over 32768), 2 (num_read zero), 3 (num_eval zero), 6, changing
// nothing".
use crate::steps::After;
use std::io;
use telling::answers::Answer;
use telling::buffers::{Lengths, Lent};
use telling::listing::{EXACT, ONE_SHORT, UNTOUCHED, WHOLE};
use telling::lists::Numbers;
use trace::CircuitEvaluation;
use trace::counts::test_counts;

const COUNTS: &[(&str, u32, u32)] = &[
    ("counts 1 and 4", 1, 4),
    ("num_eval 1 is no multiple of 4 and passes", 1, 1),
    ("32768 wires pass 1, short buffers", 2, 32764),
    ("32769 wires", 2, 32765),
    ("32770 wires", 3, 32764),
    ("the record's limit of wires", 1, 1073741821),
    ("the largest counts", u32::MAX, u32::MAX),
    ("num_read 16384 passes 1, num_eval 0", 16384, 0),
    ("1 ahead of 3", 16385, 0),
    ("num_eval 32768 passes 1, num_read 0", 0, 32768),
    ("1 ahead of 2", 0, 32769),
    ("num_read 0", 0, 4),
    ("2 ahead of 3", 0, 0),
    ("num_eval 0", 1, 0),
];

const OVER_NOTHING: &[(&str, u32, u32)] = &[
    ("1 ahead of 6", 2, 32765),
    ("2 ahead of 6", 0, 4),
    ("3 ahead of 6", 1, 0),
];

const COUNTS_ALONE: &[(&str, u32, u32)] = &[
    ("32768 wires", 2, 32764),
    ("32769 wires", 2, 32765),
    ("the largest counts", u32::MAX, u32::MAX),
    ("num_read 16384 passes 1, num_eval 0", 16384, 0),
    ("1 ahead of 3", 16385, 0),
    ("1 ahead of 2", 0, 32769),
    ("num_read 0", 0, 4),
    ("2 ahead of 3", 0, 0),
    ("num_eval 0", 1, 0),
    ("num_eval 1 is no multiple of 4 and passes", 1, 1),
];

fn open(
    rt: &impl Print,
    case: &str,
    num_read: u32,
    num_eval: u32,
    lengths: Lengths,
) -> io::Result<()> {
    let lent = Lent::from((&UNTOUCHED, lengths));
    let opened = CircuitEvaluation::new(
        0,
        7,
        num_read,
        num_eval,
        lent.values,
        lent.counts,
        lent.nodes,
    );
    println!(rt; "new: {case} = {}", Answer(opened.map(After)))
}

pub fn counts(rt: &impl Print) -> io::Result<()> {
    for &(case, num_read, num_eval) in COUNTS {
        open(rt, case, num_read, num_eval, EXACT)?;
    }
    Ok(())
}

pub fn room(rt: &impl Print) -> io::Result<()> {
    for &(case, lent) in ONE_SHORT {
        open(rt, case, 1, 4, lent)?;
    }
    open(rt, "room to spare", 1, 4, WHOLE)?;
    for &(case, num_read, num_eval) in OVER_NOTHING {
        open(rt, case, num_read, num_eval, Lengths::NOTHING)?;
    }
    Ok(())
}

pub fn counts_alone(rt: &impl Print) -> io::Result<()> {
    for &(case, num_read, num_eval) in COUNTS_ALONE {
        let answer = test_counts(num_read, num_eval).map(|()| Numbers([]));
        println!(rt; "test_counts: {case} = {}", Answer(answer))?;
    }
    Ok(())
}

// What fill and writer ask of a record: "21, 19, 6, 17 (a used value or node cell, or id_next, p or
// more)".
use field::P;
use std::io;
use telling::answers::Answer;
use telling::buffers::{Buffers, Lengths, Lent};
use telling::listing::{EXACT, ONE_SHORT, UNTOUCHED, WHOLE};
use telling::lists::Numbers;
use trace::RecordHeader;

const HEADER: RecordHeader = RecordHeader {
    ctx: 0,
    clk: 7,
    num_read: 1,
    num_eval: 4,
    id_next: P - 1,
};

const BUFFERS: Buffers<14, 7, 52> = Buffers {
    counts: [u32::MAX; 7],
    ..UNTOUCHED
};

const COUNTS: &[(&str, u32, u32)] = &[
    ("counts 1 and 4, any ids", 1, 4),
    ("no READ node passes", 0, 4),
    ("no EVAL node", 1, 0),
    ("no node at all", 0, 0),
    ("21 ahead of 19", u32::MAX, 0),
    ("1073741823 wires pass 19, short buffers", 536870911, 1),
    ("1073741824 wires", 536870911, 2),
    (
        "1073741823 EVAL nodes pass 19, short buffers",
        0,
        1073741823,
    ),
    ("1073741824 EVAL nodes", 0, 1073741824),
    ("the largest counts", u32::MAX, u32::MAX),
    ("32769 wires pass 19, short buffers", 1, 32767),
];

const IDS: &[(&str, u64, Lengths)] = &[
    ("6 ahead of 17", P, Lengths { nodes: 50, ..EXACT }),
    ("id_next p", P, EXACT),
    ("any id_next below p passes", 77, EXACT),
];

fn test(
    rt: &impl Print,
    case: &str,
    header: RecordHeader,
    lengths: Lengths,
    buffers: &Buffers<14, 7, 52>,
) -> io::Result<()> {
    let lent = Lent::from((buffers, lengths));
    let tested = header.test(lent.values, lent.counts, lent.nodes);
    println!(rt; "test: {case} = {}", Answer(tested.map(|()| Numbers([]))))
}

fn changed<F: FnOnce(&mut Buffers<14, 7, 52>)>(
    rt: &impl Print,
    case: &str,
    change: F,
) -> io::Result<()>
    requires { F.IsAlwaysCallable change }
{
    let mut buffers = BUFFERS;
    change(&mut buffers);
    test(rt, case, HEADER, WHOLE, &buffers)
}

pub fn counts(rt: &impl Print) -> io::Result<()> {
    for &(case, num_read, num_eval) in COUNTS {
        let header = RecordHeader {
            num_read,
            num_eval,
            ..HEADER
        };
        test(rt, case, header, EXACT, &BUFFERS)?;
    }
    Ok(())
}

pub fn room(rt: &impl Print) -> io::Result<()> {
    for &(case, lent) in ONE_SHORT {
        test(rt, case, HEADER, lent, &BUFFERS)?;
    }
    for &(case, id_next, lent) in IDS {
        test(rt, case, RecordHeader { id_next, ..HEADER }, lent, &BUFFERS)?;
    }
    Ok(())
}

pub fn cells(rt: &impl Print) -> io::Result<()> {
    changed(
        rt,
        "the first value cell is p",
        |buffers| buffers.values[0] = P,
    )?;
    changed(
        rt,
        "the last used value cell is p",
        |buffers| buffers.values[11] = P,
    )?;
    changed(
        rt,
        "p past the used value cells passes",
        |buffers| buffers.values[12] = P,
    )?;
    changed(
        rt,
        "a value cell p - 1 passes",
        |buffers| buffers.values[11] = P - 1,
    )?;
    changed(
        rt,
        "the first node cell is p",
        |buffers| buffers.nodes[0] = P,
    )?;
    changed(
        rt,
        "the last used node cell is p",
        |buffers| buffers.nodes[50] = P,
    )?;
    changed(
        rt,
        "p past the used node cells passes",
        |buffers| buffers.nodes[51] = P,
    )
}

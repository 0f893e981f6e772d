// Record reader: "in field order 15, 16, 17 at each number and 24 at each list length that passes the
// room; after the declared count 18, 19, 20; at the end 21, 19, 22, 23. A refusal changes nothing."
// At the end 19 is out of reach here: it takes nodes of more than 1,073,741,823 wires, for which no
// memory is lent.
use record::read_from;
use std::io;
use telling::answers::{Answer, Header};
use telling::buffers::{Buffers, CANARY, COUNT_CANARY, Lengths};
use telling::small::{EXACT, WHOLE};

// The small record. Its ctx stands at 0, clk at 1, id_next at 2, the wire list at 12, its wires at 13, 16
// and 19, the declared count at 22, the READ list at 23, its node at 24, the EVAL list at 31 and its node
// at 32; it ends at 52, and a byte follows.
const SMALL: [u8; 53] = *b"\x00\x07\x80\x80\x80\x80\xf0\xff\xff\xff\xff\x01\x03\
\x03\x00\x05\x03\x00\x06\x00\x00\x07\x03\
\x01\x00\x02\x03\x00\x01\x03\x00\
\x01\x04\x80\x80\x80\x80\xf0\xff\xff\xff\xff\x01\x00\x00\x00\x02\x03\x00\x01\x03\x00\x00";

// 2^32.
const TOO_LARGE: &[u8] = b"\x80\x80\x80\x80\x10";

// p.
const NO_ELEMENT: &[u8] = b"\x81\x80\x80\x80\xf0\xff\xff\xff\xff\x01";

const LARGEST_U64: &[u8] = b"\xff\xff\xff\xff\xff\xff\xff\xff\xff\x01";

// How many bytes are read.
const PREFIXES: &[(&str, usize)] = &[
    ("the small record", 52),
    ("no byte", 0),
    ("the end at clk", 1),
    ("the end at id_next", 2),
    ("the end in id_next", 11),
    ("the end at the wire list", 12),
    ("the end at a wire's first element", 13),
    ("the end at its second", 14),
    ("the end at its count", 15),
    ("the end at the declared count", 22),
    ("the end at the READ list", 23),
    ("the end at the READ node", 24),
    ("the end at the EVAL list", 31),
    ("the end at the EVAL node", 32),
    ("the end at the last number", 51),
    ("one byte left over", 53),
];

// Where 80 00 stands.
const FORMS: &[(&str, usize)] = &[
    ("80 00 as ctx", 0),
    ("80 00 as clk", 1),
    ("80 00 as id_next", 2),
    ("80 00 as the wire list's length", 12),
    ("80 00 as an element", 13),
    ("80 00 as a count", 15),
    ("80 00 as the declared count", 22),
    ("80 00 as the READ list's length", 23),
    ("80 00 in the READ node", 24),
    ("80 00 as the EVAL list's length", 31),
    ("80 00 in the EVAL node", 32),
];

// Where other bytes stand.
const RANGES: &[(&str, usize, &[u8])] = &[
    ("ctx 2^32", 0, TOO_LARGE),
    ("clk 2^32", 1, TOO_LARGE),
    ("id_next p", 2, NO_ELEMENT),
    ("a wire's first element p", 13, NO_ELEMENT),
    ("its second element p", 14, NO_ELEMENT),
    ("its count 2^32", 15, TOO_LARGE),
    ("2^32 wires declared", 22, TOO_LARGE),
    ("a READ node's cell p", 24, NO_ELEMENT),
    ("an EVAL node's cell p", 32, NO_ELEMENT),
    ("a wire list's length is never 17", 12, LARGEST_U64),
    ("a READ list's length is never 17", 23, LARGEST_U64),
    ("an EVAL list's length is never 17", 31, LARGEST_U64),
];

// How many bytes are read, and where other bytes stand.
const COUNTS: &[(&str, usize, usize, &[u8])] = &[
    ("0 wires declared", 52, 22, b"\x00"),
    (
        "1073741823 wires declared pass 19",
        52,
        22,
        b"\xff\xff\xff\xff\x03",
    ),
    (
        "1073741824 wires declared, 19 ahead of 20",
        52,
        22,
        b"\x80\x80\x80\x80\x04",
    ),
    (
        "4294967295 wires declared pass 17",
        52,
        22,
        b"\xff\xff\xff\xff\x0f",
    ),
    ("2 wires declared, the list has 3", 52, 22, b"\x02"),
    ("4 wires declared, the list has 3", 52, 22, b"\x04"),
    ("20 ahead of the READ list's 24", 52, 22, b"\x04\x03"),
    ("no EVAL node, 21 ahead of 22", 32, 31, b"\x00"),
    ("21 ahead of 23", 52, 31, b"\x00"),
    (
        "the nodes have one wire, 3 are declared",
        45,
        23,
        b"\x00\x01",
    ),
    ("22 ahead of 23", 52, 23, b"\x00\x01"),
];

// How many bytes are read, into how many cells.
const ROOM: &[(&str, usize, Lengths)] = &[
    ("values one short", 52, Lengths { values: 5, ..EXACT }),
    ("counts one short", 52, Lengths { counts: 2, ..EXACT }),
    (
        "nodes one short for the READ list",
        52,
        Lengths { nodes: 6, ..EXACT },
    ),
    (
        "nodes one short for the EVAL list",
        52,
        Lengths { nodes: 17, ..EXACT },
    ),
    ("room to spare", 52, WHOLE),
    ("nothing lent", 52, Lengths::NOTHING),
    ("15 ahead of 24", 12, Lengths::NOTHING),
    (
        "the wire list's 24 ahead of its wires",
        13,
        Lengths { values: 5, ..EXACT },
    ),
    (
        "the READ list's 24 ahead of its nodes",
        24,
        Lengths { nodes: 6, ..EXACT },
    ),
    (
        "the EVAL list's 24 ahead of its nodes",
        32,
        Lengths { nodes: 17, ..EXACT },
    ),
];

fn read(rt: &impl Print, case: &str, source: &[u8], lent: Lengths) -> io::Result<()> {
    let mut buffers = Buffers {
        values: [CANARY; 7],
        counts: [COUNT_CANARY; 4],
        nodes: [CANARY; 19],
    };
    // Cut here: through a struct of three `&mut` slices the borrow checker doesn't cover the call.
    let header = read_from(
        source,
        &mut buffers.values[..lent.values.min(7)],
        &mut buffers.counts[..lent.counts.min(4)],
        &mut buffers.nodes[..lent.nodes.min(19)],
    );
    println!(rt;
        "read_from: {case} = {}{buffers}",
        Answer(header.map(Header))
    )
}

// The first `len` bytes of the small record, of which those from `at` on are the patch's.
fn patched(
    rt: &impl Print,
    case: &str,
    len: usize,
    at: usize,
    patch: &[u8],
    lent: Lengths,
) -> io::Result<()> {
    let mut source = SMALL;
    for (byte, new) in source.iter_mut().skip(at).zip(patch) {
        *byte = *new;
    }
    read(rt, case, &source[..len.min(53)], lent)
}

pub fn prefixes(rt: &impl Print) -> io::Result<()> {
    for &(case, len) in PREFIXES {
        patched(rt, case, len, 0, b"", EXACT)?;
    }
    Ok(())
}

pub fn forms(rt: &impl Print) -> io::Result<()> {
    for &(case, at) in FORMS {
        patched(rt, case, 52, at, b"\x80\x00", EXACT)?;
    }
    Ok(())
}

pub fn ranges(rt: &impl Print) -> io::Result<()> {
    for &(case, at, patch) in RANGES {
        patched(rt, case, 52, at, patch, EXACT)?;
    }
    Ok(())
}

pub fn counts(rt: &impl Print) -> io::Result<()> {
    for &(case, len, at, patch) in COUNTS {
        patched(rt, case, len, at, patch, EXACT)?;
    }
    Ok(())
}

pub fn room(rt: &impl Print) -> io::Result<()> {
    for &(case, len, lent) in ROOM {
        patched(rt, case, len, 0, b"", lent)?;
    }
    Ok(())
}

pub fn others(rt: &impl Print) -> io::Result<()> {
    read(
        rt,
        "the largest numbers pass",
        b"\xff\xff\xff\xff\x0f\xff\xff\xff\xff\x0f\x80\x80\x80\x80\xf0\xff\xff\xff\xff\x01\x01\x80\x80\x80\x80\xf0\xff\xff\xff\xff\x01\x80\x80\x80\x80\xf0\xff\xff\xff\xff\x01\xff\xff\xff\xff\x0f\x01\x00\x01\x80\x80\x80\x80\xf0\xff\xff\xff\xff\x01\x00\x00\x00\x00\x00\x00\x00\x00\x00\x00",
        Lengths {
            values: 2,
            counts: 1,
            nodes: 11,
        },
    )?;
    read(
        rt,
        "the nodes have 3 wires, one is declared",
        b"\x00\x00\x00\x01\x00\x00\x00\x01\x01\x00\x00\x00\x00\x00\x00\x00\x01\x00\x00\x00\x00\x00\x00\x00\x00\x00\x00\x00",
        EXACT,
    )
}

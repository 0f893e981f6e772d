// "It reads ctx, clk, ptr, num_vars, num_eval, n and n cells as such numbers, at most 10,301 bytes in
// all, n at most 1024 (else 24), ctx and clk below 2^32 (else 17), the others any 64-bit number. After
// 23 comes 24 where num_vars + num_eval is 129 to 32768, then evaluation."
use crate::asking;
use std::io;

// Of these tables some hold whole inputs, and others say how many bytes of the listing's input are read,
// and where other bytes stand in it.
const LISTING: &[(&str, usize, usize, &[u8])] = &[
    ("the listing", 42, 0, b""),
    ("p past the region", 52, 5, b"\x09"),
];

const NUMBERS_CHANGED: &[(&str, usize, usize, &[u8])] = &[
    ("no byte", 0, 0, b""),
    ("the end at clk", 1, 0, b""),
    ("the end at n", 5, 0, b""),
    ("the end at the first cell", 6, 0, b""),
    ("the end in the last cell", 41, 0, b""),
    ("one byte left over", 43, 42, b"\x00"),
    ("80 00 as ctx", 42, 0, b"\x80\x00"),
    ("80 00 as n", 42, 5, b"\x80\x00"),
    ("80 00 as the last cell", 42, 33, b"\x80\x00"),
    ("ctx 2^32", 42, 0, b"\x80\x80\x80\x80\x10"),
    ("clk 2^32", 42, 1, b"\x80\x80\x80\x80\x10"),
];

const NUMBERS_WHOLE: &[(&str, &[u8])] = &[
    ("17 ahead of a later 15", b"\x80\x80\x80\x80\x10"),
    (
        "ctx and clk 2^32 - 1 pass",
        b"\xff\xff\xff\xff\x0f\xff\xff\xff\xff\x0f\x00\x00\x00\x00",
    ),
];

const HEADS_WHOLE: &[(&str, &[u8])] = &[
    (
        "n 1024 passes, its cells lack",
        b"\x00\x00\x00\x02\x04\x80\x08",
    ),
    (
        "n 1025, 24 ahead of its cells' 15",
        b"\x00\x00\x00\x02\x04\x81\x08",
    ),
    (
        "n the largest u64",
        b"\x00\x00\x00\x02\x04\xff\xff\xff\xff\xff\xff\xff\xff\xff\x01",
    ),
    (
        "ptr the largest u64",
        b"\x00\x00\xff\xff\xff\xff\xff\xff\xff\xff\xff\x01\x02\x04\x00",
    ),
    (
        "ptr 2^64 - 4",
        b"\x00\x00\xfc\xff\xff\xff\xff\xff\xff\xff\xff\x01\x02\x04\x00",
    ),
    (
        "num_vars the largest u64",
        b"\x00\x00\x00\xff\xff\xff\xff\xff\xff\xff\xff\xff\x01\x04\x00",
    ),
    (
        "num_vars 2^64 - 1 and num_eval 130, a whole sum",
        b"\x00\x00\x00\xff\xff\xff\xff\xff\xff\xff\xff\xff\x01\x82\x01\x00",
    ),
];

const HEADS_CHANGED: &[(&str, usize, usize, &[u8])] = &[
    ("counts 3 and 5", 42, 3, b"\x03\x05"),
    ("num_eval 5", 42, 4, b"\x05"),
    ("ptr 2", 42, 2, b"\x02"),
    ("ptr 4", 42, 2, b"\x04"),
    ("memory of 7 cells", 33, 5, b"\x07"),
];

const SIZES: &[(&str, &[u8])] = &[
    (
        "counts 124 and 4 pass 24, no memory",
        b"\x00\x00\x00\x7c\x04\x00",
    ),
    (
        "counts 125 and 4, 24 ahead of 2",
        b"\x00\x00\x00\x7d\x04\x00",
    ),
    ("counts 128 and 0 pass 24", b"\x00\x00\x00\x80\x01\x00\x00"),
    ("counts 129 and 0", b"\x00\x00\x00\x81\x01\x00\x00"),
    ("counts 0 and 128 pass 24", b"\x00\x00\x00\x00\x80\x01\x00"),
    ("counts 0 and 129", b"\x00\x00\x00\x00\x81\x01\x00"),
    ("counts 4 and 32764", b"\x00\x00\x00\x04\xfc\xff\x01\x00"),
    ("counts 5 and 32764", b"\x00\x00\x00\x05\xfc\xff\x01\x00"),
    ("counts 6 and 32764", b"\x00\x00\x00\x06\xfc\xff\x01\x00"),
    ("counts 32769 and 0", b"\x00\x00\x00\x81\x80\x02\x00\x00"),
    ("23 ahead of 24", b"\x00\x00\x00\x7d\x04\x00\x00"),
];

const CIRCUITS: &[(&str, usize, usize, &[u8])] = &[
    (
        "the last cell is p",
        43,
        33,
        b"\x81\x80\x80\x80\xf0\xff\xff\xff\xff\x01",
    ),
    (
        "the last cell is the largest u64, never 17",
        43,
        33,
        b"\xff\xff\xff\xff\xff\xff\xff\xff\xff\x01",
    ),
    (
        "the last gate has opcode 3",
        42,
        33,
        b"\x80\x80\x80\x80\x80\x80\x80\x80\x30",
    ),
    (
        "the first gate names id 3, itself, on the left",
        42,
        10,
        b"\x83",
    ),
    ("the first gate names id 6 on the left", 42, 10, b"\x86"),
    (
        "the first gate names id 3, itself, on the right",
        42,
        10,
        b"\x85\x80\x80\x80\x8c",
    ),
    (
        "its last word Add of 1 and 2",
        42,
        33,
        b"\x81\x80\x80\x80\x88\x80\x80\x80\x20",
    ),
];

pub fn listing(rt: &impl Print) -> io::Result<()> {
    asking::changed(rt, LISTING)
}

pub fn numbers(rt: &impl Print) -> io::Result<()> {
    asking::changed(rt, NUMBERS_CHANGED)?;
    asking::inputs(rt, NUMBERS_WHOLE)
}

pub fn heads(rt: &impl Print) -> io::Result<()> {
    asking::inputs(rt, HEADS_WHOLE)?;
    asking::changed(rt, HEADS_CHANGED)
}

pub fn sizes(rt: &impl Print) -> io::Result<()> {
    asking::inputs(rt, SIZES)
}

pub fn circuits(rt: &impl Print) -> io::Result<()> {
    asking::changed(rt, CIRCUITS)
}

// Numbers as bytes: writing, reading, and reading below a bound. What is lent for output is the
// first of twelve bytes ee, which are told whole after the answer.
use field::P;
use numbers::{read, read_below, write};
use std::io;
use telling::answers::Answer;
use telling::lists::{Bytes, Numbers};

// The number, how many bytes are lent, and the place in them.
const WRITING: &[(&str, u64, usize, usize)] = &[
    ("0", 0, 12, 0),
    ("127, the last of one byte", 127, 12, 0),
    ("P9, 128", 128, 12, 0),
    ("16383, the last of two bytes", 16383, 12, 0),
    ("16384", 16384, 12, 0),
    ("P10, p - 1", P - 1, 12, 0),
    ("2^63 - 1, the last of nine bytes", (1 << 63) - 1, 12, 0),
    ("2^63", 1 << 63, 12, 0),
    ("the largest u64, at 2, room exact", u64::MAX, 12, 2),
    ("the largest u64, at 2, one byte short", u64::MAX, 11, 2),
    ("128 in two bytes", 128, 2, 0),
    ("128 in one byte", 128, 1, 0),
    ("0 in one byte", 0, 1, 0),
    ("0 in no byte", 0, 0, 0),
    ("0 at the end", 0, 12, 12),
    ("0 at the largest place", 0, 12, usize::MAX),
];

const READING: &[(&str, &[u8], usize)] = &[
    ("no byte", b"", 0),
    ("00", b"\x00", 0),
    ("7f", b"\x7f", 0),
    ("what follows is not looked at", b"\x7f\xff", 0),
    ("80", b"\x80", 0),
    ("80 01", b"\x80\x01", 0),
    ("80 00", b"\x80\x00", 0),
    ("80 80 00", b"\x80\x80\x00", 0),
    ("nine bytes with the high bit", &[0xff; 9], 0),
    (
        "a tenth byte of 0",
        b"\xff\xff\xff\xff\xff\xff\xff\xff\xff\x00",
        0,
    ),
    (
        "a tenth byte of 1",
        b"\xff\xff\xff\xff\xff\xff\xff\xff\xff\x01",
        0,
    ),
    (
        "a tenth byte of 2",
        b"\xff\xff\xff\xff\xff\xff\xff\xff\xff\x02",
        0,
    ),
    (
        "a tenth byte of 81",
        b"\x80\x80\x80\x80\x80\x80\x80\x80\x80\x81",
        0,
    ),
    ("the place after a number", b"\x05\x80\x01", 1),
    ("15 tells where the number starts", b"\x05\x80\x80", 1),
    ("16 tells where the number starts", b"\x05\x80\x00", 1),
    ("a place past the end", b"\x05", 7),
    ("the largest place", b"\x05", usize::MAX),
];

const READING_BELOW: &[(&str, &[u8], usize, u64)] = &[
    ("127 below 128", b"\x7f", 0, 128),
    ("128 below 128", b"\x80\x01", 0, 128),
    ("17 tells where the number starts", b"\x05\x80\x01", 1, 128),
    ("0 below 0", b"\x00", 0, 0),
    ("2^32 - 1 below 2^32", b"\xff\xff\xff\xff\x0f", 0, 1 << 32),
    ("2^32 below 2^32", b"\x80\x80\x80\x80\x10", 0, 1 << 32),
    (
        "p - 1 below p",
        b"\x80\x80\x80\x80\xf0\xff\xff\xff\xff\x01",
        0,
        P,
    ),
    (
        "p below p",
        b"\x81\x80\x80\x80\xf0\xff\xff\xff\xff\x01",
        0,
        P,
    ),
    ("15 ahead of 17", b"\x80", 0, 0),
    ("16 ahead of 17", b"\x80\x00", 0, 0),
    ("a place past the end", b"\x05", 7, 128),
];

pub fn writing(rt: &impl Print) -> io::Result<()> {
    for &(case, v, room, at) in WRITING {
        let mut out = [0xee; 12];
        let next = write(v, &mut out[..room.min(12)], at);
        let answer = Answer(next.map(|next| Numbers([next as u64])));
        println!(rt; "numbers::write: {case} = {answer}{}", Bytes(&out))?;
    }
    Ok(())
}

pub fn reading(rt: &impl Print) -> io::Result<()> {
    for &(case, s, at) in READING {
        let answer = read(s, at).map(|(v, next)| Numbers([v, next as u64]));
        println!(rt; "numbers::read: {case} = {}", Answer(answer))?;
    }
    Ok(())
}

pub fn reading_below(rt: &impl Print) -> io::Result<()> {
    for &(case, s, at, bound) in READING_BELOW {
        let answer = read_below(s, at, bound).map(|(v, next)| Numbers([v, next as u64]));
        println!(rt; "numbers::read_below: {case} = {}", Answer(answer))?;
    }
    Ok(())
}

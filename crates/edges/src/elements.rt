// Elements and pairs: "Public calls of parts 1 to 3 refuse 7 where a number handed in is p or more,
// giving its place among them, from 0".
use field::{P, felt, quad};
use refusal::Refusal;
use std::{fmt, io};
use telling::answers::Answer;
use telling::lists::Numbers;

const FELT_SUMS: &[(&str, u64, u64)] = &[
    ("2 + 3", 2, 3),
    ("p - 1 and 1 make 0", P - 1, 1),
    ("p - 1 twice", P - 1, P - 1),
    ("p on the left", P, 0),
    ("p on the right", 0, P),
    ("p on both sides, the first counts", P, P),
    ("the largest u64 on the right", 1, u64::MAX),
];

const FELT_DIFFERENCES: &[(&str, u64, u64)] = &[
    ("3 - 2", 3, 2),
    ("0 - 1 is p - 1", 0, 1),
    ("0 - (p - 1)", 0, P - 1),
    ("p on the left", P, 0),
    ("p on the right", 0, P),
    ("p on both sides, the first counts", P, P),
];

const FELT_PRODUCTS: &[(&str, u64, u64)] = &[
    ("2^32 twice: 2^64 is 2^32 - 1", 1 << 32, 1 << 32),
    ("p - 1 twice", P - 1, P - 1),
    ("0 and p - 1", 0, P - 1),
    ("p on the left, by 0", P, 0),
    ("p on the right, by 0", 0, P),
    ("p on both sides, the first counts", P, P),
];

const QUAD_SUMS: &[(&str, [u64; 2], [u64; 2])] = &[
    ("(1,2) + (3,4)", [1, 2], [3, 4]),
    ("(p-1,p-1) + (1,1)", [P - 1, P - 1], [1, 1]),
    ("p as a0", [P, 0], [0, 0]),
    ("p as a1", [0, P], [0, 0]),
    ("p as b0", [0, 0], [P, 0]),
    ("p as b1", [0, 0], [0, P]),
    ("p as a1 and b0, the first counts", [0, P], [P, 0]),
];

const QUAD_DIFFERENCES: &[(&str, [u64; 2], [u64; 2])] = &[
    ("P8, (0,0) - (1,0)", [0, 0], [1, 0]),
    ("(0,0) - (0,1)", [0, 0], [0, 1]),
    ("p as a0", [P, 0], [0, 0]),
    ("p as a1", [0, P], [0, 0]),
    ("p as b0", [0, 0], [P, 0]),
    ("p as b1", [0, 0], [0, P]),
];

const QUAD_PRODUCTS: &[(&str, [u64; 2], [u64; 2])] = &[
    ("P6, (0,1)(0,1)", [0, 1], [0, 1]),
    ("P7, (1,2)(3,4)", [1, 2], [3, 4]),
    ("(p-1,0)(p-1,0)", [P - 1, 0], [P - 1, 0]),
    ("(0,p-1)(0,1)", [0, P - 1], [0, 1]),
    ("p as a0", [P, 0], [0, 0]),
    ("p as a1", [0, P], [0, 0]),
    ("p as b0", [0, 0], [P, 0]),
    ("p as b1", [0, 0], [0, P]),
];

fn tell<T: Copy, V: Copy + fmt::Display, F: Fn(T, T) -> Result<V, Refusal>>(
    rt: &impl Print,
    call: &str,
    cases: &[(&str, T, T)],
    operation: F,
) -> io::Result<()>
    requires { F.IsAlwaysCallable operation }
{
    for &(case, a, b) in cases {
        println!(rt; "{call}: {case} = {}", Answer(operation(a, b)))?;
    }
    Ok(())
}

pub fn felts(rt: &impl Print) -> io::Result<()> {
    let add = |a, b| felt::add(a, b).map(|v| Numbers([v]));
    tell(rt, "felt::add", FELT_SUMS, add)?;
    let sub = |a, b| felt::sub(a, b).map(|v| Numbers([v]));
    tell(rt, "felt::sub", FELT_DIFFERENCES, sub)?;
    let mul = |a, b| felt::mul(a, b).map(|v| Numbers([v]));
    tell(rt, "felt::mul", FELT_PRODUCTS, mul)
}

pub fn quads(rt: &impl Print) -> io::Result<()> {
    let add = |a, b| quad::add(a, b).map(Numbers);
    tell(rt, "quad::add", QUAD_SUMS, add)?;
    let sub = |a, b| quad::sub(a, b).map(Numbers);
    tell(rt, "quad::sub", QUAD_DIFFERENCES, sub)?;
    let mul = |a, b| quad::mul(a, b).map(Numbers);
    tell(rt, "quad::mul", QUAD_PRODUCTS, mul)
}

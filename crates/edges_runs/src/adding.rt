// Adding a run: 13, "then 1, 2, 3 as for opening, 25 (32 other clocks)"; "a refusal leaves the list",
// which is told after the answer.
use crate::lists::{Listed, entry, list, with_second};
use runs::{Ace, Entry};
use std::io;
use telling::answers::Answer;
use telling::lists::Numbers;

// How many runs the list has, and the clock and the counts of the run that is added.
const PLACES: &[(&str, u32, u32, u32, u32)] = &[
    ("to an empty list", 0, 15, 1, 4),
    ("ahead of all", 2, 5, 1, 4),
    ("between two", 2, 15, 1, 4),
    ("behind all", 2, 25, 1, 4),
    ("clock 0", 1, 0, 1, 4),
    ("the largest clock", 1, u32::MAX, 1, 4),
    ("an equal clock replaces", 2, 10, 3, 8),
    ("an equal clock at the end replaces", 2, 20, 3, 8),
];

const FULL_LISTS: &[(&str, u32, u32, u32, u32)] = &[
    ("31 other clocks", 31, 315, 2, 8),
    ("32 other clocks", 32, 315, 2, 8),
    ("32 other clocks, all larger", 32, 5, 2, 8),
    ("full, an equal clock replaces", 32, 320, 2, 8),
    ("3 ahead of 25", 32, 315, 1, 0),
];

const COUNTS: &[(&str, u32, u32, u32, u32)] = &[
    ("32768 wires", 0, 15, 2, 32764),
    ("32769 wires", 0, 15, 2, 32765),
    ("num_read 16384 passes 1, num_eval 0", 0, 15, 16384, 0),
    ("1 ahead of 3", 0, 15, 16385, 0),
    ("1 ahead of 2", 0, 15, 0, 32769),
    ("num_read 0", 0, 15, 0, 4),
    ("2 ahead of 3", 0, 15, 0, 0),
    ("num_eval 0", 0, 15, 1, 0),
    ("num_eval 1 is no multiple of 4 and passes", 0, 15, 1, 1),
    ("an equal clock refused stays as it was", 2, 10, 0, 4),
];

// The clock and the counts of the second of two runs, where those of the added run are 15, 1 and 4.
const SECONDS: &[(&str, u32, u32, u32)] = &[
    ("two equal clocks", 10, 1, 4),
    ("clocks that fall", 5, 1, 4),
    ("a run of 32768 wires passes 13", 20, 2, 32764),
    ("a run of 32769 wires", 20, 2, 32765),
    ("a run with num_read 0", 20, 0, 4),
    ("a run with num_eval 0", 20, 1, 0),
];

fn add_to(rt: &impl Print, case: &str, mut list: Ace, entry: Entry) -> io::Result<()> {
    let added = list.add_circuit_evaluation(entry);
    let answer = Answer(added.map(|()| Numbers([])));
    println!(rt; "add_circuit_evaluation: {case} = {answer}{}", Listed(list))
}

fn add(rt: &impl Print, cases: &[(&str, u32, u32, u32, u32)]) -> io::Result<()> {
    for &(case, len, clk, num_read, num_eval) in cases {
        add_to(rt, case, list(len), entry(clk, num_read, num_eval))?;
    }
    Ok(())
}

pub fn places(rt: &impl Print) -> io::Result<()> {
    add(rt, PLACES)
}

pub fn full_lists(rt: &impl Print) -> io::Result<()> {
    add(rt, FULL_LISTS)
}

pub fn counts(rt: &impl Print) -> io::Result<()> {
    add(rt, COUNTS)
}

pub fn unsound_lists(rt: &impl Print) -> io::Result<()> {
    add_to(rt, "length 33", list(33), entry(15, 1, 4))?;
    for &(case, clk, num_read, num_eval) in SECONDS {
        let list = with_second(2, entry(clk, num_read, num_eval));
        add_to(rt, case, list, entry(15, 1, 4))?;
    }
    let unsound = with_second(2, entry(10, 1, 4));
    add_to(rt, "13 ahead of 1", unsound, entry(15, 16385, 0))?;
    add_to(
        rt,
        "entries past the length are not looked at",
        with_second(1, entry(5, 0, 0)),
        entry(15, 1, 4),
    )
}

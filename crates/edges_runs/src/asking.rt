// "The total of rows (num_read + num_eval a run) and the first row of a clock, the sum of rows of
// smaller clocks; or 26."
use crate::lists::{entry, list, with_second};
use runs::Ace;
use std::io;
use telling::answers::Answer;
use telling::lists::Numbers;

// How many runs the list has.
const TOTALS: &[(&str, u32)] = &[
    ("an empty list", 0),
    ("one run", 1),
    ("three runs", 3),
    ("a full list", 32),
    ("length 33", 33),
    ("the largest length", u32::MAX),
];

// The same, and the clock and the counts of the second entry.
const TOTALS_CHANGED: &[(&str, u32, u32, u32, u32)] = &[
    ("three runs, one of other size", 3, 20, 100, 8),
    ("two equal clocks", 3, 10, 1, 4),
    ("clocks that fall", 3, 5, 1, 4),
    ("a run of 32769 wires", 3, 20, 2, 32765),
    ("a run with num_read 0", 3, 20, 0, 4),
    ("a run with num_eval 0", 3, 20, 1, 0),
    ("entries past the length are not looked at", 1, 5, 0, 0),
];

// How many runs the list has, and the clock that is asked for.
const ROWS: &[(&str, u32, u32)] = &[
    ("an empty list", 0, 10),
    ("the first clock, its own run not counted", 3, 10),
    ("the second clock", 3, 20),
    ("the last clock", 3, 30),
    ("a clock past the length", 3, 40),
    ("a clock between two", 3, 15),
    ("a clock ahead of all", 3, 5),
    ("the last clock of a full list", 32, 320),
    ("length 33", 33, 10),
];

// Of three runs: the second's clock and num_eval, and the clock that is asked for.
const ROWS_CHANGED: &[(&str, u32, u32, u32)] = &[
    ("the sum of rows, not of runs", 20, 8, 30),
    ("clocks that fall", 5, 4, 30),
    ("13 ahead of 26", 10, 4, 99),
    ("a run with num_eval 0", 20, 0, 10),
];

fn total(rt: &impl Print, case: &str, list: Ace) -> io::Result<()> {
    let rows = list.trace_len().map(|rows| Numbers([rows]));
    println!(rt; "trace_len: {case} = {}", Answer(rows))
}

fn first(rt: &impl Print, case: &str, list: Ace, clk: u32) -> io::Result<()> {
    let row = list.first_row(clk).map(|row| Numbers([row]));
    println!(rt; "first_row: {case} = {}", Answer(row))
}

pub fn totals(rt: &impl Print) -> io::Result<()> {
    for &(case, len) in TOTALS {
        total(rt, case, list(len))?;
    }
    for &(case, len, clk, num_read, num_eval) in TOTALS_CHANGED {
        let list = with_second(len, entry(clk, num_read, num_eval));
        total(rt, case, list)?;
    }
    Ok(())
}

pub fn rows(rt: &impl Print) -> io::Result<()> {
    for &(case, len, clk) in ROWS {
        first(rt, case, list(len), clk)?;
    }
    for &(case, second, num_eval, clk) in ROWS_CHANGED {
        let list = with_second(3, entry(second, 1, num_eval));
        first(rt, case, list, clk)?;
    }
    Ok(())
}

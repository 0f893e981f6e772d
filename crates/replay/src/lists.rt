// The run list, and its calls.
use crate::cells::Cell;
use crate::instructions::{Unknown, Words};
use crate::say;
use runs::{Ace, Entry};
use std::io;

#[derive(Clone, Copy)]
pub enum ListCall {
    SetEntry(usize, Entry),
    SetLen(u32),
    Add(Entry),
    TraceLen,
    FirstRow(u32),
}

impl TryFrom<Words<'_>> for ListCall {
    type Error = Unknown;

    fn try_from(words: Words<'_>) -> Result<Self, Unknown> {
        match words {
            (4, &[i, clk, num_read, num_eval]) => Ok(Self::SetEntry(
                i as usize,
                entry_of(clk, num_read, num_eval),
            )),
            (5, &[len]) => Ok(Self::SetLen(u32::limited(len))),
            (25, &[clk, num_read, num_eval]) => Ok(Self::Add(entry_of(clk, num_read, num_eval))),
            (26, []) => Ok(Self::TraceLen),
            (27, &[clk]) => Ok(Self::FirstRow(u32::limited(clk))),
            _ => Err(Unknown),
        }
    }
}

fn entry_of(clk: u64, num_read: u64, num_eval: u64) -> Entry {
    Entry {
        clk: u32::limited(clk),
        num_read: u32::limited(num_read),
        num_eval: u32::limited(num_eval),
    }
}

// By hand: Ace has no Default, and the array of 32 would need one written out in runs.
pub fn empty() -> Ace {
    Ace {
        entries: [entry_of(0, 0, 0); 32],
        len: 0,
    }
}

// Its length and all entries.
fn say_list(rt: &impl Print, list: &Ace) -> io::Result<()> {
    say::numbers(rt, &[list.len])?;
    for entry in list.entries {
        say::numbers(rt, &[entry.clk, entry.num_read, entry.num_eval])?;
    }
    Ok(())
}

pub fn answer(rt: &impl Print, call: ListCall, list: &mut Ace) -> io::Result<()> {
    match call {
        ListCall::SetEntry(i, entry) => {
            if let Some(place) = list.entries.get_mut(i) {
                *place = entry;
            }
            Ok(())
        }
        ListCall::SetLen(len) => {
            list.len = len;
            Ok(())
        }
        ListCall::Add(entry) => {
            say::answer(rt, list.add_circuit_evaluation(entry).map(|()| []))?;
            say_list(rt, list)
        }
        ListCall::TraceLen => say::answer(rt, list.trace_len().map(|rows| [rows])),
        ListCall::FirstRow(clk) => say::answer(rt, list.first_row(clk).map(|rows| [rows])),
    }
}

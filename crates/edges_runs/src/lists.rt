// Run lists with clocks 10, 20, 30 and so on, each run with one READ and four EVAL steps. All 32
// entries have such runs, those past the length too.
use runs::{Ace, Entry};
use std::fmt;

pub fn entry(clk: u32, num_read: u32, num_eval: u32) -> Entry {
    Entry {
        clk,
        num_read,
        num_eval,
    }
}

pub fn list(len: u32) -> Ace {
    let mut entries = [entry(0, 1, 4); 32];
    for (entry, clk) in entries.iter_mut().zip((10..=320).step_by(10)) {
        entry.clk = clk;
    }
    Ace { entries, len }
}

pub fn with_second(len: u32, second: Entry) -> Ace {
    let mut list = list(len);
    list.entries[1] = second;
    list
}

// The length, and each entry in use: its clock and its counts.
#[derive(Clone, Copy)]
pub struct Listed(pub Ace);

impl fmt::Display for Listed {
    fn fmt<W: fmt::Write>(&self, f: &mut fmt::Formatter<W>) -> fmt::Result {
        let len = self.0.len;
        write!(f, " list {len}:")?;
        for entry in self.0.entries.iter().take(len as usize) {
            write!(f, " {} ({} {})", entry.clk, entry.num_read, entry.num_eval)?;
        }
        Ok(())
    }
}

// The entries of a run list, those in use first.
ghost use Rattle.std.specs.Prelude.{◌≡◌, ◌≤◌, ◌<◌, ◌^◌, true, length, take};
ghost use Rattle.runs.specs.Entries.{opens, rows_of, total};
ghost use Rattle.runs.specs.Calls.{most_runs, used, sound_list};
ghost use Rattle.runs.specs.Inside.{place_answer, opened_at};

use crate::{Ace, Entry, MAX_EVAL_CIRCUIT_INVOCATIONS};
use std::mem;
use trace::counts::test_counts;

impl Entry {
    // "num_read + num_eval a run".
    fn rows(&self) -> u64
        ensures value { result ≡ rows_of self.now }
        ensures few { result < 2 ^ 33 }
    {
        u64::from(self.num_read) + u64::from(self.num_eval)
    }

    // Whether opening accepts its counts.
    fn opens(&self) -> bool
        ensures { result ≡ opens self.now }
    {
        test_counts(self.num_read, self.num_eval).is_ok()
    }
}

fn total(entries: &[Entry]) -> u64
    requires { length entries.now ≤ most_runs }
    ensures { result ≡ total entries.now }
{
    let mut rows = 0;
    for entry in entries {
        rows += entry.rows();
    }
    rows
}

impl Ace {
    pub(crate) fn used(&self) -> &[Entry]
        requires { self.now.len ≤ most_runs }
        ensures { result.now ≡ used self.now }
    {
        &self.entries[..self.len as usize]
    }

    // "Length over 32, clocks not rising, counts that opening refuses; entries past the length
    // aren't looked at."
    pub(crate) fn is_sound(&self) -> bool
        ensures { result ≡ sound_list self.now }
    {
        if MAX_EVAL_CIRCUIT_INVOCATIONS < self.len as usize {
            return false;
        }
        let used = self.used();
        used.is_sorted_by(|entry, next| entry.clk < next.clk) && used.iter().all(Entry::opens)
    }

    // The rows of the first n entries.
    pub(crate) fn total_of(&self, n: usize) -> u64
        requires { n ≤ most_runs }
        ensures { result ≡ total (take n self.now.entries) }
    {
        total(&self.entries[..n])
    }

    // The place of a clock that is there, or the one that it would have.
    pub(crate) fn place_of(&self, clk: u32) -> Result<usize, usize>
        requires { sound_list self.now ≡ true }
        ensures { result ≡ place_answer clk (used self.now) }
    {
        self.used().binary_search_by(|entry| entry.clk.cmp(&clk))
    }

    // Each entry in use from the place on goes one place further.
    pub(crate) fn insert_at(&mut self, at: usize, entry: Entry)
        requires { (at ≤ self.old.len) × (self.old.len < most_runs) }
        ensures { self.new ≡ opened_at self.old at entry }
    {
        let len = self.len as usize;
        let mut carried = entry;
        for place in &mut self.entries[at..len + 1] {
            mem::swap(place, &mut carried);
        }
        self.len += 1;
    }
}

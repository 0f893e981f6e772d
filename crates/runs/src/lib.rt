// The run list: evaluations by clock, ascending.
#![tactic(auto)]

mod entries;

ghost use Rattle.std.specs.Prelude.{◌≡◌};
ghost use Rattle.runs.specs.Calls.{rows_told, add_told, total_answer, first_row_answer, add_answer, list_after};

use refusal::Refusal;
use trace::counts::test_counts;

// "At most 32 entries".
pub const MAX_EVAL_CIRCUIT_INVOCATIONS: usize = 1 << 5;

#[derive(Clone, Copy, Debug, PartialEq, Eq)]
pub struct Entry {
    pub clk: u32,
    pub num_read: u32,
    pub num_eval: u32,
}

// "The run list struct holds [Entry; 32] and a length, sorted by clock."
#[derive(Clone, Copy, Debug, PartialEq, Eq)]
pub struct Ace {
    pub entries: [Entry; 32],
    pub len: u32,
}

impl Ace {
    // The total of rows, num_read + num_eval a run.
    pub fn trace_len(self) -> Result<u64, Refusal>
        ensures { rows_told result ≡ total_answer self }
    {
        if !self.is_sound() {
            return Err(Refusal::OutOfTurn);
        }
        Ok(self.total_of(self.len as usize))
    }

    // "The first row of a clock, the sum of rows of smaller clocks; or 26."
    pub fn first_row(self, clk: u32) -> Result<u64, Refusal>
        ensures { rows_told result ≡ first_row_answer self clk }
    {
        if !self.is_sound() {
            return Err(Refusal::OutOfTurn);
        }
        let Ok(at) = self.place_of(clk) else {
            return Err(Refusal::NoSuchClock);
        };
        Ok(self.total_of(at))
    }

    // "Adding: then 1, 2, 3 as for opening, 25 (32 other clocks)." "Adding an equal clock replaces
    // that entry, full or not." "A refusal leaves the list."
    pub fn add_circuit_evaluation(&mut self, entry: Entry) -> Result<(), Refusal>
        ensures answer_value { add_told result ≡ add_answer self.old entry }
        ensures list_value { self.new ≡ list_after self.old entry }
    {
        if !self.is_sound() {
            return Err(Refusal::OutOfTurn);
        }
        test_counts(entry.num_read, entry.num_eval)?;
        match self.place_of(entry.clk) {
            Ok(at) => self.entries[at] = entry,
            Err(_) if self.len as usize == MAX_EVAL_CIRCUIT_INVOCATIONS => {
                return Err(Refusal::ListFull);
            }
            Err(at) => self.insert_at(at, entry),
        }
        Ok(())
    }
}

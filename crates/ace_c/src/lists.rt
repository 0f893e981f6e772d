// The run list.
ghost use Rattle.std.specs.Prelude.{◌≡◌};
ghost use Rattle.refusal.specs.Codes.{code, value_or, place_told};
ghost use Rattle.runs.specs.Calls.{total_answer, first_row_answer, add_answer, list_after};
ghost use Rattle.ace_c.specs.Lists.{entry_by, list_of, threes_of};

use crate::convert::ListNumbers;
use crate::tell::tell;
use runs::{Ace, Entry};

pub fn ace_add_circuit_evaluation(
    entries: &mut [u32; 96],
    len: &mut u32,
    clk: u32,
    num_read: u32,
    num_eval: u32,
    place: &mut u64,
) -> u32
    ensures value { result ≡ code (add_answer (list_of entries.old len.old) (entry_by clk num_read num_eval)) }
    ensures entries_after { entries.new ≡ threes_of (list_after (list_of entries.old len.old) (entry_by clk num_read num_eval)).entries }
    ensures len_after { len.new ≡ (list_after (list_of entries.old len.old) (entry_by clk num_read num_eval)).len }
    ensures place_after { place.new ≡ place_told (add_answer (list_of entries.old len.old) (entry_by clk num_read num_eval)) }
{
    let entry = Entry {
        clk,
        num_read,
        num_eval,
    };
    let mut list = Ace::from(ListNumbers(*entries, *len));
    let added = list.add_circuit_evaluation(entry);
    ListNumbers(*entries, *len) = list.into();
    tell(added, place)
}

pub fn ace_trace_len(entries: &[u32; 96], len: u32, rows_total: &mut u64, place: &mut u64) -> u32
    ensures value { result ≡ code (total_answer (list_of entries.now len)) }
    ensures rows_total_after { rows_total.new ≡ value_or 0 rows_total.old (total_answer (list_of entries.now len)) }
    ensures place_after { place.new ≡ place_told (total_answer (list_of entries.now len)) }
{
    let total = Ace::from(ListNumbers(*entries, len)).trace_len();
    *rows_total = total.unwrap_or(*rows_total);
    tell(total, place)
}

pub fn ace_first_row(entries: &[u32; 96], len: u32, clk: u32, row: &mut u64, place: &mut u64) -> u32
    ensures value { result ≡ code (first_row_answer (list_of entries.now len) clk) }
    ensures row_after { row.new ≡ value_or 0 row.old (first_row_answer (list_of entries.now len) clk) }
    ensures place_after { place.new ≡ place_told (first_row_answer (list_of entries.now len) clk) }
{
    let first = Ace::from(ListNumbers(*entries, len)).first_row(clk);
    *row = first.unwrap_or(*row);
    tell(first, place)
}

// Row fill.
ghost use Rattle.std.specs.Prelude.{◌≡◌};
ghost use Rattle.refusal.specs.Codes.{code, place_told};
ghost use Rattle.trace.specs.Outcome.{lent};
ghost use Rattle.rows.specs.Fill.{fill_answer, filled_rows, fill_state_answer, state_rows};
ghost use Rattle.ace_c.specs.States.{state_of, header_by};

use crate::convert::StateNumbers;
use crate::tell::tell;
use rows::{fill, fill_state};
use trace::{CircuitEvaluation, RecordHeader};

pub fn ace_fill(
    ctx: u32,
    clk: u32,
    num_read: u32,
    num_eval: u32,
    id_next: u64,
    values: &[u64],
    counts: &[u32],
    nodes: &[u64],
    offset: usize,
    rows: &mut [u64],
    place: &mut u64,
) -> u32
    ensures value { result ≡ code (fill_answer (header_by ctx clk num_read num_eval id_next) (lent values.now counts.now nodes.now) offset rows.old) }
    ensures place_after { place.new ≡ place_told (fill_answer (header_by ctx clk num_read num_eval id_next) (lent values.now counts.now nodes.now) offset rows.old) }
    ensures rows_after { rows.new ≡ filled_rows (header_by ctx clk num_read num_eval id_next) (lent values.now counts.now nodes.now) offset rows.old }
{
    let header = RecordHeader {
        ctx,
        clk,
        num_read,
        num_eval,
        id_next,
    };
    tell(fill(header, values, counts, nodes, offset, rows), place)
}

pub fn ace_fill_state(
    state: &[u32; 6],
    id_next: u64,
    values: &[u64],
    counts: &[u32],
    nodes: &[u64],
    offset: usize,
    rows: &mut [u64],
    place: &mut u64,
) -> u32
    ensures value { result ≡ code (fill_state_answer (state_of state.now id_next) (lent values.now counts.now nodes.now) offset rows.old) }
    ensures place_after { place.new ≡ place_told (fill_state_answer (state_of state.now id_next) (lent values.now counts.now nodes.now) offset rows.old) }
    ensures rows_after { rows.new ≡ state_rows (state_of state.now id_next) (lent values.now counts.now nodes.now) offset rows.old }
{
    let state = CircuitEvaluation::from(StateNumbers(*state, id_next));
    tell(
        fill_state(state, values, counts, nodes, offset, rows),
        place,
    )
}

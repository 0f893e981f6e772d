// Row fill: the rows of a record or of a finished evaluation, in a lent row buffer.
#![tactic(auto)]

mod cols;
mod sections;

ghost use Rattle.std.specs.Prelude.{◌≡◌};
ghost use Rattle.trace.specs.Outcome.{lent};
ghost use Rattle.rows.specs.Fill.{fill_told, fill_answer, filled_rows, fill_state_answer, state_rows};

use crate::cols::{eval_cols, read_cols};
use crate::sections::fill_rows;
use refusal::Refusal;
use trace::{CircuitEvaluation, RecordHeader};

// The cells of a row.
pub const ACE_CHIPLET_NUM_COLS: usize = 16;

// "21, 19, 6, 17 (a used value or node cell, or id_next, p or more), then fill 14". "A refusal
// changes nothing."
pub fn fill(
    header: RecordHeader,
    values: &[u64],
    counts: &[u32],
    nodes: &[u64],
    offset: usize,
    rows: &mut [u64],
) -> Result<(), Refusal>
    ensures result_value { fill_told result ≡ fill_answer header (lent values.now counts.now nodes.now) offset rows.old }
    ensures rows_after { rows.new ≡ filled_rows header (lent values.now counts.now nodes.now) offset rows.old }
{
    header.test(values, counts, nodes)?;
    let num_read = header.num_read as usize;
    let num_eval = header.num_eval as usize;
    let num_rows = num_read + num_eval;
    // Offsets and sums are whole numbers: none of them is made before it is known to fit.
    let room = rows.len() / ACE_CHIPLET_NUM_COLS;
    if room < num_rows || room - num_rows < offset {
        return Err(Refusal::ShortRows);
    }
    fill_rows(
        rows,
        offset,
        num_read,
        |i| read_cols(header, counts, nodes, i),
    );
    fill_rows(
        rows,
        offset + num_read,
        num_eval,
        |j| eval_cols(header, counts, nodes, j),
    );
    Ok(())
}

// "Given a step state, 13 and 11 come before these."
#[tactic(auto, using(crate::proofs::Filling::state_refused))]
pub fn fill_state(
    state: CircuitEvaluation,
    values: &[u64],
    counts: &[u32],
    nodes: &[u64],
    offset: usize,
    rows: &mut [u64],
) -> Result<(), Refusal>
    ensures result_value { fill_told result ≡ fill_state_answer state (lent values.now counts.now nodes.now) offset rows.old }
    ensures rows_after { rows.new ≡ state_rows state (lent values.now counts.now nodes.now) offset rows.old }
{
    let header = state.finalized()?;
    fill(header, values, counts, nodes, offset, rows)
}

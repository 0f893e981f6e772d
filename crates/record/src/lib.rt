// Records as bytes: the writer and the reader.
#![tactic(auto)]

mod find;
mod load;
mod parts;
mod put;
mod width;

ghost use Rattle.std.specs.Prelude.{◌≡◌};
ghost use Rattle.numbers.specs.Answer.{write_told};
ghost use Rattle.trace.specs.Outcome.{lent};
ghost use Rattle.trace.specs.Record.{header_told};
ghost use Rattle.record.specs.Bytes.{write_into_answer, written_into, write_state_answer, written_state};
ghost use Rattle.record.specs.Reading.{read_from_answer, read_buffers};

use crate::find::find;
use crate::load::load;
use crate::put::put_record;
use crate::width::record_width;
use refusal::Refusal;
use trace::{CircuitEvaluation, RecordHeader};

// "21, 19, 6, 17 (a used value or node cell, or id_next, p or more), then" "writer 24". "A refusal
// changes nothing." It answers the number of bytes.
pub fn write_into(
    header: RecordHeader,
    values: &[u64],
    counts: &[u32],
    nodes: &[u64],
    out: &mut [u8],
) -> Result<usize, Refusal>
    ensures result_value { write_told result ≡ write_into_answer header (lent values.now counts.now nodes.now) out.old }
    ensures out_after { out.new ≡ written_into header (lent values.now counts.now nodes.now) out.old }
{
    header.test(values, counts, nodes)?;
    let width = record_width(header, values, counts, nodes);
    if out.len() < width {
        return Err(Refusal::NoRoom);
    }
    put_record(header, values, counts, nodes, out);
    Ok(width)
}

// "Given a step state, 13 and 11 come before these."
#[tactic(auto, using(crate::proofs::RecordWriting::state_refused))]
pub fn write_state_into(
    state: CircuitEvaluation,
    values: &[u64],
    counts: &[u32],
    nodes: &[u64],
    out: &mut [u8],
) -> Result<usize, Refusal>
    ensures result_value { write_told result ≡ write_state_answer state (lent values.now counts.now nodes.now) out.old }
    ensures out_after { out.new ≡ written_state state (lent values.now counts.now nodes.now) out.old }
{
    let header = state.finalized()?;
    write_into(header, values, counts, nodes, out)
}

// "In field order 15, 16, 17 at each number and 24 at each list length that passes the room; after
// the declared count 18, 19, 20; at the end 21, 19, 22, 23. A refusal changes nothing": so all is
// looked at before anything is written.
pub fn read_from(
    source: &[u8],
    values: &mut [u64],
    counts: &mut [u32],
    nodes: &mut [u64],
) -> Result<RecordHeader, Refusal>
    ensures result_value { header_told result ≡ read_from_answer source.now (lent values.old counts.old nodes.old) }
    ensures nodes_after { lent values.new counts.new nodes.new ≡ read_buffers source.now (lent values.old counts.old nodes.old) }
{
    find(source, values.len(), counts.len(), nodes.len())?;
    Ok(load(source, values, counts, nodes))
}

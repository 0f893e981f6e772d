// The bytes of a record: writer and reader.
ghost use Rattle.std.specs.Prelude.{◌≡◌};
ghost use Rattle.refusal.specs.Codes.{code, value_or, values_or, place_told};
ghost use Rattle.trace.specs.Outcome.{lent};
ghost use Rattle.record.specs.Bytes.{write_into_answer, written_into, write_state_answer, written_state};
ghost use Rattle.record.specs.Reading.{read_from_answer, read_buffers};
ghost use Rattle.ace_c.specs.States.{state_of, header_by};

use crate::convert::StateNumbers;
use crate::tell::{hand_back, tell};
use record::{read_from, write_into, write_state_into};
use trace::{CircuitEvaluation, RecordHeader};

pub fn ace_write_into(
    ctx: u32,
    clk: u32,
    num_read: u32,
    num_eval: u32,
    id_next: u64,
    values: &[u64],
    counts: &[u32],
    nodes: &[u64],
    out: &mut [u8],
    length: &mut u64,
    place: &mut u64,
) -> u32
    ensures value { result ≡ code (write_into_answer (header_by ctx clk num_read num_eval id_next) (lent values.now counts.now nodes.now) out.old) }
    ensures length_after { length.new ≡ value_or 0 length.old (write_into_answer (header_by ctx clk num_read num_eval id_next) (lent values.now counts.now nodes.now) out.old) }
    ensures place_after { place.new ≡ place_told (write_into_answer (header_by ctx clk num_read num_eval id_next) (lent values.now counts.now nodes.now) out.old) }
    ensures out_after { out.new ≡ written_into (header_by ctx clk num_read num_eval id_next) (lent values.now counts.now nodes.now) out.old }
{
    let header = RecordHeader {
        ctx,
        clk,
        num_read,
        num_eval,
        id_next,
    };
    let written = write_into(header, values, counts, nodes, out);
    *length = written.map_or(*length, |bytes| bytes as u64);
    tell(written, place)
}

pub fn ace_write_state_into(
    state: &[u32; 6],
    id_next: u64,
    values: &[u64],
    counts: &[u32],
    nodes: &[u64],
    out: &mut [u8],
    length: &mut u64,
    place: &mut u64,
) -> u32
    ensures value { result ≡ code (write_state_answer (state_of state.now id_next) (lent values.now counts.now nodes.now) out.old) }
    ensures length_after { length.new ≡ value_or 0 length.old (write_state_answer (state_of state.now id_next) (lent values.now counts.now nodes.now) out.old) }
    ensures place_after { place.new ≡ place_told (write_state_answer (state_of state.now id_next) (lent values.now counts.now nodes.now) out.old) }
    ensures out_after { out.new ≡ written_state (state_of state.now id_next) (lent values.now counts.now nodes.now) out.old }
{
    let state = CircuitEvaluation::from(StateNumbers(*state, id_next));
    let written = write_state_into(state, values, counts, nodes, out);
    *length = written.map_or(*length, |bytes| bytes as u64);
    tell(written, place)
}

pub fn ace_read_from(
    bytes: &[u8],
    values: &mut [u64],
    counts: &mut [u32],
    nodes: &mut [u64],
    header: &mut [u64; 5],
    place: &mut u64,
) -> u32
    ensures value { result ≡ code (read_from_answer bytes.now (lent values.old counts.old nodes.old)) }
    ensures header_after { header.new ≡ values_or 5 header.old (read_from_answer bytes.now (lent values.old counts.old nodes.old)) }
    ensures place_after { place.new ≡ place_told (read_from_answer bytes.now (lent values.old counts.old nodes.old)) }
    ensures nodes_after { lent values.new counts.new nodes.new ≡ read_buffers bytes.now (lent values.old counts.old nodes.old) }
{
    let read = read_from(bytes, values, counts, nodes);
    hand_back(read, header);
    tell(read, place)
}

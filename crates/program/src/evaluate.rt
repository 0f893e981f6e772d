// The evaluation of what was read, and its text.
ghost use Rattle.std.specs.Prelude.{◌≡◌, ◌+◌, ◌≤◌, false, length};
ghost use Rattle.std.proofs.lemmas.List.Edits.{sets};
ghost use Rattle.trace.specs.Outcome.{lent};
ghost use Rattle.program.specs.Input.{over_room};
ghost use Rattle.program.specs.Answer.{most_text};
ghost use Rattle.program.specs.Inside.{Fits, record_text, eval_text};

use crate::read::Head;
use crate::text::{put_lines, put_refusal, put_word};
use eval_circuit::eval_circuit;
use rows::{ACE_CHIPLET_NUM_COLS, fill};
use trace::RecordHeader;

// Room for 128 wires: two cells and a count of each, and eleven cells of an EVAL node; and for as
// many rows.
const VALUES: usize = 256;

const COUNTS: usize = 128;

const NODES: usize = 1408;

const ROWS: usize = 2048;

// "The first line gives rows and wires."
fn put_record(
    header: RecordHeader,
    values: &[u64],
    counts: &[u32],
    nodes: &[u64],
    out: &mut [u8],
) -> usize
    requires { Fits header (lent values.now counts.now nodes.now) out.old }
    ensures value { result ≡ length (record_text header (lent values.now counts.now nodes.now)) }
    ensures out_after { out.new ≡ sets out.old 0 (record_text header (lent values.now counts.now nodes.now)) }
{
    let mut rows = [0u64; ROWS];
    fill(header, values, counts, nodes, 0, &mut rows).unwrap();
    let num_rows = header.num_read as usize + header.num_eval as usize;
    let num_wires = 2 * header.num_read as u64 + header.num_eval as u64;
    let first = [num_rows as u64, num_wires];
    let first_at = put_word(b"accept ", out);
    let rows_at = put_lines(&first, 2, out, first_at);
    let cells = &rows[..ACE_CHIPLET_NUM_COLS * num_rows];
    put_lines(cells, ACE_CHIPLET_NUM_COLS, out, rows_at)
}

pub fn evaluate(head: Head, memory: &[u64], out: &mut [u8]) -> usize
    requires { (over_room (head.num_vars + head.num_eval) ≡ false) × (most_text ≤ length out.old) }
    ensures value { result ≡ length (eval_text head.ctx head.clk head.ptr head.num_vars head.num_eval memory.now) }
    ensures out_after { out.new ≡ sets out.old 0 (eval_text head.ctx head.clk head.ptr head.num_vars head.num_eval memory.now) }
{
    let mut values = [0u64; VALUES];
    let mut counts = [0u32; COUNTS];
    let mut nodes = [0u64; NODES];
    let answer = eval_circuit(
        head.ctx,
        head.clk,
        head.ptr,
        head.num_vars,
        head.num_eval,
        memory,
        &mut values,
        &mut counts,
        &mut nodes,
    );
    match answer {
        Ok(header) => put_record(header, &values, &counts, &nodes, out),
        Err(refusal) => put_refusal(refusal, out),
    }
}

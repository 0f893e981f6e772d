// The numbers of a record, in the runs in which they are written one after the other.
ghost use Rattle.std.specs.Prelude.{◌≡◌, [], ◌∷◌, ◌+◌, ◌*◌, ◌≤◌, ◌<◌, length, take, drop};
ghost use Rattle.trace.specs.Record.{record_wires, record_cells};
ghost use Rattle.record.specs.Bytes.{wire_numbers};

use trace::{EVAL_CELLS, READ_CELLS, RecordHeader};

pub fn num_wires(header: RecordHeader) -> usize
    ensures { result ≡ record_wires header }
{
    2 * header.num_read as usize + header.num_eval as usize
}

// "ctx, clk, id_next; wire list length".
pub fn head(header: RecordHeader) -> [u64; 4]
    ensures { result ≡ header.ctx ∷ header.clk ∷ header.id_next ∷ record_wires header ∷ [] }
{
    [
        u64::from(header.ctx),
        u64::from(header.clk),
        header.id_next,
        num_wires(header) as u64,
    ]
}

// "Each wire as two elements and its count".
pub fn wire(values: &[u64], counts: &[u32], k: usize) -> [u64; 3]
    requires { (2 * k + 1 < length values.now) × (k < length counts.now) }
    ensures { result ≡ wire_numbers values.now counts.now k }
{
    [values[2 * k], values[2 * k + 1], u64::from(counts[k])]
}

// The cells of the READ nodes, and of the EVAL nodes behind them.
pub fn node_cells(header: RecordHeader, nodes: &[u64]) -> (&[u64], &[u64])
    requires { record_cells header ≤ length nodes.now }
    ensures reads { result.0.now ≡ take (7 * header.num_read) nodes.now }
    ensures evals { result.1.now ≡ take (11 * header.num_eval) (drop (7 * header.num_read) nodes.now) }
{
    let read_cells = READ_CELLS * header.num_read as usize;
    let eval_cells = EVAL_CELLS * header.num_eval as usize;
    nodes[..read_cells + eval_cells].split_at(read_cells)
}

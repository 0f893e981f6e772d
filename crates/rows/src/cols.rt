// The columns of a row, by name.
ghost use Rattle.std.specs.Prelude.{◌≡◌, ◌+◌, ◌≤◌, ◌<◌, length};
ghost use Rattle.std.proofs.lemmas.List.Edits.{sets};
ghost use Rattle.rows.specs.Rows.{record_read_row, record_eval_row};
ghost use Rattle.rows.specs.Inside.{col_cells, Held};

use trace::{EVAL_CELLS, READ_CELLS, RecordHeader};

#[derive(Clone, Copy)]
pub struct AceCols {
    pub s_start: u64,
    pub s_block: u64,
    pub ctx: u64,
    pub ptr: u64,
    pub clk: u64,
    pub eval_op: u64,
    pub id_0: u64,
    pub v_0: [u64; 2],
    pub id_1: u64,
    pub v_1: [u64; 2],
    // "READ: num_eval, 0, m_1, m_0; EVAL: id_2, v_2 (two), m_0"
    pub four: [u64; 4],
}

// READ row i. "Counts go by position, as in the Rust, whatever ids the nodes hold."
pub fn read_cols(header: RecordHeader, counts: &[u32], nodes: &[u64], i: usize) -> AceCols
    requires { Held header counts.now nodes.now × (i < header.num_read) }
    ensures { col_cells result ≡ record_read_row header counts.now nodes.now i }
{
    let at = READ_CELLS * i;
    let m_0 = u64::from(counts[2 * i]);
    let m_1 = u64::from(counts[2 * i + 1]);
    let last_eval = u64::from(header.num_eval) - 1;
    AceCols {
        // "s_start is 1 only on the first READ row."
        s_start: u64::from(i == 0),
        s_block: 0,
        ctx: u64::from(header.ctx),
        ptr: nodes[at],
        clk: u64::from(header.clk),
        eval_op: 0,
        id_0: nodes[at + 1],
        v_0: [nodes[at + 2], nodes[at + 3]],
        id_1: nodes[at + 4],
        v_1: [nodes[at + 5], nodes[at + 6]],
        four: [last_eval, 0, m_1, m_0],
    }
}

// EVAL row j. One function for both kinds would branch at each column: no cell and no count lies alike.
pub fn eval_cols(header: RecordHeader, counts: &[u32], nodes: &[u64], j: usize) -> AceCols
    requires { Held header counts.now nodes.now × (j < header.num_eval) }
    ensures { col_cells result ≡ record_eval_row header counts.now nodes.now j }
{
    let num_read = header.num_read as usize;
    let at = READ_CELLS * num_read + EVAL_CELLS * j;
    let m_0 = u64::from(counts[2 * num_read + j]);
    AceCols {
        s_start: 0,
        s_block: 1,
        ctx: u64::from(header.ctx),
        ptr: nodes[at],
        clk: u64::from(header.clk),
        eval_op: nodes[at + 1],
        id_0: nodes[at + 2],
        v_0: [nodes[at + 3], nodes[at + 4]],
        id_1: nodes[at + 5],
        v_1: [nodes[at + 6], nodes[at + 7]],
        four: [nodes[at + 8], nodes[at + 9], nodes[at + 10], m_0],
    }
}

// No `From`: the columns in their order are asked for here alone.
impl AceCols {
    pub(crate) fn put(self, rows: &mut [u64], at: usize)
        requires { at + 16 ≤ length rows.old }
        ensures { rows.new ≡ sets rows.old at (col_cells self) }
    {
        let cells = [
            self.s_start,
            self.s_block,
            self.ctx,
            self.ptr,
            self.clk,
            self.eval_op,
            self.id_0,
            self.v_0[0],
            self.v_0[1],
            self.id_1,
            self.v_1[0],
            self.v_1[1],
            self.four[0],
            self.four[1],
            self.four[2],
            self.four[3],
        ];
        buffer::put(&cells, rows, at);
    }
}

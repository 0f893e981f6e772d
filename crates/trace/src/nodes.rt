// "7 a READ node (ptr, id_0, v_0, id_1, v_1), then 11 an EVAL node (ptr, eval_op, id_0, v_0, id_1,
// v_1, id_2, v_2), a pair taking two cells."
ghost use Rattle.std.specs.Prelude.{◌≡◌, ◌+◌, ◌≤◌, length};
ghost use Rattle.std.proofs.lemmas.List.Edits.{sets};
ghost use Rattle.trace.specs.Inside.{read_cells, eval_cells};

#[derive(Clone, Copy)]
pub struct ReadNode {
    pub ptr: u64,
    pub id_0: u64,
    pub v_0: [u64; 2],
    pub id_1: u64,
    pub v_1: [u64; 2],
}

#[derive(Clone, Copy)]
pub struct EvalNode {
    pub ptr: u64,
    pub eval_op: u64,
    pub id_0: u64,
    pub v_0: [u64; 2],
    pub id_1: u64,
    pub v_1: [u64; 2],
    pub id_2: u64,
    pub v_2: [u64; 2],
}

// No `From`: the cells in their order are asked for here alone.
impl ReadNode {
    pub(crate) fn put(self, nodes: &mut [u64], at: usize)
        requires { at + 7 ≤ length nodes.old }
        ensures { nodes.new ≡ sets nodes.old at (read_cells self) }
    {
        let cells = [
            self.ptr,
            self.id_0,
            self.v_0[0],
            self.v_0[1],
            self.id_1,
            self.v_1[0],
            self.v_1[1],
        ];
        buffer::put(&cells, nodes, at);
    }
}

impl EvalNode {
    pub(crate) fn put(self, nodes: &mut [u64], at: usize)
        requires { at + 11 ≤ length nodes.old }
        ensures { nodes.new ≡ sets nodes.old at (eval_cells self) }
    {
        let cells = [
            self.ptr,
            self.eval_op,
            self.id_0,
            self.v_0[0],
            self.v_0[1],
            self.id_1,
            self.v_1[0],
            self.v_1[1],
            self.id_2,
            self.v_2[0],
            self.v_2[1],
        ];
        buffer::put(&cells, nodes, at);
    }
}

// What an accepted step writes, once its tests have passed.
ghost use Rattle.std.specs.Prelude.{◌≡◌};
ghost use Rattle.field.specs.Answer.{pair_of};
ghost use Rattle.field.specs.Pair.{Elements};
ghost use Rattle.instruction.specs.Decode.{op_number};
ghost use Rattle.trace.specs.Outcome.{lent};
ghost use Rattle.trace.specs.Read.{read_made};
ghost use Rattle.trace.specs.Eval.{eval_made};
ghost use Rattle.trace.specs.Inside.{Room, ReadReady, EvalReady, bus_of};

use crate::nodes::{EvalNode, ReadNode};
use crate::operation::{apply, eval_op};
use crate::wire_bus::WireBus;
use crate::{CircuitEvaluation, EVAL_CELLS, READ_CELLS};
use instruction::Op;

impl CircuitEvaluation {
    pub(crate) fn wire_bus(self) -> WireBus
        ensures { result ≡ bus_of self }
    {
        WireBus {
            num_wires: self.num_wires(),
            made: self.made(),
        }
    }

    // The two wires of a word, and their node.
    pub(crate) fn read(
        self,
        ptr: u64,
        v_0: [u64; 2],
        v_1: [u64; 2],
        values: &mut [u64],
        counts: &mut [u32],
        nodes: &mut [u64],
    )
        requires { Room self values.old counts.old nodes.old × ReadReady self }
        ensures { lent values.new counts.new nodes.new ≡ read_made self ptr (pair_of v_0) (pair_of v_1) (lent values.old counts.old nodes.old) }
    {
        let bus = self.wire_bus();
        let id = self.id_next;
        let next = bus.insert(v_0, values, counts);
        next.insert(v_1, values, counts);
        let node = ReadNode {
            ptr,
            id_0: id,
            v_0,
            id_1: id - 1,
            v_1,
        };
        node.put(nodes, READ_CELLS * self.reads_done as usize);
    }

    // A gate's wire, from its operands' values, and its node.
    pub(crate) fn gate(
        self,
        ptr: u64,
        id_l: u32,
        id_r: u32,
        op: Op,
        v_l: [u64; 2],
        v_r: [u64; 2],
        values: &mut [u64],
        counts: &mut [u32],
        nodes: &mut [u64],
    )
        requires { Room self values.old counts.old nodes.old × EvalReady self × Elements (pair_of v_l) × Elements (pair_of v_r) }
        ensures { lent values.new counts.new nodes.new ≡ eval_made self ptr id_l id_r (op_number op) (pair_of v_l) (pair_of v_r) (lent values.old counts.old nodes.old) }
    {
        let bus = self.wire_bus();
        let v_0 = apply(op, v_l, v_r);
        bus.insert(v_0, values, counts);
        let node = EvalNode {
            ptr,
            eval_op: eval_op(op),
            id_0: self.id_next,
            v_0,
            id_1: id_l as u64,
            v_1: v_l,
            id_2: id_r as u64,
            v_2: v_r,
        };
        let reads = READ_CELLS * self.num_read as usize;
        node.put(nodes, reads + EVAL_CELLS * self.evals_done as usize);
    }
}

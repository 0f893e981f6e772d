// Wires and steps: a circuit is evaluated one READ or EVAL step at a time, over lent value cells,
// counts and node cells. The state goes in by value and comes back with the answer. The three are
// parameters apart in every crate: a lent struct of them asks of each contract a second clause, that
// its slices were not exchanged, and has to be made for every call.
#![tactic(auto)]

pub mod counts;
mod nodes;
mod operation;
mod state;
mod steps;
mod wire_bus;

ghost use Rattle.std.specs.Prelude.{◌≡◌, [], length};
ghost use Rattle.refusal.specs.Told.{accepted};
ghost use Rattle.trace.specs.Outcome.{lent, step_outcome};
ghost use Rattle.trace.specs.Open.{numbers_of, open_told, open_answer};
ghost use Rattle.trace.specs.Read.{read_step};
ghost use Rattle.trace.specs.Eval.{eval_step};
ghost use Rattle.trace.specs.Output.{header_numbers, output_told, output_answer};
ghost use Rattle.trace.specs.Record.{tested_told, header_told, of_record, finalized_answer};

use crate::counts::test_counts;
use crate::operation::before;
use crate::state::has_room;
use field::P;
use field::cells::first_over;
use instruction::decode_instruction;
use refusal::Refusal;

pub const MAX_EVAL_CIRCUIT_WIRES: u32 = 1 << 15;

pub const MAX_NUM_ACE_WIRES: u32 = (1 << 30) - 1;

// The cells of a READ node and of an EVAL node.
pub const READ_CELLS: usize = 7;

pub const EVAL_CELLS: usize = 11;

#[derive(Clone, Copy, Debug, PartialEq, Eq)]
pub struct CircuitEvaluation {
    pub ctx: u32,
    pub clk: u32,
    pub num_read: u32,
    pub num_eval: u32,
    pub reads_done: u32,
    pub evals_done: u32,
    pub id_next: u64,
}

#[derive(Clone, Copy, Debug, PartialEq, Eq)]
pub struct RecordHeader {
    pub ctx: u32,
    pub clk: u32,
    pub num_read: u32,
    pub num_eval: u32,
    pub id_next: u64,
}

// What a refused step gives back: the state as it was, and the refusal.
#[derive(Clone, Copy, Debug, PartialEq, Eq)]
pub struct RefusedStep {
    pub state: CircuitEvaluation,
    pub refusal: Refusal,
}

impl From<CircuitEvaluation> for [u64; 7] {
    ghost from_gives = { λ state numbers. numbers ≡ numbers_of state };

    fn from(state: CircuitEvaluation) -> [u64; 7] {
        [
            state.ctx.into(),
            state.clk.into(),
            state.num_read.into(),
            state.num_eval.into(),
            state.reads_done.into(),
            state.evals_done.into(),
            state.id_next,
        ]
    }
}

impl From<RecordHeader> for [u64; 5] {
    ghost from_gives = { λ header numbers. numbers ≡ header_numbers header };

    fn from(header: RecordHeader) -> [u64; 5] {
        [
            header.ctx.into(),
            header.clk.into(),
            header.num_read.into(),
            header.num_eval.into(),
            header.id_next,
        ]
    }
}

impl From<RefusedStep> for Refusal {
    ghost from_gives = { λ step refusal. refusal ≡ step.refusal };

    fn from(step: RefusedStep) -> Refusal {
        step.refusal
    }
}

impl CircuitEvaluation {
    // "Opening writes no lent cell."
    pub fn new(
        ctx: u32,
        clk: u32,
        num_read: u32,
        num_eval: u32,
        values: &[u64],
        counts: &[u32],
        nodes: &[u64],
    ) -> Result<Self, Refusal>
        ensures { open_told result ≡ open_answer ctx clk num_read num_eval (lent values.now counts.now nodes.now) }
    {
        test_counts(num_read, num_eval)?;
        if !has_room(num_read, num_eval, values.len(), counts.len(), nodes.len()) {
            return Err(Refusal::ShortBuffer);
        }
        Ok(CircuitEvaluation {
            ctx,
            clk,
            num_read,
            num_eval,
            reads_done: 0,
            evals_done: 0,
            id_next: 2 * num_read as u64 + num_eval as u64 - 1,
        })
    }

    // "Each step hands the state on by value and gives it back."
    // By `match`, here and in an EVAL step: with `map_err` an evaluation takes a tenth longer.
    pub fn do_read(
        mut self,
        ptr: u64,
        word: [[u64; 2]; 2],
        values: &mut [u64],
        counts: &mut [u32],
        nodes: &mut [u64],
    ) -> Result<Self, RefusedStep>
        ensures { step_outcome result (lent values.new counts.new nodes.new) ≡ read_step self ptr word (lent values.old counts.old nodes.old) }
    {
        let tested = self.test_read(ptr, word, values.len(), counts.len(), nodes.len());
        if let Err(refusal) = tested {
            return Err(self.refused(refusal));
        }
        self.read(ptr, word[0], word[1], values, counts, nodes);
        self.reads_done += 1;
        self.id_next -= 2;
        Ok(self)
    }

    pub fn do_eval(
        mut self,
        ptr: u64,
        instruction: u64,
        values: &mut [u64],
        counts: &mut [u32],
        nodes: &mut [u64],
    ) -> Result<Self, RefusedStep>
        ensures { step_outcome result (lent values.new counts.new nodes.new) ≡ eval_step self ptr instruction (lent values.old counts.old nodes.old) }
    {
        let tested = self.test_eval(ptr, instruction, values.len(), counts.len(), nodes.len());
        if let Err(refusal) = tested {
            return Err(self.refused(refusal));
        }
        let gate = self.evals_done as u64;
        let Ok((id_l, id_r, op)) = decode_instruction(instruction) else {
            return Err(self.refused(Refusal::NotInstruction(gate)));
        };
        let bus = self.wire_bus();
        // "As in the Rust, the left count is raised before the right operand is looked at, and
        // stays raised where the right is refused."
        let left = bus.read_value(id_l as usize, Refusal::LeftNotMade(gate), values, counts);
        let v_l = match left {
            Ok(value) => value,
            Err(refusal) => return Err(self.refused(refusal)),
        };
        let right = bus.read_value(id_r as usize, Refusal::RightNotMade(gate), values, counts);
        let v_r = match right {
            Ok(value) => value,
            Err(refusal) => return Err(self.refused(refusal)),
        };
        self.gate(ptr, id_l, id_r, op, v_l, v_r, values, counts, nodes);
        self.evals_done += 1;
        self.id_next = before(self.id_next);
        Ok(self)
    }

    // "The result: 13, 6, 11, 12, changing nothing."
    pub fn output_value(
        self,
        values: &[u64],
        counts: &[u32],
        nodes: &[u64],
    ) -> Result<RecordHeader, Refusal>
        ensures { output_told result ≡ output_answer self (lent values.now counts.now nodes.now) }
    {
        if !self.is_sound() {
            return Err(Refusal::OutOfTurn);
        }
        if !has_room(
            self.num_read,
            self.num_eval,
            values.len(),
            counts.len(),
            nodes.len(),
        ) {
            return Err(Refusal::ShortBuffer);
        }
        let num_wires = self.num_wires();
        if self.made() != num_wires {
            return Err(Refusal::NotFinished);
        }
        if values[2 * (num_wires - 1)] != 0 {
            return Err(Refusal::NotZero);
        }
        if values[2 * (num_wires - 1) + 1] != 0 {
            return Err(Refusal::NotZero);
        }
        Ok(self.header())
    }

    // The header of a state whose steps are all done: "13 and 11 come before" what a record is
    // tested for. What the last wire holds is not asked.
    pub fn finalized(self) -> Result<RecordHeader, Refusal>
        ensures { header_told result ≡ finalized_answer self }
    {
        if !self.is_sound() {
            Err(Refusal::OutOfTurn)
        } else if self.made() != self.num_wires() {
            Err(Refusal::NotFinished)
        } else {
            Ok(self.header())
        }
    }
}

impl RecordHeader {
    // "21, 19, 6, 17 (a used value or node cell, or id_next, p or more)."
    pub fn test(self, values: &[u64], counts: &[u32], nodes: &[u64]) -> Result<(), Refusal>
        ensures { tested_told result ≡ of_record self (lent values.now counts.now nodes.now) (accepted []) }
    {
        if self.num_eval == 0 {
            return Err(Refusal::NoEvalNode);
        }
        let num_wires = 2 * self.num_read as usize + self.num_eval as usize;
        if (MAX_NUM_ACE_WIRES as usize) < num_wires {
            return Err(Refusal::OverMaxWires);
        }
        if !has_room(
            self.num_read,
            self.num_eval,
            values.len(),
            counts.len(),
            nodes.len(),
        ) {
            return Err(Refusal::ShortBuffer);
        }
        if first_over(values, 0, 2 * num_wires) < 2 * num_wires {
            return Err(Refusal::OutOfRange(0));
        }
        let cells = READ_CELLS * self.num_read as usize + EVAL_CELLS * self.num_eval as usize;
        if first_over(nodes, 0, cells) < cells {
            return Err(Refusal::OutOfRange(0));
        }
        if P <= self.id_next {
            return Err(Refusal::OutOfRange(0));
        }
        Ok(())
    }
}

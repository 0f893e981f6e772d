// What a state and the lent buffers are tested for before a step.
ghost use Rattle.std.specs.Prelude.{◌≡◌, [], ◌∷◌, ◌&&◌, ◌||◌, eqb, leb, ◌≤◌, ◌<◌};
ghost use Rattle.refusal.specs.Told.{accepted};
ghost use Rattle.field.specs.Field.{p};
ghost use Rattle.field.specs.Answer.{of_elements};
ghost use Rattle.trace.specs.Counts.{most_wires, room, with_room};
ghost use Rattle.trace.specs.State.{wires_of, made_of, next_id, sound, in_turn, read_turn, eval_turn};
ghost use Rattle.trace.specs.Read.{read_tests};
ghost use Rattle.trace.specs.Eval.{eval_tests};
ghost use Rattle.trace.specs.Output.{header_of};
ghost use Rattle.trace.specs.Record.{tested_told};

use crate::counts::test_counts;
use crate::{
    CircuitEvaluation, EVAL_CELLS, MAX_EVAL_CIRCUIT_WIRES, READ_CELLS, RecordHeader, RefusedStep,
};
use field::P;
use field::cells::test_elements;
use refusal::Refusal;

// Whether buffers of these lengths hold the whole circuit.
pub fn has_room(num_read: u32, num_eval: u32, values: usize, counts: usize, nodes: usize) -> bool
    ensures { result ≡ room num_read num_eval values counts nodes }
{
    let reads = num_read as usize;
    let evals = num_eval as usize;
    let num_wires = 2 * reads + evals;
    if values < 2 * num_wires {
        return false;
    }
    if counts < num_wires {
        return false;
    }
    READ_CELLS * reads + EVAL_CELLS * evals <= nodes
}

impl CircuitEvaluation {
    // A refused step gives the state back beside the refusal.
    pub(crate) fn refused(self, refusal: Refusal) -> RefusedStep
        ensures { result ≡ record { state = self; refusal = refusal } }
    {
        RefusedStep {
            state: self,
            refusal,
        }
    }

    pub(crate) fn header(self) -> RecordHeader
        ensures { result ≡ header_of self }
    {
        RecordHeader {
            ctx: self.ctx,
            clk: self.clk,
            num_read: self.num_read,
            num_eval: self.num_eval,
            id_next: self.id_next,
        }
    }

    pub(crate) fn num_wires(self) -> usize
        ensures { result ≡ wires_of self }
    {
        2 * self.num_read as usize + self.num_eval as usize
    }

    pub(crate) fn made(self) -> usize
        ensures { result ≡ made_of self }
    {
        2 * self.reads_done as usize + self.evals_done as usize
    }

    // "All READ steps come before the EVAL steps."
    fn in_order(self) -> bool
        ensures { result ≡ (eqb self.evals_done 0 || eqb self.reads_done self.num_read) }
    {
        if self.evals_done == 0 {
            return true;
        }
        self.reads_done == self.num_read
    }

    // "Counts opening would accept, steps done not past their end, id_next as they say."
    pub(crate) fn is_sound(self) -> bool
        ensures { result ≡ sound self }
    {
        if test_counts(self.num_read, self.num_eval).is_err() {
            return false;
        }
        if self.num_read < self.reads_done {
            return false;
        }
        if self.num_eval < self.evals_done {
            return false;
        }
        if !self.in_order() {
            return false;
        }
        self.id_next == next_id(self.num_wires() as u64, self.made() as u64)
    }

    // Whether the circuit is not too large and id_next is as the steps done say.
    fn is_next(self) -> bool
        requires { made_of self < wires_of self }
        ensures { result ≡ (leb (wires_of self) most_wires && eqb self.id_next (next_id (wires_of self) (made_of self))) }
    {
        let num_wires = self.num_wires();
        if (MAX_EVAL_CIRCUIT_WIRES as usize) < num_wires {
            return false;
        }
        self.id_next == (num_wires - 1 - self.made()) as u64
    }

    // A state in which a step is due is sound by fewer tests than another, and every step asks them.
    fn in_read_turn(self) -> bool
        ensures { result ≡ read_turn self }
    {
        if self.num_read <= self.reads_done {
            return false;
        }
        if self.evals_done != 0 {
            return false;
        }
        if self.num_eval == 0 {
            return false;
        }
        self.is_next()
    }

    fn in_eval_turn(self) -> bool
        ensures { result ≡ eval_turn self }
    {
        if self.reads_done != self.num_read {
            return false;
        }
        if self.num_eval <= self.evals_done {
            return false;
        }
        if self.num_read == 0 {
            return false;
        }
        self.is_next()
    }

    // "A step refuses in the order 13, 6, 7 (its own cells; a step returns the cell's number in what
    // it was handed, from 0, the pointer being last)."
    fn test_step(
        self,
        turn: bool,
        handed: &[u64],
        values: usize,
        counts: usize,
        nodes: usize,
    ) -> Result<(), Refusal>
        ensures { tested_told result ≡ in_turn turn (with_room (room self.num_read self.num_eval values counts nodes) (of_elements handed.now (accepted []))) }
    {
        if !turn {
            return Err(Refusal::OutOfTurn);
        }
        if !has_room(self.num_read, self.num_eval, values, counts, nodes) {
            return Err(Refusal::ShortBuffer);
        }
        test_elements(handed)
    }

    #[tactic(auto, unfolding(crate::specs::Read::read_tests))]
    pub(crate) fn test_read(
        self,
        ptr: u64,
        word: [[u64; 2]; 2],
        values: usize,
        counts: usize,
        nodes: usize,
    ) -> Result<(), Refusal>
        ensures { tested_told result ≡ read_tests self (room self.num_read self.num_eval values counts nodes) ptr word }
    {
        let handed = [word[0][0], word[0][1], word[1][0], word[1][1], ptr];
        self.test_step(self.in_read_turn(), &handed, values, counts, nodes)
    }

    pub(crate) fn test_eval(
        self,
        ptr: u64,
        instruction: u64,
        values: usize,
        counts: usize,
        nodes: usize,
    ) -> Result<(), Refusal>
        ensures { tested_told result ≡ eval_tests self (room self.num_read self.num_eval values counts nodes) ptr instruction }
    {
        let handed = [instruction, ptr];
        self.test_step(self.in_eval_turn(), &handed, values, counts, nodes)
    }
}

// The id of the wire that is made after so many others; after the last it is 0 - 1.
fn next_id(num_wires: u64, made: u64) -> u64
    requires { (made ≤ num_wires) × (num_wires < p) }
    ensures { result ≡ next_id num_wires made }
{
    if made < num_wires {
        num_wires - 1 - made
    } else {
        P - 1
    }
}

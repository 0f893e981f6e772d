// The wires of a circuit in the lent value cells and counts.
ghost use Rattle.std.specs.Prelude.{◌≡◌, [], ◌∷◌, ◌+◌, ◌*◌, ◌≤◌, ◌<◌, length, set};
ghost use Rattle.std.proofs.lemmas.List.Edits.{sets};
ghost use Rattle.refusal.specs.Refusal.{number_of, place_of};
ghost use Rattle.field.specs.Answer.{pair_of};
ghost use Rattle.field.specs.Pair.{cells};
ghost use Rattle.trace.specs.Eval.{position, operand_answer};
ghost use Rattle.trace.specs.Inside.{BusRoom, operand_told, counts_after, inserted};

use field::P;
use refusal::Refusal;

// The wire with index `id` is stored at `num_wires - 1 - id`.
#[derive(Clone, Copy)]
pub struct WireBus {
    pub num_wires: usize,
    pub made: usize,
}

impl WireBus {
    // "Making a wire writes its value and count 0."
    pub(crate) fn insert(
        mut self,
        value: [u64; 2],
        values: &mut [u64],
        counts: &mut [u32],
    ) -> WireBus
        requires { (2 * self.made + 2 ≤ length values.old) × (self.made < length counts.old) }
        ensures value { result ≡ inserted self }
        ensures values_after { values.new ≡ sets values.old (2 * self.made) (cells (pair_of value)) }
        ensures counts_after { counts.new ≡ set counts.old self.made 0 }
    {
        let at = self.made;
        values[2 * at] = value[0];
        values[2 * at + 1] = value[1];
        counts[at] = 0;
        self.made = at + 1;
        self
    }

    // Reads the value of the wire with the given id, and raises its count. `unmade` is the refusal of a wire that is not made.
    pub(crate) fn read_value(
        self,
        id: usize,
        unmade: Refusal,
        values: &[u64],
        counts: &mut [u32],
    ) -> Result<[u64; 2], Refusal>
        requires { BusRoom self values.now counts.old }
        ensures result_value { operand_told result ≡ operand_answer (number_of unmade) (place_of unmade) self.num_wires self.made id values.now counts.old }
        ensures counts_after { counts.new ≡ counts_after (operand_told result) (position self.num_wires id) counts.old }
    {
        if self.num_wires <= id {
            return Err(unmade);
        }
        let at = self.num_wires - 1 - id;
        if self.made <= at {
            return Err(unmade);
        }
        let v_0 = values[2 * at];
        if P <= v_0 {
            return Err(Refusal::NotElement(2 * at as u64));
        }
        let v_1 = values[2 * at + 1];
        if P <= v_1 {
            return Err(Refusal::NotElement(2 * at as u64 + 1));
        }
        let count = counts[at];
        if count == u32::MAX {
            return Err(Refusal::OutOfTurn);
        }
        counts[at] = count + 1;
        Ok([v_0, v_1])
    }
}

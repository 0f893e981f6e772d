// The counts of a circuit.
ghost use Rattle.std.specs.Prelude.{◌≡◌, []};
ghost use Rattle.refusal.specs.Told.{accepted};
ghost use Rattle.trace.specs.Counts.{most_wires, of_counts};
ghost use Rattle.trace.specs.Record.{tested_told};

use crate::MAX_EVAL_CIRCUIT_WIRES;
use refusal::Refusal;

// "1 (2·num_read + num_eval over 32768), 2 (num_read zero), 3 (num_eval zero)".
pub fn test_counts(num_read: u32, num_eval: u32) -> Result<(), Refusal>
    ensures { tested_told result ≡ of_counts most_wires num_read num_eval (accepted []) }
{
    if (MAX_EVAL_CIRCUIT_WIRES as u64) < 2 * num_read as u64 + num_eval as u64 {
        return Err(Refusal::TooManyWires);
    }
    if num_read == 0 {
        return Err(Refusal::BadReadCount);
    }
    if num_eval == 0 {
        return Err(Refusal::BadEvalCount);
    }
    Ok(())
}

// The region of a circuit: "ptr + 2·num_vars + num_eval" cells of memory, tested before any step.
ghost use Rattle.std.specs.Prelude.{◌≡◌, []};
ghost use Rattle.refusal.specs.Told.{accepted};
ghost use Rattle.trace.specs.Record.{tested_told};
ghost use Rattle.eval_circuit.specs.Evaluated.{cells_counted, of_region};

use refusal::Refusal;
use trace::MAX_EVAL_CIRCUIT_WIRES;

// "A slice longer than 2^32 counts as 2^32 cells."
const MOST_CELLS: usize = 1 << 32;

// Sums are whole numbers: none of them is made before it is known to fit.
pub fn test_region(ptr: u64, num_vars: u64, num_eval: u64, len: usize) -> Result<(), Refusal>
    ensures { tested_told result ≡ of_region ptr num_vars num_eval (cells_counted len) (accepted []) }
{
    let most = MAX_EVAL_CIRCUIT_WIRES as u64;
    if most < num_vars || most - num_vars < num_eval {
        return Err(Refusal::TooManyWires);
    }
    if num_vars == 0 || num_vars % 2 == 1 {
        return Err(Refusal::BadReadCount);
    }
    if num_eval == 0 || 0 < num_eval % 4 {
        return Err(Refusal::BadEvalCount);
    }
    if 0 < ptr % 4 {
        return Err(Refusal::Unaligned);
    }
    let cells = cells_counted(len) as u64;
    let region = 2 * num_vars + num_eval;
    if cells < region || cells - region < ptr {
        return Err(Refusal::OutOfMemory);
    }
    Ok(())
}

fn cells_counted(len: usize) -> usize
    ensures { result ≡ cells_counted len }
{
    len.min(MOST_CELLS)
}

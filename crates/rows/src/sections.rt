// The rows of a section, of READ rows or of EVAL rows.
ghost use Rattle.std.specs.Prelude.{◌≡◌, ℕ, ◌+◌, ◌*◌, ◌≤◌, ◌<◌, List, length};
ghost use Rattle.std.proofs.lemmas.List.Edits.{sets};
ghost use Rattle.field.specs.Lists.{each};
ghost use Rattle.rows.specs.Inside.{MakesRows};

use crate::ACE_CHIPLET_NUM_COLS;
use crate::cols::AceCols;

// So many rows, one after the other, from row `first` on.
pub fn fill_rows<F: Fn(usize) -> AceCols>(rows: &mut [u64], first: usize, num: usize, cols: F)
    requires made { (i : ℕ) → i < num → F.pre cols i }
    requires room { 16 * (first + num) ≤ length rows.old }
    ensures { (row : ℕ → List ℕ) → MakesRows (F.post cols) num row → rows.new ≡ sets rows.old (16 * first) (each row num) }
{
    for i in 0..num {
        cols(i).put(rows, ACE_CHIPLET_NUM_COLS * (first + i));
    }
}

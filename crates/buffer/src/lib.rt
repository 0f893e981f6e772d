// Cells put into a lent buffer.
#![tactic(auto)]

ghost use Rattle.std.specs.Prelude.{◌≡◌};
ghost use Rattle.buffer.specs.Stored.{stored};

// All cells from a place on, or none where they do not fit.
pub fn put(cells: &[u64], buffer: &mut [u64], at: usize)
    ensures { buffer.new ≡ stored cells.now at buffer.old }
{
    if buffer.len() < cells.len() || buffer.len() - cells.len() < at {
        return;
    }
    // By index: a slip in a copy of the whole slice shows in no invariant, and is refused for its form alone.
    for i in 0..cells.len() {
        buffer[at + i] = cells[i];
    }
}

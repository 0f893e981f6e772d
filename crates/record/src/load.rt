// Loading a record whose bytes have all been looked at.
ghost use Rattle.std.specs.Prelude.{◌≡◌, ◌+◌, ◌*◌, ◌≤◌, length};
ghost use Rattle.std.proofs.lemmas.List.Edits.{sets};
ghost use Rattle.trace.specs.Outcome.{lent};
ghost use Rattle.trace.specs.Output.{header_numbers};
ghost use Rattle.record.specs.Numbers.{number_at, next_at, after, numbers_from};
ghost use Rattle.record.specs.Reading.{values_from, counts_from, header_in, record_in};
ghost use Rattle.record.specs.Inside.{Wires, Found};

use numbers::read;
use trace::{EVAL_CELLS, READ_CELLS, RecordHeader};

// A number and the place after it.
fn number_at(source: &[u8], at: usize) -> (u64, usize)
    ensures value { result.0 ≡ number_at source.now at }
    ensures next { result.1 ≡ next_at source.now at }
{
    read(source, at).unwrap_or((0, at))
}

// Each function from here on answers the place after what it loaded. None refuses, since all was
// found before: program's `read_numbers` does, and is a function of its own for that.
fn load_cells(source: &[u8], at: usize, cells: &mut [u64]) -> usize
    ensures value { result ≡ after (length cells.old) source.now at }
    ensures cells_after { cells.new ≡ numbers_from (length cells.old) source.now at }
{
    let mut next = at;
    for cell in cells {
        (*cell, next) = number_at(source, next);
    }
    next
}

fn load_wires(source: &[u8], at: usize, values: &mut [u64], counts: &mut [u32]) -> usize
    requires { Wires (length counts.old) source.now at × (length values.old ≡ 2 * length counts.old) }
    ensures value { result ≡ after (3 * length counts.old) source.now at }
    ensures values_after { values.new ≡ values_from (length counts.old) source.now at }
    ensures counts_after { counts.new ≡ counts_from (length counts.old) source.now at }
{
    let mut next = at;
    // By index: what stands in the cells that `chunks_exact_mut` lends is not known after the loop.
    for k in 0..counts.len() {
        let count_at = load_cells(source, next, &mut values[2 * k..2 * k + 2]);
        let (count, after) = number_at(source, count_at);
        counts[k] = count as u32;
        next = after;
    }
    next
}

// A list of nodes of `width` cells each, behind its length. It answers the length too.
fn load_nodes(source: &[u8], at: usize, width: usize, nodes: &mut [u64]) -> (u64, usize)
    requires { width * number_at source.now at ≤ length nodes.old }
    ensures len { result.0 ≡ number_at source.now at }
    ensures next { result.1 ≡ after (width * number_at source.now at) source.now (next_at source.now at) }
    ensures nodes_after { nodes.new ≡ sets nodes.old 0 (numbers_from (width * number_at source.now at) source.now (next_at source.now at)) }
{
    let (len, cells_at) = number_at(source, at);
    let next = load_cells(source, cells_at, &mut nodes[..width * len as usize]);
    (len, next)
}

#[tactic(auto, unfolding(crate::specs::Numbers::after, crate::specs::Numbers::numbers_from, crate::specs::Reading::ctx_in, crate::specs::Reading::clk_in, crate::specs::Reading::id_next_in, crate::specs::Reading::wires_in, crate::specs::Reading::wires_at, crate::specs::Reading::declared_at, crate::specs::Reading::read_list_at, crate::specs::Reading::reads_in, crate::specs::Reading::reads_at, crate::specs::Reading::eval_list_at, crate::specs::Reading::evals_in, crate::specs::Reading::evals_at))]
pub fn load(
    source: &[u8],
    values: &mut [u64],
    counts: &mut [u32],
    nodes: &mut [u64],
) -> RecordHeader
    requires { Found source.now (length values.old) (length counts.old) (length nodes.old) }
    ensures result_value { header_numbers result ≡ header_in source.now }
    ensures nodes_after { lent values.new counts.new nodes.new ≡ record_in source.now (lent values.old counts.old nodes.old) }
{
    let mut head = [0; 4];
    let wires_at = load_cells(source, 0, &mut head);
    let [ctx, clk, id_next, num_wires] = head;
    let num_wires = num_wires as usize;
    let used_values = &mut values[..2 * num_wires];
    let used_counts = &mut counts[..num_wires];
    let declared_at = load_wires(source, wires_at, used_values, used_counts);
    let (_, read_list_at) = number_at(source, declared_at);
    let (num_read, eval_list_at) = load_nodes(source, read_list_at, READ_CELLS, nodes);
    let read_cells = READ_CELLS * num_read as usize;
    let eval_nodes = &mut nodes[read_cells..];
    let (num_eval, _) = load_nodes(source, eval_list_at, EVAL_CELLS, eval_nodes);
    RecordHeader {
        ctx: ctx as u32,
        clk: clk as u32,
        num_read: num_read as u32,
        num_eval: num_eval as u32,
        id_next,
    }
}

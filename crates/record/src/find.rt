// Looking at all of a record's bytes, in field order, before anything is written. Each function
// answers the place after what it looked at, behind the number that it found if its caller needs
// that; or the first refusal.
// "ctx, clk, counts and declared wires must be below 2^32, elements below p".
ghost use Rattle.std.specs.Prelude.{◌≡◌, ◌≤◌, ◌<◌, []};
ghost use Rattle.refusal.specs.Told.{accepted, or_else};
ghost use Rattle.numbers.specs.Answer.{read_told};
ghost use Rattle.trace.specs.Record.{tested_told};
ghost use Rattle.record.specs.Numbers.{left_off_told, numbers_answer};
ghost use Rattle.record.specs.Reading.{head_answer, wires_answer, wire_list_answer, declared_answer, nodes_answer, end_answer, fields_answer};

use field::P;
use numbers::{U32_BOUND, read, read_below};
use refusal::Refusal;
use trace::{EVAL_CELLS, MAX_NUM_ACE_WIRES, READ_CELLS};

// n numbers below a bound.
fn find_numbers(source: &[u8], at: usize, n: usize, bound: u64) -> Result<usize, Refusal>
    ensures { left_off_told result ≡ numbers_answer bound n source.now at }
{
    let mut next = at;
    for _ in 0..n {
        (_, next) = read_below(source, next, bound)?;
    }
    Ok(next)
}

// ctx, clk, id_next, and the wire list's length.
#[tactic(auto, using(crate::proofs::Ways::goes_on, crate::proofs::Ways::stops), unfolding(crate::specs::Reading::head_answer))]
fn find_head(source: &[u8]) -> Result<(u64, usize), Refusal>
    ensures { read_told result ≡ head_answer source.now }
{
    let id_next_at = find_numbers(source, 0, 2, U32_BOUND)?;
    let wires_at = find_numbers(source, id_next_at, 1, P)?;
    read(source, wires_at)
}

// "Each wire as two elements and its count."
fn find_wires(source: &[u8], at: usize, n: usize) -> Result<usize, Refusal>
    ensures { left_off_told result ≡ wires_answer n source.now at }
{
    let mut next = at;
    for _ in 0..n {
        let count_at = find_numbers(source, next, 2, P)?;
        next = find_numbers(source, count_at, 1, U32_BOUND)?;
    }
    Ok(next)
}

#[tactic(auto, unfolding(crate::specs::Reading::wire_list_answer))]
fn find_wire_list(
    source: &[u8],
    at: usize,
    n: u64,
    values: usize,
    counts: usize,
) -> Result<usize, Refusal>
    ensures { left_off_told result ≡ wire_list_answer n source.now at values counts }
{
    if ((values / 2) as u64) < n || (counts as u64) < n {
        return Err(Refusal::NoRoom);
    }
    find_wires(source, at, n as usize)
}

// "After the declared count 18, 19, 20."
#[tactic(auto, using(crate::proofs::Ways::goes_on, crate::proofs::Ways::stops), unfolding(crate::specs::Reading::declared_answer))]
fn find_declared(source: &[u8], at: usize, n: u64) -> Result<(u64, usize), Refusal>
    ensures { read_told result ≡ declared_answer n source.now at }
{
    let (declared, next) = read_below(source, at, U32_BOUND)?;
    if declared == 0 {
        return Err(Refusal::NoWires);
    }
    if (MAX_NUM_ACE_WIRES as u64) < declared {
        return Err(Refusal::OverMaxWires);
    }
    if n != declared {
        return Err(Refusal::OtherLength);
    }
    Ok((declared, next))
}

// A list of nodes of `width` cells each, where `used` of the node cells are taken before it.
#[tactic(auto, using(crate::proofs::Ways::goes_on, crate::proofs::Ways::stops), unfolding(crate::specs::Reading::nodes_answer))]
fn find_nodes(
    source: &[u8],
    at: usize,
    used: usize,
    width: usize,
    nodes: usize,
) -> Result<(u64, usize), Refusal>
    requires { (used ≤ nodes) × (0 < width) }
    ensures { read_told result ≡ nodes_answer used width nodes source.now at }
{
    let (len, cells_at) = read(source, at)?;
    if (((nodes - used) / width) as u64) < len {
        return Err(Refusal::NoRoom);
    }
    let next = find_numbers(source, cells_at, width * len as usize, P)?;
    Ok((len, next))
}

// "At the end 21, 19, 22, 23."
#[tactic(auto, unfolding(crate::specs::Reading::end_answer))]
fn find_end(reads: u64, evals: u64, declared: u64, end: usize, len: usize) -> Result<(), Refusal>
    ensures { tested_told result ≡ or_else (end_answer reads evals declared end len) (accepted []) }
{
    if evals == 0 {
        return Err(Refusal::NoEvalNode);
    }
    let most = MAX_NUM_ACE_WIRES as u64;
    if most / 2 < reads || most - 2 * reads < evals {
        return Err(Refusal::OverMaxWires);
    }
    if 2 * reads + evals != declared {
        return Err(Refusal::OtherWires);
    }
    if end < len {
        return Err(Refusal::BytesLeft);
    }
    Ok(())
}

#[tactic(auto, using(crate::proofs::Ways::goes_on, crate::proofs::Ways::stops), unfolding(crate::specs::Reading::fields_answer))]
pub fn find(source: &[u8], values: usize, counts: usize, nodes: usize) -> Result<(), Refusal>
    ensures { tested_told result ≡ or_else (fields_answer source.now values counts nodes) (accepted []) }
{
    let (num_wires, wires_at) = find_head(source)?;
    let declared_at = find_wire_list(source, wires_at, num_wires, values, counts)?;
    let (declared, reads_at) = find_declared(source, declared_at, num_wires)?;
    let (num_read, evals_at) = find_nodes(source, reads_at, 0, READ_CELLS, nodes)?;
    let used = READ_CELLS * num_read as usize;
    let (num_eval, end) = find_nodes(source, evals_at, used, EVAL_CELLS, nodes)?;
    find_end(num_read, num_eval, declared, end, source.len())
}

// "It reads ctx, clk, ptr, num_vars, num_eval, n and n cells as such numbers".
ghost use Rattle.std.specs.Prelude.{◌≡◌, ◌+◌, ◌^◌, [], ◌∷◌, length, IfOk, OnOk};
ghost use Rattle.std.proofs.lemmas.List.Edits.{sets};
ghost use Rattle.refusal.specs.Refusal.{told};
ghost use Rattle.record.specs.Numbers.{after, left_off_told, numbers_from, numbers_answer};
ghost use Rattle.program.specs.Input.{cells_in, cells_at, memory_in, most_cells, head_answer, cells_answer, over_room, input_answer};
ghost use Rattle.program.specs.Inside.{head_numbers};

use crate::MOST_CELLS;
use numbers::{U32_BOUND, read, read_below};
use refusal::Refusal;
use trace::MAX_EVAL_CIRCUIT_WIRES;

// The most wires that the program has room for.
const MOST_WIRES: u64 = 128;

// The numbers before the cells.
#[derive(Clone, Copy)]
pub struct Head {
    pub ctx: u32,
    pub clk: u32,
    pub ptr: u64,
    pub num_vars: u64,
    pub num_eval: u64,
    pub num_cells: u64,
}

// Numbers of any size, one for each cell. It answers the place after them.
fn read_numbers(input: &[u8], at: usize, cells: &mut [u64]) -> Result<usize, Refusal>
    ensures result_value { left_off_told result ≡ numbers_answer (2 ^ 64) (length cells.old) input.now at }
    ensures cells_after { OnOk result (cells.new ≡ numbers_from (length cells.old) input.now at) }
{
    let mut next = at;
    for cell in cells {
        (*cell, next) = read(input, next)?;
    }
    Ok(next)
}

// "ctx and clk below 2^32 (else 17)". It answers the place after the head too.
fn read_head(input: &[u8]) -> Result<(Head, usize), Refusal>
    ensures result_value { told (λ read. 0 ∷ read.1 ∷ []) result ≡ head_answer input.now }
    ensures head { IfOk result (λ read. head_numbers read.0 ≡ numbers_from 6 input.now 0) }
{
    let (ctx, clk_at) = read_below(input, 0, U32_BOUND)?;
    let (clk, ptr_at) = read_below(input, clk_at, U32_BOUND)?;
    let mut rest = [0; 4];
    let cells_at = read_numbers(input, ptr_at, &mut rest)?;
    let [ptr, num_vars, num_eval, num_cells] = rest;
    let head = Head {
        ctx: ctx as u32,
        clk: clk as u32,
        ptr,
        num_vars,
        num_eval,
        num_cells,
    };
    Ok((head, cells_at))
}

// n cells from a place on; n may be anything. It answers the place after them.
fn read_cells(input: &[u8], at: usize, n: u64, memory: &mut [u64]) -> Result<usize, Refusal>
    requires { length memory.old ≡ most_cells }
    ensures result_value { left_off_told result ≡ cells_answer n input.now at }
    ensures memory_after { OnOk result (memory.new ≡ sets memory.old 0 (numbers_from n input.now at)) }
{
    if (MOST_CELLS as u64) < n {
        return Err(Refusal::NoRoom);
    }
    let end = read_numbers(input, at, &mut memory[..n as usize])?;
    if end < input.len() {
        return Err(Refusal::BytesLeft);
    }
    Ok(end)
}

// Whether the wires are more than there is room for, and not so many that they are refused 1. The
// sum is a whole number: it is not made before it is known to fit.
fn over_room(num_vars: u64, num_eval: u64) -> bool
    ensures { result ≡ over_room (num_vars + num_eval) }
{
    let most = MAX_EVAL_CIRCUIT_WIRES as u64;
    if most < num_vars || most - num_vars < num_eval {
        return false;
    }
    MOST_WIRES < num_vars + num_eval
}

pub fn read_input(input: &[u8], memory: &mut [u64]) -> Result<Head, Refusal>
    requires { length memory.old ≡ most_cells }
    ensures result_value { told (λ head. 0 ∷ after (cells_in input.now) input.now (cells_at input.now) ∷ []) result ≡ input_answer input.now }
    ensures head { IfOk result (λ head. head_numbers head ≡ numbers_from 6 input.now 0) }
    ensures memory_after { OnOk result (memory.new ≡ sets memory.old 0 (memory_in input.now)) }
{
    let (head, cells_at) = read_head(input)?;
    read_cells(input, cells_at, head.num_cells, memory)?;
    if over_room(head.num_vars, head.num_eval) {
        return Err(Refusal::NoRoom);
    }
    Ok(head)
}

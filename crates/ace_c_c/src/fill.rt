// Row fill.
ghost use Rattle.std.specs.Prelude.{◌≡◌};
ghost use Rattle.refusal.specs.Codes.{code, place_told};
ghost use Rattle.trace.specs.Outcome.{lent};
ghost use Rattle.rows.specs.Fill.{fill_answer, filled_rows, fill_state_answer, state_rows};
ghost use Rattle.ace_c.specs.States.{state_of, header_by};

#[unsafe(no_mangle)]
pub extern "C" fn ace_fill(
    ctx: u32,
    clk: u32,
    num_read: u32,
    num_eval: u32,
    id_next: u64,
    values: &[u64],
    counts: &[u32],
    nodes: &[u64],
    offset: usize,
    rows: &mut [u64],
    place: &mut u64,
) -> u32
    ensures value { result ≡ code (fill_answer (header_by ctx clk num_read num_eval id_next) (lent values.now counts.now nodes.now) offset rows.old) }
    ensures place_after { place.new ≡ place_told (fill_answer (header_by ctx clk num_read num_eval id_next) (lent values.now counts.now nodes.now) offset rows.old) }
    ensures rows_after { rows.new ≡ filled_rows (header_by ctx clk num_read num_eval id_next) (lent values.now counts.now nodes.now) offset rows.old }
{
    ace_c::fill::ace_fill(
        ctx, clk, num_read, num_eval, id_next, values, counts, nodes, offset, rows, place,
    )
}

#[unsafe(no_mangle)]
pub extern "C" fn ace_fill_state(
    state: &[u32; 6],
    id_next: u64,
    values: &[u64],
    counts: &[u32],
    nodes: &[u64],
    offset: usize,
    rows: &mut [u64],
    place: &mut u64,
) -> u32
    ensures value { result ≡ code (fill_state_answer (state_of state.now id_next) (lent values.now counts.now nodes.now) offset rows.old) }
    ensures place_after { place.new ≡ place_told (fill_state_answer (state_of state.now id_next) (lent values.now counts.now nodes.now) offset rows.old) }
    ensures rows_after { rows.new ≡ state_rows (state_of state.now id_next) (lent values.now counts.now nodes.now) offset rows.old }
{
    ace_c::fill::ace_fill_state(state, id_next, values, counts, nodes, offset, rows, place)
}

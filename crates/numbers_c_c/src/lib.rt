// The functions of `numbers_c` for callers in Rust and C, to which a slice is a pointer and a length.
// A crate of its own: no crate may use a static library, and theorems are shown of `numbers_c`.
#![tactic(auto)]

ghost use Rattle.std.specs.Prelude.{◌≡◌};
ghost use Rattle.refusal.specs.Codes.{code, value_or};
ghost use Rattle.numbers.specs.Form.{width_of};
ghost use Rattle.numbers.specs.Answer.{write_answer, written, read_answer, read_below_answer};
ghost use Rattle.numbers_c.specs.Codes.{place_after};

#[unsafe(no_mangle)]
pub extern "C" fn numbers_width(v: u64) -> usize
    ensures { result ≡ width_of v }
{
    numbers_c::numbers_width(v)
}

#[unsafe(no_mangle)]
pub extern "C" fn numbers_write(v: u64, out: &mut [u8], at: usize, place: &mut u64) -> u32
    ensures value { result ≡ code (write_answer v out.old at) }
    ensures place_after { place.new ≡ place_after 0 (write_answer v out.old at) }
    ensures out_after { out.new ≡ written v out.old at }
{
    numbers_c::numbers_write(v, out, at, place)
}

#[unsafe(no_mangle)]
pub extern "C" fn numbers_read(s: &[u8], at: usize, value: &mut u64, place: &mut u64) -> u32
    ensures value { result ≡ code (read_answer s.now at) }
    ensures value_after { value.new ≡ value_or 0 value.old (read_answer s.now at) }
    ensures place_after { place.new ≡ place_after 1 (read_answer s.now at) }
{
    numbers_c::numbers_read(s, at, value, place)
}

#[unsafe(no_mangle)]
pub extern "C" fn numbers_read_below(
    s: &[u8],
    at: usize,
    bound: u64,
    value: &mut u64,
    place: &mut u64,
) -> u32
    ensures value { result ≡ code (read_below_answer bound s.now at) }
    ensures value_after { value.new ≡ value_or 0 value.old (read_below_answer bound s.now at) }
    ensures place_after { place.new ≡ place_after 1 (read_below_answer bound s.now at) }
{
    numbers_c::numbers_read_below(s, at, bound, value, place)
}

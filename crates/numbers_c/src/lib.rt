// The functions of `numbers` with answers that cross to Rust and C, to which `numbers_c_c` exports
// them. Each but the first gives 0 or a refusal's number. A refusal's place goes where the place
// after the number goes otherwise.
#![tactic(auto)]

ghost use Rattle.std.specs.Prelude.{◌≡◌};
ghost use Rattle.refusal.specs.Codes.{code, value_or};
ghost use Rattle.numbers.specs.Form.{width_of};
ghost use Rattle.numbers.specs.Answer.{write_told, write_answer, written, read_told, read_answer, read_below_answer};
ghost use Rattle.numbers_c.specs.Codes.{place_after};

use refusal::Refusal;

pub fn numbers_width(v: u64) -> usize
    ensures { result ≡ width_of v }
{
    numbers::width(v)
}

pub fn numbers_write(v: u64, out: &mut [u8], at: usize, place: &mut u64) -> u32
    ensures value { result ≡ code (write_answer v out.old at) }
    ensures place_after { place.new ≡ place_after 0 (write_answer v out.old at) }
    ensures out_after { out.new ≡ written v out.old at }
{
    tell(numbers::write(v, out, at), place)
}

pub fn numbers_read(s: &[u8], at: usize, value: &mut u64, place: &mut u64) -> u32
    ensures value { result ≡ code (read_answer s.now at) }
    ensures value_after { value.new ≡ value_or 0 value.old (read_answer s.now at) }
    ensures place_after { place.new ≡ place_after 1 (read_answer s.now at) }
{
    tell_number(numbers::read(s, at), value, place)
}

pub fn numbers_read_below(s: &[u8], at: usize, bound: u64, value: &mut u64, place: &mut u64) -> u32
    ensures value { result ≡ code (read_below_answer bound s.now at) }
    ensures value_after { value.new ≡ value_or 0 value.old (read_below_answer bound s.now at) }
    ensures place_after { place.new ≡ place_after 1 (read_below_answer bound s.now at) }
{
    tell_number(numbers::read_below(s, at, bound), value, place)
}

fn tell_number(answer: Result<(u64, usize), Refusal>, value: &mut u64, place: &mut u64) -> u32
    ensures value { result ≡ code (read_told answer) }
    ensures value_after { value.new ≡ value_or 0 value.old (read_told answer) }
    ensures place_after { place.new ≡ place_after 1 (read_told answer) }
{
    if let Ok((number, _)) = answer {
        *value = number;
    }
    tell(answer.map(|(_, next)| next), place)
}

fn tell(answer: Result<usize, Refusal>, place: &mut u64) -> u32
    ensures value { result ≡ code (write_told answer) }
    ensures place_after { place.new ≡ place_after 0 (write_told answer) }
{
    match answer {
        Ok(next) => {
            *place = next as u64;
            0
        }
        Err(refusal) => {
            *place = refusal.place();
            refusal.number()
        }
    }
}

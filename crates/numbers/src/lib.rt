// "Numbers in groups of seven bits, lowest first, high bit set on all but the last, shortest form,
// at most ten bytes."
#![tactic(auto)]

ghost use Rattle.std.specs.Prelude.{◌≡◌, ◌-◌};
ghost use Rattle.numbers.specs.Form.{width_of, ill_formed};
ghost use Rattle.numbers.specs.Answer.{write_told, write_answer, written, read_told, read_answer, read_below_answer};

use refusal::Refusal;

// The bound of a field of 32 bits.
pub const U32_BOUND: u64 = 1 << 32;

// "A number's byte length comes from its leading zeros."
pub fn width(v: u64) -> usize
    ensures { result ≡ width_of v }
{
    if v == 0 {
        return 1;
    }
    ((63 - v.leading_zeros()) / 7 + 1) as usize
}

// Writes v into out from the place at on, where there is room for all of it, and answers the place after it.
#[tactic(auto, using(crate::proofs::Groups::width_some))]
pub fn write(v: u64, out: &mut [u8], at: usize) -> Result<usize, Refusal>
    ensures result_value { write_told result ≡ write_answer v out.old at }
    ensures out_after { out.new ≡ written v out.old at }
{
    let room = out.len().saturating_sub(at);
    if room < width(v) {
        return Err(Refusal::NoRoom);
    }
    let next = at + width(v);
    let mut rest = v;
    // Ends where rest does: a loop of a known count is unrolled, and numbers of one or two bytes
    // take a quarter longer.
    for byte in &mut out[at..next] {
        if rest < 128 {
            *byte = rest as u8;
            break;
        }
        *byte = (rest % 128 + 128) as u8;
        rest /= 128;
    }
    Ok(next)
}

// The number that starts at the place at of s, and the place after it. Both refusals tell that place.
pub fn read(s: &[u8], at: usize) -> Result<(u64, usize), Refusal>
    ensures { read_told result ≡ read_answer s.now at }
{
    let mut value = 0;
    let mut scale = 1;
    // By index: an iterator over s.get(at..) takes a quarter longer.
    for i in at..s.len() {
        let b = s[i] as u64;
        if ill_formed(i - at, b) {
            return Err(Refusal::NotShortest(at as u64));
        }
        if b < 128 {
            return Ok((value + b * scale, i + 1));
        }
        value += (b - 128) * scale;
        scale *= 128;
    }
    Err(Refusal::CutOff(at as u64))
}

// As read, for a field whose numbers are below bound.
pub fn read_below(s: &[u8], at: usize, bound: u64) -> Result<(u64, usize), Refusal>
    ensures { read_told result ≡ read_below_answer bound s.now at }
{
    let (value, next) = read(s, at)?;
    if value < bound {
        return Ok((value, next));
    }
    Err(Refusal::OutOfRange(at as u64))
}

// Whether b, after n bytes of a number, is a 0 that ends a longer form than the shortest, or a
// tenth byte over 1.
#[tactic(auto, unfolding(crate::specs::Form::ill_formed))]
fn ill_formed(n: usize, b: u64) -> bool
    ensures { result ≡ ill_formed n b }
{
    match (n, b) {
        (_, 0) => n > 0,
        (9, _) => b > 1,
        _ => false,
    }
}

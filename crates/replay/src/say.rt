// What is written: numbers, one after the other.
ghost use Rattle.std.specs.Prelude.{◌≤◌, length};
ghost use Rattle.std.specs.Result.{IfOk};

use refusal::Refusal;
use std::io;

// At most so many bytes are written at once.
const BYTES: usize = 4096;

// Adds a number to the `used` bytes that are to be written, and answers how many there are then.
// No Display: groups of seven bits are no text.
#[tactic(auto, using(crate::proofs::Within::written_within))]
fn put(rt: &impl Print, number: u64, bytes: &mut [u8; BYTES], used: usize) -> io::Result<usize>
    requires { used ≤ length bytes.old }
    ensures { IfOk result (λ next. next ≤ length bytes.new) }
{
    if let Ok(next) = numbers::write(number, bytes, used) {
        return Ok(next);
    }
    rt.write_all(&bytes[..used])?;
    if let Ok(next) = numbers::write(number, bytes, 0) {
        return Ok(next);
    }
    Ok(0)
}

fn put_all<T: Copy + Into<u64>>(
    rt: &impl Print,
    numbers: &[T],
    bytes: &mut [u8; BYTES],
    used: usize,
) -> io::Result<usize>
    requires { used ≤ length bytes.old }
    ensures { IfOk result (λ next. next ≤ length bytes.new) }
{
    let mut used = used;
    for number in numbers {
        used = put(rt, (*number).into(), bytes, used)?;
    }
    Ok(used)
}

pub fn numbers<T: Copy + Into<u64>>(rt: &impl Print, numbers: &[T]) -> io::Result<()> {
    let mut bytes = [0; BYTES];
    let used = put_all(rt, numbers, &mut bytes, 0)?;
    rt.write_all(&bytes[..used])
}

// There is no such instruction.
pub fn unknown(rt: &impl Print) -> io::Result<()> {
    numbers(rt, &[255u64])
}

// "An answer is 0 and its values, or the refusal's number and its place."
pub fn answer<const N: usize>(
    rt: &impl Print,
    answer: Result<[u64; N], Refusal>,
) -> io::Result<()> {
    match answer {
        Ok(values) => {
            let mut bytes = [0; BYTES];
            let used = put(rt, 0, &mut bytes, 0)?;
            let used = put_all(rt, &values, &mut bytes, used)?;
            rt.write_all(&bytes[..used])
        }
        Err(refusal) => numbers(rt, &[refusal.number().into(), refusal.place()]),
    }
}

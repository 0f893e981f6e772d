// The text of numbers, and of a refusal. Each function answers the place after what it wrote.
ghost use Rattle.std.specs.Prelude.{◌≡◌, ◌+◌, ◌*◌, ◌≤◌, ◌<◌, length};
ghost use Rattle.std.proofs.lemmas.List.Edits.{sets};
ghost use Rattle.refusal.specs.Refusal.{number_of};
ghost use Rattle.program.specs.Text.{decimal, behind, lines};
ghost use Rattle.program.specs.Answer.{most_text, refuse_text};

use refusal::Refusal;

// The digit 0, what stands between the numbers of a line, and its end.
const ZERO: u8 = b'0';

const SPACE: u8 = b' ';

const NEWLINE: u8 = b'\n';

pub fn put_word(word: &[u8], out: &mut [u8]) -> usize
    requires { length word.now ≤ length out.old }
    ensures value { result ≡ length word.now }
    ensures out_after { out.new ≡ sets out.old 0 word.now }
{
    out[..word.len()].copy_from_slice(word);
    word.len()
}

// The digits of v, highest first.
fn put_decimal(v: u64, out: &mut [u8], at: usize) -> usize
    requires { at + length (decimal v) ≤ length out.old }
    ensures value { result ≡ at + length (decimal v) }
    ensures out_after { out.new ≡ sets out.old at (decimal v) }
{
    if v < 10 {
        out[at] = ZERO + v as u8;
        return at + 1;
    }
    let last = put_decimal(v / 10, out, at);
    out[last] = ZERO + (v % 10) as u8;
    last + 1
}

// What stands behind number k of lines of so many.
fn end_of(width: usize, k: usize) -> u8
    requires { 0 < width }
    ensures { result ≡ behind width k }
{
    if k % width == width - 1 {
        NEWLINE
    } else {
        SPACE
    }
}

// The cells, in lines of so many.
pub fn put_lines(cells: &[u64], width: usize, out: &mut [u8], at: usize) -> usize
    requires { (0 < width) × (at + 21 * length cells.now ≤ length out.old) }
    ensures value { result ≡ at + length (lines width cells.now) }
    ensures out_after { out.new ≡ sets out.old at (lines width cells.now) }
{
    let mut next = at;
    for (i, cell) in cells.iter().enumerate() {
        let end = put_decimal(*cell, out, next);
        out[end] = end_of(width, i);
        next = end + 1;
    }
    next
}

// It writes "refuse" and the number.
pub fn put_refusal(refusal: Refusal, out: &mut [u8]) -> usize
    requires { most_text ≤ length out.old }
    ensures value { result ≡ length (refuse_text (number_of refusal)) }
    ensures out_after { out.new ≡ sets out.old 0 (refuse_text (number_of refusal)) }
{
    let numbers = [u64::from(refusal.number())];
    let at = put_word(b"refuse ", out);
    put_lines(&numbers, 1, out, at)
}

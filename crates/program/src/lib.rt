// The program's answer to its input, as text.
#![tactic(auto)]

mod evaluate;
mod read;
mod text;

ghost use Rattle.std.specs.Prelude.{◌≡◌};
ghost use Rattle.program.specs.Answer.{text_length, text_after};

use crate::evaluate::evaluate;
use crate::read::read_input;
use crate::text::put_refusal;

// "At most 10,301 bytes in all": 1030 numbers of ten bytes, and one byte more, which shows 23.
pub const MOST_INPUT: usize = 10301;

// No text is longer: 2,034 numbers of at most twenty digits, each with a byte behind it, and a word.
pub const MOST_TEXT: usize = 43008;

// "n at most 1024".
const MOST_CELLS: usize = 1024;

// Writes the text into out, which has room for the longest, and answers its length.
pub fn answer(input: &[u8], out: &mut [u8]) -> usize
    ensures value { result ≡ text_length input.now out.old }
    ensures out_after { out.new ≡ text_after input.now out.old }
{
    if out.len() < MOST_TEXT {
        return 0;
    }
    let mut memory = [0u64; MOST_CELLS];
    match read_input(input, &mut memory) {
        Ok(head) => evaluate(head, &memory[..head.num_cells as usize], out),
        Err(refusal) => put_refusal(refusal, out),
    }
}

// Reads at most 10,301 bytes, and writes the evaluation of what they say.
#![tactic(auto)]

use program::{MOST_INPUT, MOST_TEXT};
use reads::read_full;
use std::io;

fn main(rt: HostRuntime) -> io::Result<()> {
    let mut input = [0u8; MOST_INPUT];
    let mut out = [0u8; MOST_TEXT];
    let n = read_full(&mut rt.stdin(), &mut input)?;
    let written = program::answer(&input[..n], &mut out);
    rt.write_all(&out[..written])
}

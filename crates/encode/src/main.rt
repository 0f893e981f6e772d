// Reads words of decimal digits and writes the bytes of their numbers, as the program `ace` reads
// them; or says on standard error which word is none, and writes no byte.
#![tactic(auto)]

use reads::read_full;
use std::io;

const MOST_TEXT: usize = 65536;

// One byte more than is taken, so that a longer text is seen.
const ROOM: usize = MOST_TEXT + 1;

fn encode(rt: &(impl Print + Eprint), text: &[u8]) -> io::Result<()> {
    // Not in main, which would clear it twice.
    let mut bytes = [0u8; MOST_TEXT];
    match words::encode(text, &mut bytes) {
        Ok(n) => rt.write_all(&bytes[..n]),
        Err(error) => eprintln!(rt; "{error}"),
    }
}

fn main(rt: HostRuntime) -> io::Result<()> {
    let mut text = [0u8; ROOM];
    let n = read_full(&mut rt.stdin(), &mut text)?;
    if MOST_TEXT < n {
        return eprintln!(rt; "the words take more than {MOST_TEXT} bytes");
    }
    encode(&rt, &text[..n])
}

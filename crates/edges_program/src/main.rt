// Runs the edges of the program, as the program `edges` does those of the calls: the answer is the
// program's own text, whose rows are lines of their own.
#![tactic(auto)]

mod asking;
mod inputs;

use std::io;

fn main(rt: HostRuntime) -> io::Result<()> {
    inputs::listing(&rt)?;
    inputs::numbers(&rt)?;
    inputs::heads(&rt)?;
    inputs::sizes(&rt)?;
    inputs::circuits(&rt)
}

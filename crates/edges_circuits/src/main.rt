// Runs the edges of whole evaluation, as the program `edges` does those of the parts before it.
#![tactic(auto)]

mod calls;
mod circuits;
mod regions;

use std::io;

fn main(rt: HostRuntime) -> io::Result<()> {
    regions::sizes(&rt)?;
    regions::counts(&rt)?;
    regions::pointers(&rt)?;
    regions::room(&rt)?;
    circuits::results(&rt)?;
    circuits::cells(&rt)?;
    circuits::gates(&rt)
}

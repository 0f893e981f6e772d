// Runs the edges of the run list, as the program `edges` does those of the parts before it.
#![tactic(auto)]

mod adding;
mod asking;
mod lists;

use std::io;

fn main(rt: HostRuntime) -> io::Result<()> {
    adding::places(&rt)?;
    adding::full_lists(&rt)?;
    adding::counts(&rt)?;
    adding::unsound_lists(&rt)?;
    asking::totals(&rt)?;
    asking::rows(&rt)
}

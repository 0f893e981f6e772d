// Runs the edges of results and of what a record is tested for, as the program `edges` does those of
// the parts before them.
#![tactic(auto)]

mod results;
mod tests;

use std::io;

fn main(rt: HostRuntime) -> io::Result<()> {
    results::outputs(&rt)?;
    results::finished(&rt)?;
    tests::counts(&rt)?;
    tests::room(&rt)?;
    tests::cells(&rt)
}

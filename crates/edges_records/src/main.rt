// Runs the edges of record writer and reader, as the program `edges` does those of the parts before them.
#![tactic(auto)]

mod reading;
mod writing;

use std::io;

fn main(rt: HostRuntime) -> io::Result<()> {
    writing::records(&rt)?;
    writing::cells(&rt)?;
    writing::from_states(&rt)?;
    reading::prefixes(&rt)?;
    reading::forms(&rt)?;
    reading::ranges(&rt)?;
    reading::counts(&rt)?;
    reading::room(&rt)?;
    reading::others(&rt)
}

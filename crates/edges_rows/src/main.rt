// Runs the edges of row fill, as the program `edges` does those of the parts before it.
#![tactic(auto)]

mod filling;

use std::io;

fn main(rt: HostRuntime) -> io::Result<()> {
    filling::rows_filled(&rt)?;
    filling::two_of_each(&rt)?;
    filling::records_refused(&rt)?;
    filling::cells(&rt)?;
    filling::from_states(&rt)
}

// Runs the edges of opening and steps, as the program `edges` does those of the parts before
// them. The state that a step gives back follows its answer, then every cell of what was lent, and of
// one or two more behind it.
#![tactic(auto)]

mod gates;
mod opening;
mod reading;
mod steps;

use std::io;

fn main(rt: HostRuntime) -> io::Result<()> {
    opening::counts(&rt)?;
    opening::room(&rt)?;
    opening::counts_alone(&rt)?;
    reading::handed(&rt)?;
    reading::turns(&rt)?;
    reading::room(&rt)?;
    gates::operations(&rt)?;
    gates::turns(&rt)?;
    gates::words(&rt)?;
    gates::gate_numbers(&rt)?;
    gates::operands(&rt)
}

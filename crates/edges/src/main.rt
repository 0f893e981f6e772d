// Runs the edges of document 01, a line for each case: its name, which says the call and the rule, and
// the answer, `accept` and its numbers or `refuse`, the refusal's number and its place. Where something
// is lent, what has become of it follows.
#![tactic(auto)]

mod elements;
mod gates;
mod numbers_cases;

use std::io;

fn main(rt: HostRuntime) -> io::Result<()> {
    elements::felts(&rt)?;
    elements::quads(&rt)?;
    gates::words(&rt)?;
    numbers_cases::writing(&rt)?;
    numbers_cases::reading(&rt)?;
    numbers_cases::reading_below(&rt)
}

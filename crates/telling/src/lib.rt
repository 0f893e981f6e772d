// How the programs edges* and surfaces tell an answer and what was lent, and what their calls begin from.
// A function that takes a call as a closure, such as one that lends it parts of buffers, stands in each
// program: it has a `requires`, which no public function of this repository has.
#![tactic(auto)]

pub mod answers;
pub mod buffers;
pub mod gates;
pub mod listing;
pub mod lists;
pub mod small;

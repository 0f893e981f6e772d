// The functions of `ace_c` for callers in Rust and C, to which a slice is a pointer and a length.
// A crate of its own: no crate may use a static library, and theorems are shown of `ace_c`.
#![tactic(auto)]

pub mod circuits;
pub mod fill;
pub mod lists;
pub mod records;
pub mod steps;

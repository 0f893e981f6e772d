// Elements of the field of p = 2^64 - 2^32 + 1 (`felt`), and pairs of them (`quad`).
#![tactic(auto)]

pub mod cells;
pub mod felt;
mod modular;
pub mod quad;

pub const P: u64 = 18446744069414584321;

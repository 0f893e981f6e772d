// The calls of `eval_circuit`, `trace`, `in_place`, `rows`, `record` and `runs` for callers in Rust
// and C, to which a slice is a pointer and a length. Each gives 0 or a refusal's number. A refusal's
// place goes into `place`, and 0 where there is none; a refusal leaves alone what an answer goes into.
// A state is ctx, clk, num_read, num_eval, reads_done, evals_done and, beside them, id_next. A
// header that comes back is ctx, clk, num_read, num_eval, id_next. A run list is clk, num_read,
// num_eval of each entry, and beside them its length. All of these, and the lent buffers, are
// parameters of their own, since C hands them over so (bindings/ace.h).
#![tactic(auto)]

pub mod circuits;
mod convert;
pub mod fill;
pub mod lists;
pub mod records;
pub mod steps;
mod tell;

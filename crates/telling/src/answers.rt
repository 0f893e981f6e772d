// What a call answered.
use refusal::Refusal;
use std::fmt;
use trace::{CircuitEvaluation, RecordHeader};

// `accept` and the value, which tells the space ahead of it, or the refusal.
#[derive(Drop)]
pub struct Answer<T>(pub Result<T, Refusal>);

impl<T: fmt::Display> fmt::Display for Answer<T> {
    fn fmt<W: fmt::Write>(&self, f: &mut fmt::Formatter<W>) -> fmt::Result {
        match &self.0 {
            Ok(value) => write!(f, "accept{value}"),
            Err(refusal) => write!(f, "{refusal}"),
        }
    }
}

// Its seven numbers, each after a space.
#[derive(Clone, Copy)]
pub struct State(pub CircuitEvaluation);

impl fmt::Display for State {
    fn fmt<W: fmt::Write>(&self, f: &mut fmt::Formatter<W>) -> fmt::Result {
        let state = self.0;
        write!(f, " {} {} {}", state.ctx, state.clk, state.num_read)?;
        write!(f, " {} {}", state.num_eval, state.reads_done)?;
        write!(f, " {} {}", state.evals_done, state.id_next)
    }
}

// Its five numbers, each after a space.
#[derive(Clone, Copy)]
pub struct Header(pub RecordHeader);

impl fmt::Display for Header {
    fn fmt<W: fmt::Write>(&self, f: &mut fmt::Formatter<W>) -> fmt::Result {
        let header = self.0;
        write!(f, " {} {} {}", header.ctx, header.clk, header.num_read)?;
        write!(f, " {} {}", header.num_eval, header.id_next)
    }
}

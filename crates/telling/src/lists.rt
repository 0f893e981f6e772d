// Lists, of which each part stands after a space.
use std::fmt;

// Numbers of an answer, each by itself.
#[derive(Clone, Copy)]
pub struct Numbers<const N: usize>(pub [u64; N]);

impl<const N: usize> fmt::Display for Numbers<N> {
    fn fmt<W: fmt::Write>(&self, f: &mut fmt::Formatter<W>) -> fmt::Result {
        for number in &self.0 {
            write!(f, " {number}")?;
        }
        Ok(())
    }
}

// Lent cells or counts: one that stands n times in a row is told once, with *n.
#[derive(Clone, Copy)]
pub struct Cells<'a, T>(pub &'a [T]);

impl<T: fmt::Display + PartialEq> fmt::Display for Cells<'_, T> {
    fn fmt<W: fmt::Write>(&self, f: &mut fmt::Formatter<W>) -> fmt::Result {
        for run in self.0.chunk_by(|a, b| a == b) {
            match run {
                [] => {}
                [cell] => write!(f, " {cell}")?,
                [cell, ..] => write!(f, " {cell}*{}", run.len())?,
            }
        }
        Ok(())
    }
}

// Lent bytes, in two hexadecimal digits each.
#[derive(Clone, Copy)]
pub struct Bytes<'a>(pub &'a [u8]);

impl fmt::Display for Bytes<'_> {
    fn fmt<W: fmt::Write>(&self, f: &mut fmt::Formatter<W>) -> fmt::Result {
        for byte in self.0 {
            write!(f, " {byte:02x}")?;
        }
        Ok(())
    }
}

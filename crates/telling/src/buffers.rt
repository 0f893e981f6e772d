// The three buffers that calls are lent.
ghost use Rattle.std.specs.Prelude.{◌≡◌, take};

use crate::lists::Cells;
use std::fmt;

// What cells hold before a call, where nothing else is said.
pub const CANARY: u64 = 9;

pub const COUNT_CANARY: u32 = 9;

// How many cells of each buffer a call is lent, from the first on.
#[derive(Clone, Copy)]
pub struct Lengths {
    pub values: usize,
    pub counts: usize,
    pub nodes: usize,
}

impl Lengths {
    pub const NOTHING: Lengths = Lengths {
        values: 0,
        counts: 0,
        nodes: 0,
    };
}

#[derive(Clone, Copy)]
pub struct Buffers<const V: usize, const C: usize, const N: usize> {
    pub values: [u64; V],
    pub counts: [u32; C],
    pub nodes: [u64; N],
}

impl<const V: usize, const C: usize, const N: usize> fmt::Display for Buffers<V, C, N> {
    fn fmt<W: fmt::Write>(&self, f: &mut fmt::Formatter<W>) -> fmt::Result {
        write!(f, " values{}", Cells(&self.values))?;
        write!(f, " counts{}", Cells(&self.counts))?;
        write!(f, " nodes{}", Cells(&self.nodes))
    }
}

// The first cells of each buffer, as a call that reads them is lent them.
#[derive(Clone, Copy)]
pub struct Lent<'a> {
    pub values: &'a [u64],
    pub counts: &'a [u32],
    pub nodes: &'a [u64],
}

#[tactic(auto, using(std::proofs::lemmas::List::take_min))]
fn first<T>(cells: &[T], n: usize) -> &[T]
    ensures { result.now ≡ take n cells.now }
{
    &cells[..n.min(cells.len())]
}

impl<'a, const V: usize, const C: usize, const N: usize> From<(&'a Buffers<V, C, N>, Lengths)>
    for Lent<'a> {
    ghost from_gives = { λ from lent. (lent.values.now ≡ take from.1.values from.0.now.values) × (lent.counts.now ≡ take from.1.counts from.0.now.counts) × (lent.nodes.now ≡ take from.1.nodes from.0.now.nodes) };

    fn from((buffers, lengths): (&'a Buffers<V, C, N>, Lengths)) -> Self {
        Lent {
            values: first(&buffers.values, lengths.values),
            counts: first(&buffers.counts, lengths.counts),
            nodes: first(&buffers.nodes, lengths.nodes),
        }
    }
}

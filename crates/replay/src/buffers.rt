// The six buffers, and how much of each is lent.
use crate::cells;
use crate::cells::CellCall;
use crate::instructions::Unknown;
use std::io;

pub const MEMORY_CELLS: usize = 65600;

pub const VALUE_CELLS: usize = 65544;

pub const COUNT_CELLS: usize = 32772;

pub const NODE_CELLS: usize = 360480;

pub const ROW_CELLS: usize = 352256;

pub const BYTE_CELLS: usize = 720896;

#[derive(Clone, Copy, Debug, PartialEq, Eq)]
pub enum Buffer {
    Memory,
    Values,
    Counts,
    Nodes,
    Rows,
    Bytes,
}

impl TryFrom<u64> for Buffer {
    type Error = Unknown;

    fn try_from(number: u64) -> Result<Self, Unknown> {
        match number {
            0 => Ok(Buffer::Memory),
            1 => Ok(Buffer::Values),
            2 => Ok(Buffer::Counts),
            3 => Ok(Buffer::Nodes),
            4 => Ok(Buffer::Rows),
            5 => Ok(Buffer::Bytes),
            _ => Err(Unknown),
        }
    }
}

#[derive(Drop)]
pub struct Buffers<'a> {
    pub memory: &'a mut [u64],
    pub values: &'a mut [u64],
    pub counts: &'a mut [u32],
    pub nodes: &'a mut [u64],
    pub rows: &'a mut [u64],
    pub bytes: &'a mut [u8],
}

// How many cells of each buffer are lent.
#[derive(Clone, Copy, Debug, Default, PartialEq, Eq)]
pub struct Lent {
    pub memory: usize,
    pub values: usize,
    pub counts: usize,
    pub nodes: usize,
    pub rows: usize,
    pub bytes: usize,
}

impl Lent {
    pub fn lend(&mut self, buffer: Buffer, n: usize) {
        match buffer {
            Buffer::Memory => self.memory = n,
            Buffer::Values => self.values = n,
            Buffer::Counts => self.counts = n,
            Buffer::Nodes => self.nodes = n,
            Buffer::Rows => self.rows = n,
            Buffer::Bytes => self.bytes = n,
        }
    }
}

// The first n cells, or all where there are fewer.
pub fn first<T>(cells: &mut [T], n: usize) -> &mut [T] {
    let n = n.min(cells.len());
    &mut cells[..n]
}

impl<'a> Buffers<'a> {
    // Takes the arrays, whose lengths no caller has to show.
    pub fn new(
        memory: &'a mut [u64; MEMORY_CELLS],
        values: &'a mut [u64; VALUE_CELLS],
        counts: &'a mut [u32; COUNT_CELLS],
        nodes: &'a mut [u64; NODE_CELLS],
        rows: &'a mut [u64; ROW_CELLS],
        bytes: &'a mut [u8; BYTE_CELLS],
    ) -> Self {
        Buffers {
            memory,
            values,
            counts,
            nodes,
            rows,
            bytes,
        }
    }

    pub fn answer(
        &mut self,
        rt: &impl Print,
        buffer: Buffer,
        call: CellCall<'_>,
    ) -> io::Result<()> {
        match buffer {
            Buffer::Memory => cells::answer(rt, call, self.memory),
            Buffer::Values => cells::answer(rt, call, self.values),
            Buffer::Counts => cells::answer(rt, call, self.counts),
            Buffer::Nodes => cells::answer(rt, call, self.nodes),
            Buffer::Rows => cells::answer(rt, call, self.rows),
            Buffer::Bytes => cells::answer(rt, call, self.bytes),
        }
    }
}

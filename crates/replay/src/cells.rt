// Instructions on the cells of one buffer.
use crate::instructions::{Unknown, Words};
use crate::say;
use std::io;

const SUM_MODULUS: u64 = 4294967291;

const SUM_FACTOR: u64 = 65599;

pub trait Cell: Copy + Into<u64> {
    // The number, or the largest that fits.
    fn limited(number: u64) -> Self;

    fn wrapping_add(self, step: Self) -> Self;
}

impl Cell for u64 {
    fn limited(number: u64) -> Self {
        number
    }

    fn wrapping_add(self, step: Self) -> Self {
        u64::wrapping_add(self, step)
    }
}

impl Cell for u32 {
    fn limited(number: u64) -> Self {
        u32::try_from(number).unwrap_or(u32::MAX)
    }

    fn wrapping_add(self, step: Self) -> Self {
        u32::wrapping_add(self, step)
    }
}

impl Cell for u8 {
    fn limited(number: u64) -> Self {
        u8::try_from(number).unwrap_or(u8::MAX)
    }

    fn wrapping_add(self, step: Self) -> Self {
        u8::wrapping_add(self, step)
    }
}

#[derive(Clone, Copy)]
pub enum CellCall<'a> {
    Set {
        at: usize,
        numbers: &'a [u64],
    },
    Rise {
        at: usize,
        n: usize,
        back: usize,
        step: u64,
    },
    Show {
        at: usize,
        n: usize,
    },
    Sum {
        at: usize,
        n: usize,
    },
}

// Of the code and the arguments after the buffer.
impl<'a> TryFrom<Words<'a>> for CellCall<'a> {
    type Error = Unknown;

    fn try_from(words: Words<'a>) -> Result<Self, Unknown> {
        match words {
            (0, [at, numbers @ ..]) => Ok(Self::Set {
                at: *at as usize,
                numbers,
            }),
            (1, &[at, n, back, step]) => Ok(Self::Rise {
                at: at as usize,
                n: n as usize,
                back: back as usize,
                step,
            }),
            (6, &[at, n]) => Ok(Self::Show {
                at: at as usize,
                n: n as usize,
            }),
            (7, &[at, n]) => Ok(Self::Sum {
                at: at as usize,
                n: n as usize,
            }),
            _ => Err(Unknown),
        }
    }
}

fn set<T: Cell>(cells: &mut [T], at: usize, numbers: &[u64]) {
    let Some(cells) = cells.get_mut(at..) else {
        return;
    };
    for (cell, number) in cells.iter_mut().zip(numbers) {
        *cell = T::limited(*number);
    }
}

fn rise<T: Cell>(cells: &mut [T], at: usize, n: usize, back: usize, step: T) {
    let end = at.saturating_add(n).min(cells.len());
    for i in at..end {
        cells[i] = match i.checked_sub(back) {
            Some(before) if back != 0 => cells[before].wrapping_add(step),
            _ => step,
        };
    }
}

// The n cells from `at` on, as far as there are such.
fn part<T>(cells: &[T], at: usize, n: usize) -> &[T] {
    let rest = cells.get(at..).unwrap_or(&[]);
    rest.get(..n).unwrap_or(rest)
}

fn add_half(sum: u64, half: u64) -> u64 {
    (sum % SUM_MODULUS * SUM_FACTOR + half % 0x1_0000_0000) % SUM_MODULUS
}

fn add_cell(sum: u64, cell: u64) -> u64 {
    add_half(add_half(sum, cell), cell / 0x1_0000_0000)
}

fn sum<T: Cell>(cells: &[T]) -> u64 {
    cells
        .iter()
        .fold(0, |sum, cell| add_cell(sum, (*cell).into()))
}

pub fn answer<T: Cell>(rt: &impl Print, call: CellCall<'_>, cells: &mut [T]) -> io::Result<()> {
    match call {
        CellCall::Set { at, numbers } => {
            set(cells, at, numbers);
            Ok(())
        }
        CellCall::Rise { at, n, back, step } => {
            rise(cells, at, n, back, T::limited(step));
            Ok(())
        }
        CellCall::Show { at, n } => say::numbers(rt, part(cells, at, n)),
        CellCall::Sum { at, n } => say::numbers(rt, &[sum(part(cells, at, n))]),
    }
}

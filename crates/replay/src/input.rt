// Standard input, a number at a time.
ghost use Rattle.std.specs.Prelude.{◌≤◌, length};

use reads::read_full;
use std::io;
use std::io::Read;

pub const INPUT_BYTES: usize = 65536;

// The most bytes that a number takes.
pub const LONGEST: usize = 10;

// A buffer of its own, since std's BufReader takes the heap.
#[derive(Drop)]
pub struct Input<'a, R> {
    reader: &'a mut R,
    bytes: &'a mut [u8],
    // The bytes from `start` to `end` are read and not yet used.
    start: usize,
    end: usize,
    // Whether the reader has ended.
    is_last: bool,
    ghost unread: { (start ≤ end) × (end ≤ length bytes.now) },
}

impl<'a, R: Read> Input<'a, R> {
    // Takes the array, whose length no caller has to show.
    pub fn new(reader: &'a mut R, bytes: &'a mut [u8; INPUT_BYTES]) -> Self {
        Input {
            reader,
            bytes,
            start: 0,
            end: 0,
            is_last: false,
        }
    }

    // None where no further number can be read.
    pub fn number(&mut self) -> io::Result<Option<u64>> {
        self.fill()?;
        let Ok((number, next)) = numbers::read(&self.bytes[..self.end], self.start) else {
            return Ok(None);
        };
        self.start = next;
        Ok(Some(number))
    }

    // Reads on until the whole of the next number is there, if the input has it.
    fn fill(&mut self) -> io::Result<()> {
        let kept = self.end - self.start;
        if self.is_last || LONGEST <= kept {
            return Ok(());
        }
        self.bytes.copy_within(self.start..self.end, 0);
        self.start = 0;
        self.end = kept;
        let got = read_full(self.reader, &mut self.bytes[kept..])?;
        self.end = kept + got;
        self.is_last = self.end < self.bytes.len();
        Ok(())
    }
}

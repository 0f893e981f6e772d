// The table "Numbers of refusal": what a call refuses, with the place where the table names one.
#![tactic(auto)]

ghost use Rattle.std.specs.Prelude.{◌≡◌};
ghost use Rattle.refusal.specs.Refusal.{number_of, place_of};

use std::error::Error;
use std::fmt;

#[derive(Clone, Copy, Debug, PartialEq, Eq)]
pub enum Refusal {
    TooManyWires,
    BadReadCount,
    BadEvalCount,
    Unaligned,
    OutOfMemory,
    ShortBuffer,
    NotElement(u64),
    NotInstruction(u64),
    LeftNotMade(u64),
    RightNotMade(u64),
    NotFinished,
    NotZero,
    OutOfTurn,
    ShortRows,
    CutOff(u64),
    NotShortest(u64),
    OutOfRange(u64),
    NoWires,
    OverMaxWires,
    OtherLength,
    NoEvalNode,
    OtherWires,
    BytesLeft,
    NoRoom,
    ListFull,
    NoSuchClock,
}

impl Refusal {
    pub fn number(self) -> u32
        ensures { result ≡ number_of self }
    {
        match self {
            Refusal::TooManyWires => 1,
            Refusal::BadReadCount => 2,
            Refusal::BadEvalCount => 3,
            Refusal::Unaligned => 4,
            Refusal::OutOfMemory => 5,
            Refusal::ShortBuffer => 6,
            Refusal::NotElement(_) => 7,
            Refusal::NotInstruction(_) => 8,
            Refusal::LeftNotMade(_) => 9,
            Refusal::RightNotMade(_) => 10,
            Refusal::NotFinished => 11,
            Refusal::NotZero => 12,
            Refusal::OutOfTurn => 13,
            Refusal::ShortRows => 14,
            Refusal::CutOff(_) => 15,
            Refusal::NotShortest(_) => 16,
            Refusal::OutOfRange(_) => 17,
            Refusal::NoWires => 18,
            Refusal::OverMaxWires => 19,
            Refusal::OtherLength => 20,
            Refusal::NoEvalNode => 21,
            Refusal::OtherWires => 22,
            Refusal::BytesLeft => 23,
            Refusal::NoRoom => 24,
            Refusal::ListFull => 25,
            Refusal::NoSuchClock => 26,
        }
    }

    // "What isn't in 'also returns' is 0."
    pub fn place(self) -> u64
        ensures { result ≡ place_of self }
    {
        match self {
            Refusal::NotElement(place)
            | Refusal::NotInstruction(place)
            | Refusal::LeftNotMade(place)
            | Refusal::RightNotMade(place)
            | Refusal::CutOff(place)
            | Refusal::NotShortest(place)
            | Refusal::OutOfRange(place) => place,
            _ => 0,
        }
    }
}

impl fmt::Display for Refusal {
    fn fmt<W: fmt::Write>(&self, f: &mut fmt::Formatter<W>) -> fmt::Result {
        write!(f, "refuse {} {}", self.number(), self.place())
    }
}

impl Error for Refusal {}

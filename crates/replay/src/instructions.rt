// The instructions, as docs/REPLAY.md has them.
use crate::buffers::Buffer;
use crate::cells::CellCall;
use crate::circuits::CircuitCall;
use crate::elements::ElementCall;
use crate::groups::NumberCall;
use crate::lists::ListCall;
use crate::records::RecordCall;
use crate::steps::StepCall;

// The most arguments that an instruction has.
pub const ARGUMENTS: usize = 16;

// An instruction's code and its arguments.
pub type Words<'a> = (u64, &'a [u64]);

// That there is no such instruction.
#[derive(Clone, Copy, Debug, PartialEq, Eq)]
pub struct Unknown;

#[derive(Clone, Copy)]
pub enum Instruction<'a> {
    Cells(Buffer, CellCall<'a>),
    Lend(Buffer, usize),
    List(ListCall),
    Element(ElementCall),
    OverLent(LentCall),
}

// A call over the cells that are lent.
#[derive(Clone, Copy)]
pub enum LentCall {
    Step(StepCall),
    Circuit(CircuitCall),
    Record(RecordCall),
    Number(NumberCall),
}

impl<'a> TryFrom<Words<'a>> for Instruction<'a> {
    type Error = Unknown;

    fn try_from(words: Words<'a>) -> Result<Self, Unknown> {
        // No `or_else` here: tried, and a closure that gives an Instruction<'a> got no proof.
        if let Ok(call) = ListCall::try_from(words) {
            return Ok(Self::List(call));
        }
        if let Ok(call) = ElementCall::try_from(words) {
            return Ok(Self::Element(call));
        }
        if let Ok(call) = LentCall::try_from(words) {
            return Ok(Self::OverLent(call));
        }
        of_buffer(words)
    }
}

// An instruction whose first argument is a buffer.
fn of_buffer<'a>((code, args): Words<'a>) -> Result<Instruction<'a>, Unknown> {
    let [buffer, args @ ..] = args else {
        return Err(Unknown);
    };
    let buffer = Buffer::try_from(*buffer)?;
    match (code, args) {
        (2, &[n]) => Ok(Instruction::Lend(buffer, n as usize)),
        words => CellCall::try_from(words).map(|call| Instruction::Cells(buffer, call)),
    }
}

impl TryFrom<Words<'_>> for LentCall {
    type Error = Unknown;

    fn try_from(words: Words<'_>) -> Result<Self, Unknown> {
        StepCall::try_from(words)
            .map(Self::Step)
            .or_else(|_| CircuitCall::try_from(words).map(Self::Circuit))
            .or_else(|_| RecordCall::try_from(words).map(Self::Record))
            .or_else(|_| NumberCall::try_from(words).map(Self::Number))
    }
}

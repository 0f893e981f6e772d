// Record writer: "21, 19, 6, 17 (a used value or node cell, or id_next, p or more), then" "writer 24".
// Every byte of the room is told, and of what lies behind the lent part.
use record::{write_into, write_state_into};
use refusal::Refusal;
use std::io;
use telling::answers::Answer;
use telling::buffers::{Buffers, Lengths, Lent};
use telling::lists::{Bytes, Numbers};
use telling::small::{
    BAD_COUNTS, BUFFERS, EXACT, FINISHED, FIRST_VALUE_OVER, HEADER, LAST_WIRE_OVER, NODES_TESTED,
    ONE_SHORT, STATES, TESTED, WHOLE,
};
use trace::{CircuitEvaluation, RecordHeader};

// Into the first `room` of 53 bytes.
fn tell<F: FnOnce(&mut [u8]) -> Result<usize, Refusal>>(
    rt: &impl Print,
    call: &str,
    case: &str,
    room: usize,
    write: F,
) -> io::Result<()>
    requires { F.IsAlwaysCallable write }
{
    let mut out = [0xee; 53];
    let len = write(&mut out[..room.min(53)]);
    let answer = Answer(len.map(|len| Numbers([len as u64])));
    println!(rt; "{call}: {case} = {answer}{}", Bytes(&out))
}

fn write_over(
    rt: &impl Print,
    case: &str,
    header: RecordHeader,
    lengths: Lengths,
    buffers: Buffers<7, 4, 19>,
    room: usize,
) -> io::Result<()> {
    let lent = Lent::from((&buffers, lengths));
    tell(rt, "write_into", case, room, |out| {
        write_into(header, lent.values, lent.counts, lent.nodes, out)
    })
}

pub fn records(rt: &impl Print) -> io::Result<()> {
    write_over(
        rt,
        "the small record, room exact",
        HEADER,
        EXACT,
        BUFFERS,
        52,
    )?;
    write_over(rt, "room one byte short", HEADER, WHOLE, BUFFERS, 51)?;
    write_over(rt, "room to spare", HEADER, WHOLE, BUFFERS, 53)?;
    let no_read = RecordHeader {
        num_read: 0,
        id_next: 33,
        ..HEADER
    };
    write_over(rt, "no READ node passes", no_read, EXACT, BUFFERS, 52)?;
    for &(case, header) in BAD_COUNTS {
        write_over(rt, case, header, EXACT, BUFFERS, 52)?;
    }
    for &(case, lent) in ONE_SHORT {
        write_over(rt, case, HEADER, lent, BUFFERS, 52)?;
    }
    Ok(())
}

pub fn cells(rt: &impl Print) -> io::Result<()> {
    for &(case, header, lent, buffers) in TESTED {
        write_over(rt, case, header, lent, buffers, 52)?;
    }
    write_over(rt, "17 ahead of 24", HEADER, WHOLE, FIRST_VALUE_OVER, 51)?;
    for &(case, header, lent, buffers) in NODES_TESTED {
        write_over(rt, case, header, lent, buffers, 52)?;
    }
    Ok(())
}

fn write_state_over(
    rt: &impl Print,
    case: &str,
    state: CircuitEvaluation,
    lengths: Lengths,
    buffers: Buffers<7, 4, 19>,
    room: usize,
) -> io::Result<()> {
    let lent = Lent::from((&buffers, lengths));
    tell(rt, "write_state_into", case, room, |out| {
        write_state_into(state, lent.values, lent.counts, lent.nodes, out)
    })
}

pub fn from_states(rt: &impl Print) -> io::Result<()> {
    for &(case, state, lent, buffers) in STATES {
        write_state_over(rt, case, state, lent, buffers, 52)?;
    }
    write_state_over(rt, "17 ahead of 24", FINISHED, EXACT, LAST_WIRE_OVER, 51)?;
    write_state_over(rt, "room one byte short", FINISHED, EXACT, BUFFERS, 51)
}

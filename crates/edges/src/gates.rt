// Decode: "0 Sub, 1 Mul, 2 Add, 3 to 15 refused." An accepted word's answer is its left id, its right
// id and its opcode.
use field::P;
use instruction::decode_instruction;
use std::io;
use telling::answers::Answer;
use telling::gates::{ADD_5_4, OPCODE_3};
use telling::lists::Numbers;

const WORDS: &[(&str, u64)] = &[
    ("P1, word 0", 0),
    ("P2, Add of 5 and 4", ADD_5_4),
    ("P3, the largest ids", 1152921504606846975),
    ("1 is the left id's", 1),
    ("2^30 - 1 is the left id's", 1073741823),
    ("2^30 is the right id's", 1073741824),
    ("2^60 is Mul", 1152921504606846976),
    ("the last word with opcode 2", 3458764513820540927),
    ("P4, the first with opcode 3", OPCODE_3),
    ("P5, p - 1", P - 1),
    ("p", P),
    ("the largest u64", u64::MAX),
];

pub fn words(rt: &impl Print) -> io::Result<()> {
    for &(case, word) in WORDS {
        let answer = decode_instruction(word).map(|(id_l, id_r, op)| Numbers([
            id_l as u64,
            id_r as u64,
            op as u64,
        ]));
        println!(rt; "decode_instruction: {case} = {}", Answer(answer))?;
    }
    Ok(())
}

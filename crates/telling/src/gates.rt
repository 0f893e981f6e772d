// Gate words.

// The listing's: Add of 5 and 4, Mul of 5 and 4, Sub of 3 and 3, Mul of 1 and 2.
pub const ADD_5_4: u64 = 2305843013508661253;

pub const MUL_5_4: u64 = 1152921508901814277;

pub const SUB_3_3: u64 = 3221225475;

pub const MUL_1_2: u64 = 1152921506754330625;

// Words that differ from its first gate in an id.
pub const ADD_5_3: u64 = 2305843012434919429;

pub const ADD_3_3: u64 = 2305843012434919427;

pub const ADD_5_5: u64 = 2305843014582403077;

// The first word with opcode 3.
pub const OPCODE_3: u64 = 3458764513820540928;

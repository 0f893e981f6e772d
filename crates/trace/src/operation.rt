// What a gate does with its operands' values.
ghost use Rattle.std.specs.Prelude.{◌≡◌, ◌<◌, if◌then◌else◌};
ghost use Rattle.field.specs.Answer.{pair_of};
ghost use Rattle.field.specs.Pair.{Elements, cells, add_pair, sub_pair, mul_pair};
ghost use Rattle.instruction.specs.Decode.{op_number};
ghost use Rattle.field.specs.Field.{p, sub_f};
ghost use Rattle.trace.specs.Eval.{combine, eval_op};

use field::{P, quad};
use instruction::Op;

pub fn apply(op: Op, v_l: [u64; 2], v_r: [u64; 2]) -> [u64; 2]
    requires { Elements (pair_of v_l) × Elements (pair_of v_r) }
    ensures { result ≡ cells (combine (op_number op) (pair_of v_l) (pair_of v_r)) }
{
    match op {
        Op::Mul => product(v_l, v_r),
        Op::Sub | Op::Add => sum_or_difference(op == Op::Sub, v_l, v_r),
    }
}

// What was found to be elements is not refused.
fn product(v_l: [u64; 2], v_r: [u64; 2]) -> [u64; 2]
    requires { Elements (pair_of v_l) × Elements (pair_of v_r) }
    ensures { result ≡ cells (mul_pair (pair_of v_l) (pair_of v_r)) }
{
    quad::mul(v_l, v_r).unwrap()
}

fn sum_or_difference(less: bool, v_l: [u64; 2], v_r: [u64; 2]) -> [u64; 2]
    requires { Elements (pair_of v_l) × Elements (pair_of v_r) }
    ensures { result ≡ cells ((if less then sub_pair else add_pair) (pair_of v_l) (pair_of v_r)) }
{
    quad::add_or_sub(less, v_l, v_r).unwrap()
}

// "eval_op is p - 1 for Sub, 0 for Mul, 1 for Add."
pub fn eval_op(op: Op) -> u64
    ensures { result ≡ eval_op (op_number op) }
{
    match op {
        Op::Sub => P - 1,
        Op::Mul => 0,
        Op::Add => 1,
    }
}

// The id after this one, downwards; 0 - 1 is p - 1.
pub fn before(id: u64) -> u64
    requires { id < p }
    ensures { result ≡ sub_f id 1 }
{
    if id == 0 { P - 1 } else { id - 1 }
}

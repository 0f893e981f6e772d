// "A pair (a0, a1) stands for a0 + a1·X with X·X = 7."
ghost use Rattle.std.specs.Prelude.{◌≡◌, [], if◌then◌else◌};
ghost use Rattle.refusal.specs.Told.{accepted};
ghost use Rattle.refusal.specs.Refusal.{told};
ghost use Rattle.field.specs.Pair.{add_pair, sub_pair, mul_pair};
ghost use Rattle.field.specs.Answer.{of_elements, cells_of, quad_told, quad_answer};

use crate::cells::elements;
use crate::modular::{Felt, sum_of_products};
use refusal::Refusal;

// The square of X.
const SQUARE: Felt = Felt { value: 7 };

pub fn add(a: [u64; 2], b: [u64; 2]) -> Result<[u64; 2], Refusal>
    ensures { quad_told result ≡ quad_answer add_pair a b }
{
    add_or_sub(false, a, b)
}

pub fn sub(a: [u64; 2], b: [u64; 2]) -> Result<[u64; 2], Refusal>
    ensures { quad_told result ≡ quad_answer sub_pair a b }
{
    add_or_sub(true, a, b)
}

// For a caller that would branch on which of the two it is.
pub fn add_or_sub(less: bool, a: [u64; 2], b: [u64; 2]) -> Result<[u64; 2], Refusal>
    ensures { quad_told result ≡ quad_answer (if less then sub_pair else add_pair) a b }
{
    let [a0, a1, b0, b1] = pairs(a, b)?;
    Ok([a0.add_or_sub(less, b0).value, a1.add_or_sub(less, b1).value])
}

// "(a0, a1)(b0, b1) = (a0·b0 + 7·a1·b1, a0·b1 + a1·b0)"
pub fn mul(a: [u64; 2], b: [u64; 2]) -> Result<[u64; 2], Refusal>
    ensures { quad_told result ≡ quad_answer mul_pair a b }
{
    let [a0, a1, b0, b1] = pairs(a, b)?;
    Ok([
        sum_of_products(a0, b0, SQUARE * a1, b1).value,
        sum_of_products(a0, b1, a1, b0).value,
    ])
}

fn pairs(a: [u64; 2], b: [u64; 2]) -> Result<[Felt; 4], Refusal>
    ensures { told (λ felts. felts) result ≡ of_elements (cells_of a b) (accepted (cells_of a b)) }
{
    elements([a[0], a[1], b[0], b[1]])
}

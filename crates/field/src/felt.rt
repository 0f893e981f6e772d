// "An element is a u64 below p. Add, subtract and multiply are modulo p."
ghost use Rattle.std.specs.Prelude.{◌≡◌, [], ◌∷◌};
ghost use Rattle.refusal.specs.Told.{accepted};
ghost use Rattle.refusal.specs.Refusal.{told};
ghost use Rattle.field.specs.Field.{add_f, sub_f, mul_f};
ghost use Rattle.field.specs.Answer.{of_elements, felt_told, felt_answer};

use crate::cells::elements;
use crate::modular::Felt;
use refusal::Refusal;

// One function over the operation would take a closure, and its law, to save one line of two.
pub fn add(a: u64, b: u64) -> Result<u64, Refusal>
    ensures { felt_told result ≡ felt_answer add_f a b }
{
    let [a, b] = both(a, b)?;
    Ok((a + b).value)
}

pub fn sub(a: u64, b: u64) -> Result<u64, Refusal>
    ensures { felt_told result ≡ felt_answer sub_f a b }
{
    let [a, b] = both(a, b)?;
    Ok((a - b).value)
}

pub fn mul(a: u64, b: u64) -> Result<u64, Refusal>
    ensures { felt_told result ≡ felt_answer mul_f a b }
{
    let [a, b] = both(a, b)?;
    Ok((a * b).value)
}

fn both(a: u64, b: u64) -> Result<[Felt; 2], Refusal>
    ensures { told (λ felts. felts) result ≡ of_elements (a ∷ b ∷ []) (accepted (a ∷ b ∷ [])) }
{
    elements([a, b])
}

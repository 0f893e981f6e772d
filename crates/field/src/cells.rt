// Cells that are to hold elements.
ghost use Rattle.std.specs.Prelude.{◌≡◌, ◌+◌, ◌-◌, [], take, drop};
ghost use Rattle.refusal.specs.Told.{accepted};
ghost use Rattle.refusal.specs.Refusal.{told, nothing};
ghost use Rattle.field.specs.Field.{first_over};
ghost use Rattle.field.specs.Answer.{of_elements};

use crate::P;
use crate::modular::Felt;
use refusal::Refusal;

// The place of the first cell from start on that is p or more; where none before end is, the place
// where the look ended.
pub fn first_over(cells: &[u64], start: usize, end: usize) -> usize
    ensures { result ≡ start + first_over (take (end - start) (drop start cells.now)) }
{
    let stop = end.min(cells.len());
    // By index: `position` counts from start, in a slice that a start past the end does not have.
    for at in start..stop {
        if P <= cells[at] {
            return at;
        }
    }
    start.max(stop)
}

// "7 where a number handed in is p or more, giving its place among them, from 0".
pub fn test_elements(numbers: &[u64]) -> Result<(), Refusal>
    ensures { told nothing result ≡ of_elements numbers.now (accepted []) }
{
    let place = first_over(numbers, 0, numbers.len());
    if place < numbers.len() {
        return Err(Refusal::NotElement(place as u64));
    }
    Ok(())
}

// Numbers as elements, or the refusal of the first that is none.
pub(crate) fn elements<const N: usize>(numbers: [u64; N]) -> Result<[Felt; N], Refusal>
    ensures { told (λ felts. felts) result ≡ of_elements numbers.entry (accepted numbers.entry) }
{
    test_elements(&numbers)?;
    let mut felts = [Felt { value: 0 }; N];
    // By index: `map` asks that its iterator fits in memory; `from_fn`'s closure takes a requires and an ensures of its own, and `returns` did not close.
    for at in 0..N {
        felts[at] = Felt { value: numbers[at] };
    }
    Ok(felts)
}

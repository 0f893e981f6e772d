// States and run lists from numbers and back.
ghost use Rattle.std.specs.Prelude.{◌≡◌};
ghost use Rattle.ace_c.specs.States.{state_of, six_of};
ghost use Rattle.ace_c.specs.Lists.{list_of, threes_of};

use runs::{Ace, Entry};
use std::array;
use trace::CircuitEvaluation;

// A state's ctx, clk, num_read, num_eval, reads_done and evals_done, and its id_next.
pub(crate) struct StateNumbers(pub(crate) [u32; 6], pub(crate) u64);

impl From<StateNumbers> for CircuitEvaluation {
    ghost from_gives = { λ numbers state. state ≡ state_of numbers.0 numbers.1 };

    fn from(numbers: StateNumbers) -> CircuitEvaluation {
        let StateNumbers([ctx, clk, num_read, num_eval, reads_done, evals_done], id_next) = numbers;
        CircuitEvaluation {
            ctx,
            clk,
            num_read,
            num_eval,
            reads_done,
            evals_done,
            id_next,
        }
    }
}

impl From<CircuitEvaluation> for StateNumbers {
    ghost from_gives = { λ state numbers. (numbers.0 ≡ six_of state) × (numbers.1 ≡ state.id_next) };

    fn from(state: CircuitEvaluation) -> StateNumbers {
        let six = [
            state.ctx,
            state.clk,
            state.num_read,
            state.num_eval,
            state.reads_done,
            state.evals_done,
        ];
        StateNumbers(six, state.id_next)
    }
}

// The clk, num_read and num_eval of each entry of a run list, and its length.
pub(crate) struct ListNumbers(pub(crate) [u32; 96], pub(crate) u32);

impl From<ListNumbers> for Ace {
    ghost from_gives = { λ numbers list. list ≡ list_of numbers.0 numbers.1 };

    fn from(numbers: ListNumbers) -> Ace {
        let ListNumbers(threes, len) = numbers;
        let entries = array::from_fn(|i| Entry {
            clk: threes[3 * i],
            num_read: threes[3 * i + 1],
            num_eval: threes[3 * i + 2],
        });
        Ace { entries, len }
    }
}

impl From<Ace> for ListNumbers {
    ghost from_gives = { λ list numbers. (numbers.0 ≡ threes_of list.entries) × (numbers.1 ≡ list.len) };

    fn from(list: Ace) -> ListNumbers {
        let mut numbers = [0; 96];
        for (i, entry) in list.entries.iter().enumerate() {
            numbers[3 * i] = entry.clk;
            numbers[3 * i + 1] = entry.num_read;
            numbers[3 * i + 2] = entry.num_eval;
        }
        ListNumbers(numbers, list.len)
    }
}

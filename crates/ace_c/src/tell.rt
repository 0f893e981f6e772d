// An answer's number and place, and a header that is handed back.
ghost use Rattle.std.specs.Prelude.{◌≡◌, ℕ, List};
ghost use Rattle.refusal.specs.Refusal.{told};
ghost use Rattle.refusal.specs.Codes.{code, values_or, place_told};
ghost use Rattle.trace.specs.Record.{header_told};

use refusal::Refusal;
use trace::RecordHeader;

pub(crate) fn tell<T: Copy>(answer: Result<T, Refusal>, place: &mut u64) -> u32
    ensures value { (values : T → List ℕ) → result ≡ code (told values answer) }
    ensures place_after { (values : T → List ℕ) → place.new ≡ place_told (told values answer) }
{
    match answer {
        Ok(_) => {
            *place = 0;
            0
        }
        Err(refusal) => {
            *place = refusal.place();
            refusal.number()
        }
    }
}

// A refusal leaves the header's numbers alone.
pub(crate) fn hand_back(answer: Result<RecordHeader, Refusal>, header: &mut [u64; 5])
    ensures { header.new ≡ values_or 5 header.old (header_told answer) }
{
    if let Ok(told) = answer {
        *header = told.into();
    }
}

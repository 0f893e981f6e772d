// The words of a text, which spaces and newlines part.
ghost use Rattle.std.specs.Prelude.{◌≡◌, ◌<◌, ◌+◌, ◌*◌, ◌^◌, cond, length, SomeIff};
ghost use Rattle.words.specs.Text.{parting, digits};
ghost use Rattle.words.specs.Inside.{judged};
ghost use Rattle.words.specs.declared.EncodeError.TheVariants.{NotANumber, TooLarge};

use crate::EncodeError;

#[tactic(auto, unfolding(crate::specs::Text::parting))]
pub fn is_parting(byte: &u8) -> bool
    ensures { result ≡ parting byte.now }
{
    matches!(byte, b' ' | b'\n')
}

// The words of what is left of a text. By split and filter a text of spaces takes 2.4 times the
// instructions.
#[derive(Drop)]
pub struct Words<'a>(pub &'a [u8]);

impl<'a> Iterator for Words<'a> {
    ghost use Rattle.std.specs.Iterator.{YieldsFirstRef, item_count};
    ghost use Rattle.words.specs.Text.{words_of};

    type Item = &'a [u8];

    ghost next_gives = { YieldsFirstRef (λ s. words_of s.0.now) };

    ghost remaining = { item_count (λ s. words_of s.0.now) };

    fn next(&mut self) -> Option<&'a [u8]> {
        let start = self.0.iter().position(|byte| !is_parting(byte))?;
        let (_, from) = self.0.split_at(start);
        let end = from.iter().position(is_parting).unwrap_or(from.len());
        let (word, rest) = from.split_at(end);
        self.0 = rest;
        Some(word)
    }
}

fn all_digits(word: &[u8]) -> bool
    ensures { result ≡ digits word.now }
{
    word.iter().all(u8::is_ascii_digit)
}

// The number whose digits are those of value and one more, where it is below 2^64.
fn with_digit(value: u64, digit: u8) -> Option<u64>
    ensures { SomeIff result (value * 10 + digit < 2 ^ 64) (value * 10 + digit) }
{
    if u64::MAX / 10 < value {
        return None;
    }
    (value * 10).checked_add(digit as u64)
}

// Why a word is refused whose number, should it have one, is 2^64 or more.
fn too_large(word: &[u8], place: usize) -> EncodeError
    ensures { result ≡ cond (digits word.now) (TooLarge place) (NotANumber place) }
{
    if all_digits(word) {
        EncodeError::TooLarge(place)
    } else {
        EncodeError::NotANumber(place)
    }
}

// The number of a word; place tells a refusal which word it is. One pass over the digits: by a look
// at all bytes, from_utf8 and parse, a word of two takes 133 instructions.
pub fn number_of(word: &[u8], place: usize) -> Result<u64, EncodeError>
    requires { 0 < length word.now }
    ensures { result ≡ judged word.now place }
{
    let mut value = 0;
    for &byte in word {
        if !byte.is_ascii_digit() {
            return Err(EncodeError::NotANumber(place));
        }
        let Some(next) = with_digit(value, byte - b'0') else {
            return Err(too_large(word, place));
        };
        value = next;
    }
    Ok(value)
}

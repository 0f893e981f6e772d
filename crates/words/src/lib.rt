// The bytes of numbers that are written as words of decimal digits, with spaces or newlines between
// them.
#![tactic(auto)]

mod word;

ghost use Rattle.std.specs.Prelude.{◌≡◌, length};
ghost use Rattle.std.proofs.lemmas.List.Edits.{sets};
ghost use Rattle.record.specs.Bytes.{bytes_of_all};
ghost use Rattle.words.specs.Text.{words_of, numbers_of};
ghost use Rattle.words.specs.Answer.{answer_from, encode_answer, encoded};
ghost use Rattle.words.specs.Inside.{Fits};

use crate::word::{Words, number_of};
use numbers::{width, write};
use std::error::Error;
use std::fmt;

// The number, from 1, of the first word that is no decimal number, or is 2^64 or more, or whose
// bytes find no room.
#[derive(Clone, Copy, Debug, PartialEq, Eq)]
pub enum EncodeError {
    NotANumber(usize),
    TooLarge(usize),
    NoRoom(usize),
}

impl fmt::Display for EncodeError {
    fn fmt<W: fmt::Write>(&self, f: &mut fmt::Formatter<W>) -> fmt::Result {
        match self {
            EncodeError::NotANumber(word) => write!(f, "word {word} is no decimal number"),
            EncodeError::TooLarge(word) => write!(f, "word {word} is 2^64 or more"),
            EncodeError::NoRoom(word) => write!(f, "word {word} finds no room"),
        }
    }
}

impl Error for EncodeError {}

// Writes the bytes of the words' numbers from out's start on, and says how many they are; or refuses
// and writes nothing.
pub fn encode(text: &[u8], out: &mut [u8]) -> Result<usize, EncodeError>
    ensures value { result ≡ encode_answer text.now out.old }
    ensures out_after { out.new ≡ encoded text.now out.old }
{
    let bytes = measure(text, out.len())?;
    put_words(text, out);
    Ok(bytes)
}

// What `encode` answers, with no byte written.
fn measure(text: &[u8], room: usize) -> Result<usize, EncodeError>
    ensures { result ≡ answer_from room 1 0 (words_of text.now) }
{
    let mut at = 0;
    for (i, word) in Words(text).enumerate() {
        let place = i + 1;
        let bytes = width(number_of(word, place)?);
        if room - at < bytes {
            return Err(EncodeError::NoRoom(place));
        }
        at += bytes;
    }
    Ok(at)
}

// Every word is a number, and there is room for all.
fn put_words(text: &[u8], out: &mut [u8])
    requires { Fits (length out.old) 1 0 (words_of text.now) }
    ensures { out.new ≡ sets out.old 0 (bytes_of_all (numbers_of (words_of text.now))) }
{
    let mut at = 0;
    for (i, word) in Words(text).enumerate() {
        let number = number_of(word, i + 1).unwrap();
        at = write(number, out, at).unwrap();
    }
}

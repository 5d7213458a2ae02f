//! The words of a line, one after the other, and the numbers among them.
use crate::problem::Problem;
use std::num::{IntErrorKind, ParseIntError};
use std::str;

// What is left of a line.
#[derive(Drop)]
pub struct Words<'a> {
    rest: &'a [u8],
}

fn is_blank(byte: u8) -> bool {
    matches!(byte, b' ' | b'\t' | b'\r')
}

// What is wrong with a word that `parse` turns down.
impl From<ParseIntError> for Problem {
    fn from(e: ParseIntError) -> Problem {
        match e.kind() {
            IntErrorKind::PosOverflow => Problem::TooLarge,
            _ => Problem::NoNumber,
        }
    }
}

// The number of a word: of its first digits, if nothing follows them. Whether these are too large is said before that.
fn number_of(word: &[u8]) -> Result<u64, Problem> {
    let end = word.iter().position(|b| !b.is_ascii_digit());
    let (digits, rest) = word.split_at(end.unwrap_or(word.len()));
    let digits = str::from_utf8(digits).map_err(|_| Problem::NoNumber)?;
    let number = digits.parse()?;
    if !rest.is_empty() {
        return Err(Problem::NoNumber);
    }
    Ok(number)
}

impl<'a> Words<'a> {
    // The words end at the line's comment or line feed.
    pub fn new(line: &'a [u8]) -> Words<'a> {
        let end = line.iter().position(|b| *b == b'#' || *b == b'\n');
        Words {
            rest: &line[..end.unwrap_or(line.len())],
        }
    }

    // The number that the next word spells, if its field has room for it.
    pub fn number<T: TryFrom<u64, Error: Drop>>(&mut self) -> Result<T, Problem> {
        let word = self.next().ok_or(Problem::MissingNumber)?;
        T::try_from(number_of(word)?).map_err(|_| Problem::TooLarge)
    }
}

impl<'a> Iterator for Words<'a> {
    type Item = &'a [u8];

    fn next(&mut self) -> Option<&'a [u8]> {
        let start = self.rest.iter().position(|b| !is_blank(*b))?;
        let words = &self.rest[start..];
        let end = words.iter().position(|b| is_blank(*b));
        let (word, rest) = words.split_at(end.unwrap_or(words.len()));
        self.rest = rest;
        Some(word)
    }
}

//! A line of the script: its code, and the numbers that follow it.
use crate::code::{Code, OnStore};
use crate::text::{Part, then};
use model::MAX_PLACES;
use std::alloc::AllocError;

// The most words of a table, and rows of a column.
pub const WORDS: usize = MAX_PLACES + 1;

// The places that a store line gives words to.
pub const PLACES: usize = 6;

// The most numbers of a line: a store, with its code. A line with more is not understood, however many there are.
pub const MOST: usize = 8 + 3 * PLACES;

#[derive(Clone, Copy)]
pub struct Line<'a> {
    pub code: Code,
    // Whether it has to do with the other store: its first number is then 100 more than the code.
    pub other: bool,
    pub numbers: &'a [u64],
}

impl<'a> Line<'a> {
    // Number k after the code, from 0; 0 where it is left out.
    pub fn number(&self, k: usize) -> u64 {
        self.numbers.get(k).copied().unwrap_or(0)
    }

    // The length of a table or a column.
    pub fn length(&self, k: usize) -> usize {
        self.number(k) as usize
    }

    // The numbers from k on.
    pub fn rest(self, k: usize) -> &'a [u64] {
        self.numbers.get(k..).unwrap_or(&[])
    }

    // Whether each of the first n numbers is a table's length.
    fn has_lengths(&self, n: usize) -> bool {
        self.numbers.iter().take(n).all(|x| *x <= WORDS as u64)
    }

    // Whether it is one of the script's lines; a store's places have three words each, and there is one journal.
    fn is_known(&self) -> bool {
        let n = self.numbers.len();
        let least = self.code.numbers();
        match self.code {
            Code::Store => {
                self.has_lengths(3) && n >= least && n <= least + 3 * PLACES && n % 3 == 1
            }
            Code::Journal => self.has_lengths(5) && n == least && !self.other,
            Code::OnStore(OnStore::New) => self.has_lengths(1) && n == least,
            _ => n == least,
        }
    }
}

// A call, as it is read.
impl Part for Line<'_> {
    fn write(&self, to: &mut Vec<u8>) -> Result<(), AllocError> {
        if self.other {
            to.extend_from_slice(b"other ")?;
        }
        to.extend_from_slice(self.code.name().as_bytes())?;
        for x in self.numbers {
            then(to, b' ', *x)?;
        }
        Ok(())
    }
}

// The line that the numbers make, if it is one of the script's.
pub fn of_numbers(numbers: &[u64]) -> Option<Line<'_>> {
    let (first, numbers) = numbers.split_first()?;
    let other = first.checked_sub(100);
    let code = Code::try_from(other.unwrap_or(*first)).ok()?;
    let line = Line {
        code,
        other: other.is_some(),
        numbers,
    };
    line.is_known().then_some(line)
}

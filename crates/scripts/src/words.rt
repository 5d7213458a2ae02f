//! The words of a place.
ghost use Rattle.std.specs.Prelude.{◌≡◌, Some};
ghost use Rattle.scripts.specs.Words.{place_of, place_text};

use crate::low::Low;
use std::fmt;

/// The words of a place.
#[derive(Clone, Copy, PartialEq, Eq)]
pub struct Place {
    pub generation: u32,
    pub link: u16,
    pub value: u64,
}

impl Place {
    /// The words that a line's next three numbers give.
    pub fn of(numbers: &[u64]) -> Place
        ensures { result ≡ place_of numbers.now }
    {
        let word = |k: usize| numbers.get(k).copied().unwrap_or(0);
        Place {
            generation: u32::low(word(0)),
            link: u16::low(word(1)),
            value: word(2),
        }
    }
}

impl fmt::Display for Place {
    ghost output = { λ p. Some (place_text p) };

    fn fmt<W: fmt::Write>(&self, f: &mut fmt::Formatter<W>) -> fmt::Result {
        write!(f, "{}:{}:{}", self.generation, self.link, self.value)
    }
}

//! A work, found by its word and played on tables of the size asked for.
use crate::store::with_store;
use crate::{compression, messages, passes};
use model::{MAX_PLACES, Refusal};
use std::fmt;
use std::str::FromStr;

// The places of the store, every how many of them has a message, and the turns.
#[derive(Clone, Copy)]
pub struct Size {
    pub places: u16,
    pub stride: u16,
    pub turns: u64,
}

fn from_1(n: u64) -> u16 {
    n.clamp(1, MAX_PLACES as u64) as u16
}

impl Size {
    // Places and stride are 1 to 1,024.
    pub fn of_numbers(places: u64, stride: u64, turns: u64) -> Size {
        Size {
            places: from_1(places),
            stride: from_1(stride),
            turns,
        }
    }

    // The messages of a spread store.
    pub fn live(self) -> u16 {
        self.places.checked_div(self.stride).unwrap_or(0)
    }

    // Whether place p of a spread store has a message.
    pub fn stays(self, p: u16) -> bool {
        self.stride == 0 || p % self.stride == 0
    }
}

// What a refusal adds to a sum.
pub fn number(refusal: Refusal) -> u64 {
    u64::from(u8::from(refusal))
}

#[derive(Clone, Copy)]
pub enum Work {
    Insert,
    Get,
    Stale,
    Churn,
    Walk,
    Compress,
}

impl Work {
    pub const ALL: [Work; 6] = [
        Work::Insert,
        Work::Get,
        Work::Stale,
        Work::Churn,
        Work::Walk,
        Work::Compress,
    ];

    fn word(self) -> &'static str {
        match self {
            Work::Insert => "insert",
            Work::Get => "get",
            Work::Stale => "stale",
            Work::Churn => "churn",
            Work::Walk => "walk",
            Work::Compress => "compress",
        }
    }
}

// A word that names no work.
#[derive(Clone, Copy)]
pub struct NoWork;

impl FromStr for Work {
    type Err = NoWork;

    fn from_str(word: &str) -> Result<Work, NoWork> {
        Work::ALL
            .into_iter()
            .find(|work| work.word() == word)
            .ok_or(NoWork)
    }
}

impl fmt::Display for Work {
    fn fmt<W: fmt::Write>(&self, f: &mut fmt::Formatter<W>) -> fmt::Result {
        f.write_str(self.word())
    }
}

// The sum of a work's turns, on a new store.
pub fn play(work: Work, s: Size) -> u64 {
    with_store(usize::from(s.places), |store| match work {
        Work::Insert => passes::insert(store, s),
        Work::Get => messages::get(store, s),
        Work::Stale => messages::stale(store, s),
        Work::Churn => messages::churn(store, s),
        Work::Walk => passes::walk(store, s),
        Work::Compress => compression::compress(store, s),
    })
}

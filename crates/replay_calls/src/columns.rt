//! The journal of the script.
use crate::line::{Line, WORDS};
use crate::show;
use crate::text::{Part, number, then};
use model::{Ptr, Row};
use scripts::{Journal, Low};
use std::alloc::{AllocError, Global};

// The journal that a line gives: what all rows hold (the same number four times, and the overflow), and the columns'
// lengths.
pub fn give(alloc: Global, line: Line<'_>) -> Result<Journal, AllocError> {
    let x = line.number(5);
    let ptr = Ptr::new(Low::low(x), Low::low(x));
    let row = Row {
        old: ptr,
        new: ptr,
        overflow: line.number(6) != 0,
    };
    let mut journal = Journal::new(alloc, WORDS, row)?;
    journal.lend([0, 1, 2, 3, 4].map(|k| line.length(k)));
    Ok(journal)
}

impl Part for Row {
    fn write(&self, to: &mut Vec<u8>) -> Result<(), AllocError> {
        number(to, u64::from(self.old.index))?;
        then(to, b':', u64::from(self.old.generation))?;
        then(to, b':', u64::from(self.new.index))?;
        then(to, b':', u64::from(self.new.generation))?;
        then(to, b':', u64::from(self.overflow))
    }
}

// Every row that one of the columns has.
pub fn show(alloc: Global, to: &mut Vec<u8>, j: &Journal) -> Result<(), AllocError> {
    to.extend_from_slice(b" |")?;
    show::all(to, &j.rows(alloc)?)
}

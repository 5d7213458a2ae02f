//! What is lent to a step or a run: the first bytes of the file, the first words of each table, the first rows of the
//! journal, the state.
use crate::file;
use crate::line::{Given, PLACES};
use model::{MAX_PLACES, Ptr, Row, State};
use scripts::{Journal, Low, Table, Tables, header};
use std::alloc::{AllocError, Global};

// The most words of a table, and rows of the journal.
const WORDS: usize = MAX_PLACES + 1;

const ROWS: usize = 5;

// What each row of the journal holds at the start.
const NINES: Row = Row {
    old: Ptr {
        index: 9,
        generation: 9,
    },
    new: Ptr {
        index: 9,
        generation: 9,
    },
    overflow: true,
};

#[derive(Drop)]
pub struct Lent {
    pub file: Table<u8>,
    pub tables: Tables,
    pub journal: Journal,
    pub state: State,
}

impl Lent {
    pub fn new(alloc: Global) -> Result<Lent, AllocError> {
        Ok(Lent {
            file: Table::new(vec![in alloc; 0; file::MOST]?),
            tables: Tables::new(alloc, WORDS)?,
            journal: Journal::new(alloc, ROWS, NINES)?,
            state: State {
                next: 0,
                header: header(&[]),
            },
        })
    }

    // The lengths of the tables, the state, and the words of the first places.
    fn give_store(&mut self, numbers: &[u64]) {
        if let [generations, links, values, next, rest @ ..] = numbers {
            let lengths = [*generations, *links, *values];
            self.tables.lend(lengths.map(|n| n as usize));
            self.state.next = Low::low(*next);
            self.state.header = header(rest);
        }
        self.tables.give(PLACES, numbers.get(8..).unwrap_or(&[]));
    }

    // A journal has as many rows as its shortest column: one of them is cut.
    fn give_rows(&mut self, rows: u64) {
        self.journal.lend([rows as usize, ROWS, ROWS, ROWS, ROWS]);
    }

    // A line that gives what is lent.
    pub fn give(&mut self, given: Given<'_>) {
        match given {
            Given::File(fields) => {
                self.file.lend(0);
                file::add_fields(&mut self.file, fields, &file::FILE);
            }
            Given::Command(fields) => file::add_fields(&mut self.file, fields, &file::COMMAND),
            Given::Size(n) => self.file.lend(n as usize),
            Given::Store(numbers) => self.give_store(numbers),
            Given::Journal(rows) => self.give_rows(rows),
        }
    }
}

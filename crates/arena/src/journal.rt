//! The journal: the rows of the messages that a call moves, written into a slice of rows or into plain columns, one
//! for each field of a row.

ghost use Rattle.std.specs.Prelude.{ℕ, ◌≡◌, List, ◌&&◌, length, set};
ghost use Rattle.model.specs.Store.{tables, store};
ghost use Rattle.model.specs.declared.Header.{Header};
ghost use Rattle.model.specs.declared.Row.{Row};
ghost use Rattle.arena.specs.Journal.{JournalLaws};
ghost use Rattle.arena.specs.Laws.{slice_laws, columns_laws};
ghost use Rattle.arena.specs.Lent.{slice_of, slice_with_row, slice_written, column_rows, columns_with_row, columns_written};
ghost use Rattle.arena.specs.Moved.{moved_rows};

use crate::generation::generational_inc;
use crate::place::ptr_at;
use model::{Ptr, Row};

// The messages that a call moves: all up to place m, and none where m is 0. They get generation `new`. Where each is
// removed from its store, the store's generation is `current` before the first removal.
#[derive(Clone, Copy)]
pub(crate) struct Moves {
    pub m: u16,
    pub new: u32,
    pub removed: bool,
    pub current: u32,
}

/// The journal of a call that moves messages, in any form: a row for each message moved.
pub trait Journal {
    // The rows that it holds, the journal with a row after n others, and with rows written from row 1 on.
    ghost rows: { Self → List Row };

    ghost with_row: { Self → ℕ → Row → Self };

    ghost written: { List Row → Self → Self };

    // How many rows it has room for.
    fn room(&self) -> usize
        ensures { result ≡ length (rows self.now) };

    // The row after n others. Where there is no room for it, the rows are as they were; of columns of unequal length,
    // one that goes further than the shortest may take its entry (docs/DECISIONS.md 57).
    fn write_row(&mut self, n: u16, row: Row)
        ensures { self.new ≡ with_row self.old n row };

    ghost laws: { JournalLaws rows with_row written };
}

/// The journal as a slice of rows.
#[derive(Drop)]
pub struct Rows<'a> {
    pub rows: &'a mut [Row],
}

/// The journal as plain columns, one for each field of a row: document 01 asks that compress and transfer be proved
/// with such columns first.
#[derive(Drop)]
pub struct Columns<'a> {
    pub oldinx: &'a mut [u16],
    pub oldgen: &'a mut [u32],
    pub newinx: &'a mut [u16],
    pub newgen: &'a mut [u32],
    pub overflow: &'a mut [bool],
}

// Entry n, counted from 0. Entries that have none are as they were. It is no `arena::place::write`: a row and a flag
// are no words of a table (`arena::place::Word`).
fn write_entry<T: Copy>(entries: &mut [T], n: u16, x: T)
    ensures { entries.new ≡ set entries.old n x }
{
    let i = n as usize;
    if i < entries.len() {
        entries[i] = x;
    }
}

impl Journal for Rows<'_> {
    ghost rows = { slice_of };

    ghost with_row = { slice_with_row };

    ghost written = { slice_written };

    fn room(&self) -> usize {
        self.rows.len()
    }

    #[tactic(auto, unfolding(crate::specs::Lent::slice_with_row))]
    fn write_row(&mut self, n: u16, row: Row) {
        write_entry(self.rows, n, row);
    }

    ghost laws = { slice_laws };
}

impl Journal for Columns<'_> {
    ghost rows = { column_rows };

    ghost with_row = { columns_with_row };

    ghost written = { columns_written };

    // As many rows as the shortest column has entries.
    fn room(&self) -> usize {
        let old = self.oldinx.len().min(self.oldgen.len());
        let new = self.newinx.len().min(self.newgen.len());
        old.min(new).min(self.overflow.len())
    }

    #[tactic(auto, unfolding(crate::specs::Lent::columns_with_row))]
    fn write_row(&mut self, n: u16, row: Row) {
        write_entry(self.oldinx, n, row.old.index);
        write_entry(self.oldgen, n, row.old.generation);
        write_entry(self.newinx, n, row.new.index);
        write_entry(self.newgen, n, row.new.generation);
        write_entry(self.overflow, n, row.overflow);
    }

    ghost laws = { columns_laws };
}

// A row for each message that is moved, ascending: they go to place 1, 2 and so on. Only the row of a message that is
// removed from its store says whether that overflowed.
#[tactic(auto, using(crate::proofs::Writing::writing_low, crate::proofs::Writing::writing_free, crate::proofs::Writing::writing_ends))]
pub(crate) fn write_rows<J: Journal>(journal: &mut J, generations: &[u32], moves: Moves)
    ensures { (l v : List ℕ) (h : Header) →
        journal.new ≡ J.written (moved_rows (store (tables generations.now l v) h) moves) journal.old }
{
    let mut generation = moves.current;
    let mut n: u16 = 0;
    for p in 0..moves.m {
        let old = ptr_at(generations, p + 1);
        if old.generation != 0 {
            let stepped = generational_inc(generation);
            let overflow = moves.removed && stepped.overflow;
            generation = stepped.generation;
            let new = Ptr::new(n + 1, moves.new);
            journal.write_row(n, Row { old, new, overflow });
            n += 1;
        }
    }
}

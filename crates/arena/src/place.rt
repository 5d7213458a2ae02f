//! The words of a place in the lent tables, read and written, and its handle. Here and in every call the tables are
//! three slices: document 01 asks for u32, u16 and u64 slices lent to every store call. Places run from 1. A place 0
//! or above a table is not there: it reads as 0, and a write to it changes nothing.

ghost use Rattle.std.specs.Prelude.{◌≡◌, ℕ, List};
ghost use Rattle.model.specs.Store.{ptr, at, write};
ghost use Rattle.arena.specs.Words.{word_at, written, at_is_word, write_is_written};

use model::Ptr;

// A number of a table, of any width. What a table's word at a place is, and the table after a write, is the same for
// each.
pub(crate) trait Word: Copy {
    const ZERO: Self;

    ghost ZERO: { Self };

    ghost at: { List Self → ℕ → Self };

    ghost write: { List Self → ℕ → Self → List Self };

    ghost at_is_word: { (l : List Self) (p : ℕ) → at l p ≡ word_at ZERO l p };

    ghost write_is_written: { (l : List Self) (p : ℕ) (x : Self) → write l p x ≡ written l p x };
}

impl Word for u16 {
    const ZERO: u16 = 0;

    ghost ZERO = { 0 };

    ghost at = { at };

    ghost write = { write };

    ghost at_is_word = { at_is_word };

    ghost write_is_written = { write_is_written };
}

impl Word for u32 {
    const ZERO: u32 = 0;

    ghost ZERO = { 0 };

    ghost at = { at };

    ghost write = { write };

    ghost at_is_word = { at_is_word };

    ghost write_is_written = { write_is_written };
}

impl Word for u64 {
    const ZERO: u64 = 0;

    ghost ZERO = { 0 };

    ghost at = { at };

    ghost write = { write };

    ghost at_is_word = { at_is_word };

    ghost write_is_written = { write_is_written };
}

// The word of place p.
#[tactic(auto, unfolding(crate::specs::Words::word_at))]
pub(crate) fn entry<T: Word>(table: &[T], p: u16) -> T
    ensures { result ≡ T.at table.now p }
{
    let n = p as usize;
    if n == 0 || n > table.len() {
        T::ZERO
    } else {
        table[n - 1]
    }
}

// x becomes the word of place p.
#[tactic(auto, unfolding(crate::specs::Words::written))]
pub(crate) fn write<T: Word>(table: &mut [T], p: u16, x: T)
    ensures { table.new ≡ T.write table.old p x }
{
    let n = p as usize;
    if n != 0 && n <= table.len() {
        table[n - 1] = x;
    }
}

// The handle of the message at place p. Place 0 needs no test: it reads as 0, and two zeros are no handle.
pub(crate) fn ptr_at(generations: &[u32], p: u16) -> Ptr
    ensures { result ≡ ptr p (at generations.now p) }
{
    Ptr::new(p, entry(generations, p))
}

//! A table of which the first words are lent to a call.
ghost use Rattle.std.specs.Borrow.{sem, Lends, Array};
ghost use Rattle.std.specs.Prelude.{◌≡◌, ◌≤◌, min, slice_set, vec_len};

/// The words of a table, and how many of them are lent. Those past the lent ones stay as they are: a later line of the
/// script may lend them.
#[derive(Drop)]
pub struct Table<T> {
    pub(crate) words: Vec<T>,
    pub(crate) length: usize,
    ghost has_lent: { length ≤ vec_len words },
}

impl<T: Copy> Table<T> {
    ghost use Rattle.scripts.specs.Lending.{lent, with_words};
    ghost use Rattle.scripts.specs.contracts.table.Table.{the_row};

    /// A table of which no word is lent.
    pub fn new(words: Vec<T>) -> Table<T>
        ensures words { result.words ≡ words }
        ensures length { result.length ≡ 0 }
    {
        Table { words, length: 0 }
    }

    /// Lends as many words from here on, or all where there are fewer.
    pub fn lend(&mut self, words: usize)
        ensures words { self.new.words ≡ self.old.words }
        ensures length { self.new.length ≡ min words (vec_len self.old.words) }
    {
        self.length = words.min(self.words.len());
    }

    pub fn lent(&self) -> &[T]
        ensures { result.now ≡ lent self.now }
    {
        &self.words[..self.length]
    }

    pub fn lent_mut(&mut self) -> &mut [T]
        ensures* writes_back { sem 𝓛 (Lends (the_row T.row) (Array T.row 0) self.entry result (with_words self.old)) }
        ensures value { result.now ≡ lent self.old }
    {
        let n = self.length;
        self.words.slice_mut(..n)
    }

    /// Writes word k, if there is one.
    pub fn set(&mut self, k: usize, x: T)
        ensures words { self.new.words.items ≡ slice_set self.old.words.items k x }
        ensures length { self.new.length ≡ self.old.length }
    {
        if let Some(word) = self.words.get_mut(k) {
            *word = x;
        }
    }
}

//! What a script lends to its calls: the tables of a store, and the journal.
ghost use Rattle.std.specs.Prelude.{◌≡◌, IfOk, drop, get_or, length, max, min, replicate, slice_set, vec_len};
ghost use Rattle.scripts.specs.Lending.{lent};
ghost use Rattle.scripts.specs.Words.{given, place_at, places, row_at, rows};

use crate::table::Table;
use crate::words::Place;
use arena::journal::Columns;
use model::{Ptr, Row};
use std::alloc::{AllocError, Global};

/// The three tables of a store.
#[derive(Drop)]
pub struct Tables {
    pub generations: Table<u32>,
    pub links: Table<u16>,
    pub values: Table<u64>,
}

// What follows the three numbers of a place.
fn after_place(numbers: &[u64]) -> &[u64]
    ensures { result.now ≡ drop 3 numbers.now }
{
    numbers.get(3..).unwrap_or(&[])
}

impl Tables {
    /// As many words of 0 in each table, of which none is lent.
    pub fn new(alloc: Global, words: usize) -> Result<Tables, AllocError>
        ensures generations { IfOk result (λ t. t.generations.words.items ≡ replicate words 0) }
        ensures links { IfOk result (λ t. t.links.words.items ≡ replicate words 0) }
        ensures values { IfOk result (λ t. t.values.words.items ≡ replicate words 0) }
        ensures lent { IfOk result
            (λ t. (t.generations.length ≡ 0) × (t.links.length ≡ 0) × (t.values.length ≡ 0)) }
    {
        Ok(Tables {
            generations: Table::new(vec![in alloc; 0; words]?),
            links: Table::new(vec![in alloc; 0; words]?),
            values: Table::new(vec![in alloc; 0; words]?),
        })
    }

    /// Lends as many words of each table from here on, or all where there are fewer.
    pub fn lend(&mut self, words: [usize; 3])
        ensures generations { (self.new.generations.words ≡ self.old.generations.words)
            × (self.new.generations.length ≡ min (get_or words 0 0) (vec_len self.old.generations.words)) }
        ensures links { (self.new.links.words ≡ self.old.links.words)
            × (self.new.links.length ≡ min (get_or words 1 0) (vec_len self.old.links.words)) }
        ensures values { (self.new.values.words ≡ self.old.values.words)
            × (self.new.values.length ≡ min (get_or words 2 0) (vec_len self.old.values.words)) }
    {
        let [generations, links, values] = words;
        self.generations.lend(generations);
        self.links.lend(links);
        self.values.lend(values);
    }

    /// Writes the words of place k, which is counted from 0, if there is one.
    pub fn set(&mut self, k: usize, place: Place)
        ensures generations { self.new.generations.words.items
            ≡ slice_set self.old.generations.words.items k place.generation }
        ensures links { self.new.links.words.items ≡ slice_set self.old.links.words.items k place.link }
        ensures values { self.new.values.words.items
            ≡ slice_set self.old.values.words.items k place.value }
        ensures lent { (self.new.generations.length ≡ self.old.generations.length)
            × (self.new.links.length ≡ self.old.links.length)
            × (self.new.values.length ≡ self.old.values.length) }
    {
        self.generations.set(k, place.generation);
        self.links.set(k, place.link);
        self.values.set(k, place.value);
    }

    /// Writes the words of as many places from the first on as three numbers each give them, 0 where these are left
    /// out.
    #[tactic(auto, using(crate::proofs::Giving::given_none))]
    pub fn give(&mut self, places: usize, numbers: &[u64])
        ensures generations { self.new.generations.words.items
            ≡ given (λ p. p.generation) numbers.now places self.old.generations.words.items }
        ensures links { self.new.links.words.items
            ≡ given (λ p. p.link) numbers.now places self.old.links.words.items }
        ensures values { self.new.values.words.items
            ≡ given (λ p. p.value) numbers.now places self.old.values.words.items }
        ensures lent { (self.new.generations.length ≡ self.old.generations.length)
            × (self.new.links.length ≡ self.old.links.length)
            × (self.new.values.length ≡ self.old.values.length) }
    {
        let mut rest = numbers;
        for k in 0..places {
            self.set(k, Place::of(rest));
            rest = after_place(rest);
        }
    }

    /// Writes the same words for every place.
    pub fn fill(&mut self, place: Place)
        ensures generations { self.new.generations.words.items
            ≡ replicate (vec_len self.old.generations.words) place.generation }
        ensures links { self.new.links.words.items
            ≡ replicate (vec_len self.old.links.words) place.link }
        ensures values { self.new.values.words.items
            ≡ replicate (vec_len self.old.values.words) place.value }
        ensures lent { (self.new.generations.length ≡ self.old.generations.length)
            × (self.new.links.length ≡ self.old.links.length)
            × (self.new.values.length ≡ self.old.values.length) }
    {
        self.generations.words.fill(place.generation);
        self.links.words.fill(place.link);
        self.values.words.fill(place.value);
    }

    /// How many places there are that one of the tables lends.
    pub fn count(&self) -> usize
        ensures { result ≡ max (max (length (lent self.now.generations)) (length (lent self.now.links)))
            (length (lent self.now.values)) }
    {
        let first = self.generations.lent().len();
        first
            .max(self.links.lent().len())
            .max(self.values.lent().len())
    }

    /// Place k, counted from 0. A word that a table does not lend is 0.
    pub fn place(&self, k: usize) -> Place
        ensures { result
            ≡ place_at (lent self.now.generations) (lent self.now.links) (lent self.now.values) k }
    {
        Place {
            generation: self.generations.lent().get(k).copied().unwrap_or(0),
            link: self.links.lent().get(k).copied().unwrap_or(0),
            value: self.values.lent().get(k).copied().unwrap_or(0),
        }
    }

    /// Every place that one of the tables lends.
    pub fn places(&self, alloc: Global) -> Result<Vec<Place>, AllocError>
        ensures { IfOk result
            (λ v. v.items
            ≡ places (lent self.now.generations) (lent self.now.links) (lent self.now.values)) }
    {
        (0..self.count()).map(|k| self.place(k)).collect(alloc)
    }
}

/// The journal, a table for each of its five columns: each has its own length, so that a script may lend unequal ones.
#[derive(Drop)]
pub struct Journal {
    pub oldinx: Table<u16>,
    pub oldgen: Table<u32>,
    pub newinx: Table<u16>,
    pub newgen: Table<u32>,
    pub overflow: Table<bool>,
}

impl Journal {
    /// As many rows, each with these entries, of which none is lent.
    pub fn new(alloc: Global, rows: usize, row: Row) -> Result<Journal, AllocError>
        ensures oldinx { IfOk result (λ j. j.oldinx.words.items ≡ replicate rows row.old.index) }
        ensures oldgen { IfOk result (λ j. j.oldgen.words.items ≡ replicate rows row.old.generation) }
        ensures newinx { IfOk result (λ j. j.newinx.words.items ≡ replicate rows row.new.index) }
        ensures newgen { IfOk result (λ j. j.newgen.words.items ≡ replicate rows row.new.generation) }
        ensures overflow { IfOk result (λ j. j.overflow.words.items ≡ replicate rows row.overflow) }
        ensures lent { IfOk result
            (λ j. (j.oldinx.length ≡ 0) × (j.oldgen.length ≡ 0) × (j.newinx.length ≡ 0)
            × (j.newgen.length ≡ 0) × (j.overflow.length ≡ 0)) }
    {
        Ok(Journal {
            oldinx: Table::new(vec![in alloc; row.old.index; rows]?),
            oldgen: Table::new(vec![in alloc; row.old.generation; rows]?),
            newinx: Table::new(vec![in alloc; row.new.index; rows]?),
            newgen: Table::new(vec![in alloc; row.new.generation; rows]?),
            overflow: Table::new(vec![in alloc; row.overflow; rows]?),
        })
    }

    /// Lends as many entries of each column from here on, or all where there are fewer.
    pub fn lend(&mut self, entries: [usize; 5])
        ensures oldinx { (self.new.oldinx.words ≡ self.old.oldinx.words)
            × (self.new.oldinx.length ≡ min (get_or entries 0 0) (vec_len self.old.oldinx.words)) }
        ensures oldgen { (self.new.oldgen.words ≡ self.old.oldgen.words)
            × (self.new.oldgen.length ≡ min (get_or entries 1 0) (vec_len self.old.oldgen.words)) }
        ensures newinx { (self.new.newinx.words ≡ self.old.newinx.words)
            × (self.new.newinx.length ≡ min (get_or entries 2 0) (vec_len self.old.newinx.words)) }
        ensures newgen { (self.new.newgen.words ≡ self.old.newgen.words)
            × (self.new.newgen.length ≡ min (get_or entries 3 0) (vec_len self.old.newgen.words)) }
        ensures overflow { (self.new.overflow.words ≡ self.old.overflow.words)
            × (self.new.overflow.length ≡ min (get_or entries 4 0) (vec_len self.old.overflow.words)) }
    {
        let [oldinx, oldgen, newinx, newgen, overflow] = entries;
        self.oldinx.lend(oldinx);
        self.oldgen.lend(oldgen);
        self.newinx.lend(newinx);
        self.newgen.lend(newgen);
        self.overflow.lend(overflow);
    }

    /// The lent entries, as the calls take them. What a caller leaves in them no clause says: the kit's clauses
    /// speak of one lent part or of two, and here are five.
    pub fn columns(&mut self) -> Columns<'_>
        ensures oldinx { result.oldinx.now ≡ lent self.old.oldinx }
        ensures oldgen { result.oldgen.now ≡ lent self.old.oldgen }
        ensures newinx { result.newinx.now ≡ lent self.old.newinx }
        ensures newgen { result.newgen.now ≡ lent self.old.newgen }
        ensures overflow { result.overflow.now ≡ lent self.old.overflow }
    {
        Columns {
            oldinx: self.oldinx.lent_mut(),
            oldgen: self.oldgen.lent_mut(),
            newinx: self.newinx.lent_mut(),
            newgen: self.newgen.lent_mut(),
            overflow: self.overflow.lent_mut(),
        }
    }

    // Row k, counted from 0.
    fn row(&self, k: usize) -> Row
        ensures { result ≡ row_at (lent self.now.oldinx) (lent self.now.oldgen) (lent self.now.newinx)
            (lent self.now.newgen) (lent self.now.overflow) k }
    {
        Row {
            old: Ptr {
                index: self.oldinx.lent().get(k).copied().unwrap_or(0),
                generation: self.oldgen.lent().get(k).copied().unwrap_or(0),
            },
            new: Ptr {
                index: self.newinx.lent().get(k).copied().unwrap_or(0),
                generation: self.newgen.lent().get(k).copied().unwrap_or(0),
            },
            overflow: self.overflow.lent().get(k).copied().unwrap_or(false),
        }
    }

    /// Every row that one of the columns lends.
    pub fn rows(&self, alloc: Global) -> Result<Vec<Row>, AllocError>
        ensures { IfOk result
            (λ v. v.items ≡ rows (lent self.now.oldinx) (lent self.now.oldgen) (lent self.now.newinx)
            (lent self.now.newgen) (lent self.now.overflow)) }
    {
        let old = self.oldinx.length.max(self.oldgen.length);
        let new = self.newinx.length.max(self.newgen.length);
        let last = old.max(new).max(self.overflow.length);
        (0..last).map(|k| self.row(k)).collect(alloc)
    }
}

//! The store of a work: its lent tables and its header, and the calls on them.
use crate::work::Size;
use arena::advance::advance;
use arena::clear::clear;
use arena::compress::compress_with;
use arena::insert::insert_within_capacity;
use arena::journal::Columns;
use arena::remove::remove;
use model::{Answer, Completed, Cursor, Header, MAX_PLACES, Ptr, Refusal};

#[derive(Drop)]
pub struct Store<'a> {
    pub generations: &'a mut [u32],
    pub links: &'a mut [u16],
    pub values: &'a mut [u64],
    pub header: Header,
}

impl<'a> Store<'a> {
    // A new store on these tables.
    pub fn new(
        generations: &'a mut [u32],
        links: &'a mut [u16],
        values: &'a mut [u64],
    ) -> Store<'a> {
        let header = arena::clear::new(generations, links, values);
        Store {
            generations,
            links,
            values,
            header,
        }
    }
}

impl Store<'_> {
    // Lays the tables out anew.
    pub fn renew(&mut self) {
        self.header = arena::clear::new(self.generations, self.links, self.values);
    }

    pub fn insert(&mut self, value: u64) -> Result<Ptr, Refusal> {
        let h = &mut self.header;
        insert_within_capacity(self.generations, self.links, self.values, h, value)
    }

    pub fn remove(&mut self, p: Ptr) -> Answer {
        let h = &mut self.header;
        remove(self.generations, self.links, self.values, h, p)
    }

    pub fn get(&self, p: Ptr) -> Result<u64, Refusal> {
        arena::message::get(self.generations, self.links, self.values, self.header, p)
    }

    pub fn advance(&self, c: &mut Cursor) -> Result<Option<Ptr>, Refusal> {
        advance(self.generations, self.links, self.values, self.header, c)
    }

    pub fn clear(&mut self) -> Result<Completed<()>, Refusal> {
        let h = &mut self.header;
        clear(self.generations, self.links, self.values, h)
    }

    pub fn compress(&mut self, journal: &mut Columns<'_>) -> Result<Completed<()>, Refusal> {
        let h = &mut self.header;
        compress_with(self.generations, self.links, self.values, h, false, journal)
    }

    // The values 1 to `places` in an empty store, each at the place of its number.
    fn fill(&mut self, places: u16) {
        for p in 1..=places {
            let _ = self.insert(u64::from(p));
        }
    }

    fn thin(&mut self, s: Size) {
        for p in 1..=s.places {
            if !s.stays(p) {
                let _ = self.remove(Ptr::new(p, 2));
            }
        }
    }

    // Messages in every `stride`-th place, so that the free places between them are chained. Inlined, as `outdate` is,
    // so that no call is passed the store and its header stays in registers: else a turn of churn takes 51
    // instructions more.
    #[inline(always)]
    pub fn spread(&mut self, s: Size) {
        self.fill(s.places);
        self.thin(s);
    }

    // Newer messages in all places: every handle of generation 2 is stale.
    #[inline(always)]
    pub fn outdate(&mut self, s: Size) {
        self.fill(s.places);
        let _ = self.clear();
        self.fill(s.places);
    }
}

// Lends a work a new store of so many places, 1,024 at most.
pub(crate) fn with_store<F: FnOnce(&mut Store<'_>) -> u64>(places: usize, work: F) -> u64
    requires { F.IsAlwaysCallable work }
{
    let mut generations = [0u32; MAX_PLACES];
    let mut links = [0u16; MAX_PLACES];
    let mut values = [0u64; MAX_PLACES];
    let c = places.min(MAX_PLACES);
    work(&mut Store::new(&mut generations[..c], &mut links[..c], &mut values[..c]))
}

//! A store of the script: three tables, and the header.
use crate::line::{Line, PLACES, WORDS};
use crate::show;
use crate::text::{Part, number, then};
use model::Header;
use scripts::{Place, Tables, header};
use std::alloc::{AllocError, Global};

#[derive(Drop)]
pub struct Store {
    pub tables: Tables,
    pub header: Header,
}

// The words of generations, links and values, and the header, as a store lends them to a call.
#[derive(Drop)]
pub struct Lent<'a> {
    pub g: &'a mut [u32],
    pub l: &'a mut [u16],
    pub v: &'a mut [u64],
    pub h: &'a mut Header,
}

impl Part for Header {
    fn write(&self, to: &mut Vec<u8>) -> Result<(), AllocError> {
        then(to, b' ', u64::from(self.len))?;
        then(to, b' ', u64::from(self.m))?;
        then(to, b' ', u64::from(self.root))?;
        then(to, b' ', u64::from(self.generation))
    }
}

impl Part for Place {
    fn write(&self, to: &mut Vec<u8>) -> Result<(), AllocError> {
        number(to, u64::from(self.generation))?;
        then(to, b':', u64::from(self.link))?;
        then(to, b':', self.value)
    }
}

impl Store {
    pub fn new(alloc: Global) -> Result<Store, AllocError> {
        Ok(Store {
            tables: Tables::new(alloc, WORDS)?,
            header: header(&[]),
        })
    }

    // The store as a call takes it.
    pub fn lent(&mut self) -> Lent<'_> {
        let Store { tables, header } = self;
        Lent {
            g: tables.generations.lent_mut(),
            l: tables.links.lent_mut(),
            v: tables.values.lent_mut(),
            h: header,
        }
    }

    // The lengths and the header that a line gives, and the words of the first places.
    pub fn give(&mut self, line: Line<'_>) {
        self.tables.lend([0, 1, 2].map(|k| line.length(k)));
        self.header = header(line.rest(3));
        self.tables.give(PLACES, line.rest(7));
    }

    // The same words for all places.
    pub fn fill(&mut self, line: Line<'_>) {
        self.tables.fill(Place::of(line.rest(0)));
    }

    // The header, and every place that one of the tables has.
    pub fn show(&self, alloc: Global, to: &mut Vec<u8>) -> Result<(), AllocError> {
        to.extend_from_slice(b" |")?;
        self.header.write(to)?;
        to.extend_from_slice(b" |")?;
        show::all(to, &self.tables.places(alloc)?)
    }
}

//! The runs of a sequence file.
use crate::columns::with_columns;
use crate::store::{Store, with_store};
use arena::journal::Columns;
use input::read_file;
use model::{MAX_COMMANDS, State};
use sequence::check::lent_places;
use sequence::run::run;
use std::io;

// One byte more than the longest sequence has, its head and 4,095 commands: of a longer file so many bytes are read,
// and it is refused, whatever comes after.
const MOST: usize = 8 + 16 * MAX_COMMANDS + 1;

// How many commands were done, of all ten.
fn done(tally: [[u32; 3]; 10]) -> u64 {
    let mut sum: u64 = 0;
    for [done, _, _] in tally {
        sum = sum.wrapping_add(u64::from(done));
    }
    sum
}

// A run on a new store. One that is turned down has done none.
fn run_once(store: &mut Store, file: &[u8], journal: &mut Columns<'_>) -> u64 {
    store.renew();
    let mut q = State {
        next: 1,
        header: store.header,
    };
    match run(
        store.generations,
        store.links,
        store.values,
        file,
        &mut q,
        journal,
    ) {
        Ok(tally) => done(tally.rows),
        Err(_) => 0,
    }
}

fn run_all(store: &mut Store, file: &[u8], journal: &mut Columns<'_>, turns: u64) -> u64 {
    let mut sum: u64 = 0;
    for _ in 0..turns {
        sum = sum.wrapping_add(run_once(store, file, journal));
    }
    sum
}

// The runs on tables of as many places as the file is lent.
fn sum(file: &[u8], turns: u64) -> u64 {
    with_store(lent_places(file), |store| {
        with_columns(|journal| run_all(store, file, journal, turns))
    })
}

pub fn play(rt: &HostRuntime, path: &str, turns: u64) -> io::Result<()> {
    match read_file(rt, path, MOST)? {
        Some(file) => {
            let sum = sum(&file, turns);
            println!(rt; "{sum}")
        }
        None => Ok(()),
    }
}

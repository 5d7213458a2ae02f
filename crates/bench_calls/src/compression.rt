//! The work whose turn is a compress, with a journal of 1,024 rows.
use crate::columns::with_columns;
use crate::store::Store;
use crate::work::Size;
use arena::journal::Columns;

// Adds the new generation of the first row.
fn compress_all(store: &mut Store, journal: &mut Columns<'_>, turns: u64) -> u64 {
    let mut sum: u64 = 0;
    for _ in 0..turns {
        let _ = store.compress(journal);
        let first = journal.newgen.first().copied().unwrap_or(0);
        sum = sum.wrapping_add(u64::from(first));
    }
    sum
}

pub fn compress(store: &mut Store, s: Size) -> u64 {
    store.spread(s);
    with_columns(|journal| compress_all(store, journal, s.turns))
}

//! The works whose turn goes over the whole store by a call for each message.
use crate::store::Store;
use crate::work::{Size, number};
use model::{Cursor, MAX_PLACES};

// A turn of insert: the values 1 to `places`. Adds each index.
fn insert_all(store: &mut Store, places: u16) -> u64 {
    let mut sum: u64 = 0;
    for p in 0..places {
        let inserted = store.insert(u64::from(p) + 1);
        sum = sum.wrapping_add(inserted.map_or_else(number, |p| u64::from(p.index)));
    }
    sum
}

// Inlined, since the loop of churn beside it is else laid out otherwise: without this a turn of churn takes 13
// instructions more.
#[inline(always)]
pub fn insert(store: &mut Store, s: Size) -> u64 {
    let mut sum: u64 = 0;
    for _ in 0..s.turns {
        sum = sum.wrapping_add(insert_all(store, s.places));
        let _ = store.clear();
    }
    sum
}

// A turn of walk: adds the index of each message to a sum. A cursor finds no more messages than there are places.
fn walk_all(store: &Store, before: u64) -> u64 {
    let mut sum = before;
    let mut c = Cursor {
        index: 1,
        rev: false,
    };
    for _ in 0..MAX_PLACES + 1 {
        match store.advance(&mut c) {
            Ok(Some(p)) => sum = sum.wrapping_add(u64::from(p.index)),
            Ok(None) => return sum,
            Err(refusal) => return sum.wrapping_add(number(refusal)),
        }
    }
    sum
}

pub fn walk(store: &mut Store, s: Size) -> u64 {
    store.spread(s);
    let mut sum: u64 = 0;
    for _ in 0..s.turns {
        sum = walk_all(store, sum);
    }
    sum
}

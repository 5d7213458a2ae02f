//! The works whose turn is a call or two on a message that is chosen by its handle.
use crate::handles;
use crate::handles::Choices;
use crate::store::Store;
use crate::work::{Size, number};
use model::{Answer, Completed, MAX_PLACES, Ptr};

// The value of the message that was taken out, also where the generation step overflowed; one pattern takes both cases.
fn value_taken(a: Answer) -> u64 {
    match a {
        Ok(Completed::Done(m) | Completed::Overflow(m)) => m.value,
        Err(refusal) => number(refusal),
    }
}

// Adds the values got by the handles of a spread store.
fn get_all(store: &Store, s: Size) -> u64 {
    let handles = handles::spread(s);
    let mut sum: u64 = 0;
    for k in Choices::new(s).take(s.turns as usize) {
        sum = sum.wrapping_add(store.get(handles[k % MAX_PLACES]).unwrap_or_else(number));
    }
    sum
}

pub fn get(store: &mut Store, s: Size) -> u64 {
    store.spread(s);
    get_all(store, s)
}

// Get by handles whose messages are withdrawn, while newer ones have their places.
pub fn stale(store: &mut Store, s: Size) -> u64 {
    store.outdate(s);
    get_all(store, s)
}

// Every turn removes a message and inserts another. Adds the value that is taken out.
pub fn churn(store: &mut Store, s: Size) -> u64 {
    store.spread(s);
    let mut handles = handles::spread(s);
    let mut sum: u64 = 0;
    for (value, k) in (0..s.turns).zip(Choices::new(s)) {
        let k = k % MAX_PLACES;
        sum = sum.wrapping_add(value_taken(store.remove(handles[k])));
        handles[k] = store.insert(value).unwrap_or(Ptr::NONE);
    }
    sum
}

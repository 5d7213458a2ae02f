//! New, clear, order and reserve as C and Rust call them (the module `message` says how).

ghost use Rattle.std.specs.Prelude.{◌≡◌};
ghost use Rattle.model.specs.Store.{tables, store, laid_out};
ghost use Rattle.model.specs.Calls.{clear, order, reserve};
ghost use Rattle.nektawul.specs.Answer.{flat, header_of};

use crate::answer::{FlatAnswer, hand_back, header_of, keep_header};
use arena::clear::{clear, new};
use arena::freelist::canonicalize_freelist;
use arena::reserve::reallocate_min_capacity;
use sequence::answer::{completion_answer, plain_answer};

/// Lays out a new store over the lent tables.
#[unsafe(no_mangle)]
pub extern "C" fn nektawul_new(
    counts: &mut [u16; 3],
    current: &mut u32,
    generations: &mut [u32],
    links: &mut [u16],
    values: &mut [u64],
)
    ensures { store (tables generations.new links.new values.new)
        (header_of counts.new current.new) ≡ laid_out (tables generations.old links.old values.old) }
{
    let h = new(generations, links, values);
    keep_header(h, counts, current);
}

#[unsafe(no_mangle)]
pub extern "C" fn nektawul_clear(
    counts: &mut [u16; 3],
    current: &mut u32,
    generations: &mut [u32],
    links: &mut [u16],
    values: &mut [u64],
) -> FlatAnswer
    ensures { let o = clear (store (tables generations.old links.old values.old)
        (header_of counts.old current.old)) in
        (result ≡ flat o.answer)
        × (store (tables generations.new links.new values.new)
        (header_of counts.new current.new) ≡ o.store) }
{
    let mut h = header_of(counts, *current);
    let cleared = clear(generations, links, values, &mut h);
    hand_back(completion_answer(cleared), h, counts, current)
}

#[unsafe(no_mangle)]
pub extern "C" fn nektawul_canonicalize_freelist(
    counts: &mut [u16; 3],
    current: &mut u32,
    generations: &[u32],
    links: &mut [u16],
    values: &mut [u64],
) -> FlatAnswer
    ensures { let o = order (store (tables generations.now links.old values.old)
        (header_of counts.old current.old)) in
        (result ≡ flat o.answer)
        × (store (tables generations.now links.new values.new)
        (header_of counts.new current.new) ≡ o.store) }
{
    let mut h = header_of(counts, *current);
    let ordered = canonicalize_freelist(generations, links, values, &mut h);
    hand_back(plain_answer(ordered), h, counts, current)
}

#[unsafe(no_mangle)]
pub extern "C" fn nektawul_reallocate_min_capacity(
    places: usize,
    counts: &mut [u16; 3],
    current: &mut u32,
    generations: &[u32],
    links: &mut [u16],
    values: &mut [u64],
) -> FlatAnswer
    ensures { let o = reserve (store (tables generations.now links.old values.old)
        (header_of counts.old current.old)) places in
        (result ≡ flat o.answer)
        × (store (tables generations.now links.new values.new)
        (header_of counts.new current.new) ≡ o.store) }
{
    let mut h = header_of(counts, *current);
    let reserved = reallocate_min_capacity(generations, links, values, &mut h, places);
    hand_back(plain_answer(reserved), h, counts, current)
}

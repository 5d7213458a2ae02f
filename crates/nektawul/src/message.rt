//! The calls on one message as C and Rust call them: numbers and the header first, then the three tables. Each is its
//! call and nothing else; the answer comes in 16 bytes, and the header stands in `counts` (`len`, m, root) and
//! `current` (the current generation). C and Rust programs link against each by its name and parameters, so that the
//! functions of one shape stay apart.

ghost use Rattle.std.specs.Prelude.{◌≡◌};
ghost use Rattle.model.specs.Store.{tables, store, ptr};
ghost use Rattle.model.specs.Calls.{invalidate, get, put, insert, insert_reallocating, remove, remove_index};
ghost use Rattle.nektawul.specs.Answer.{flat, header_of};

use crate::answer::{FlatAnswer, hand_back, header_of};
use arena::insert::{insert_reallocating, insert_within_capacity};
use arena::message::{get, invalidate, put};
use arena::remove::{remove, remove_inx};
use model::Ptr;
use sequence::answer::{access_answer, insertion_answer, invalidation_answer, plain_answer};

#[unsafe(no_mangle)]
pub extern "C" fn nektawul_insert_within_capacity(
    value: u64,
    counts: &mut [u16; 3],
    current: &mut u32,
    generations: &mut [u32],
    links: &mut [u16],
    values: &mut [u64],
) -> FlatAnswer
    ensures { let o = insert (store (tables generations.old links.old values.old)
        (header_of counts.old current.old)) value in
        (result ≡ flat o.answer)
        × (store (tables generations.new links.new values.new)
        (header_of counts.new current.new) ≡ o.store) }
{
    let mut h = header_of(counts, *current);
    let inserted = insert_within_capacity(generations, links, values, &mut h, value);
    hand_back(insertion_answer(value, inserted), h, counts, current)
}

#[unsafe(no_mangle)]
pub extern "C" fn nektawul_insert_reallocating(
    value: u64,
    counts: &mut [u16; 3],
    current: &mut u32,
    generations: &mut [u32],
    links: &mut [u16],
    values: &mut [u64],
) -> FlatAnswer
    ensures { let o = insert_reallocating (store (tables generations.old links.old values.old)
        (header_of counts.old current.old)) value in
        (result ≡ flat o.answer)
        × (store (tables generations.new links.new values.new)
        (header_of counts.new current.new) ≡ o.store) }
{
    let mut h = header_of(counts, *current);
    let inserted = insert_reallocating(generations, links, values, &mut h, value);
    hand_back(insertion_answer(value, inserted), h, counts, current)
}

#[unsafe(no_mangle)]
pub extern "C" fn nektawul_remove(
    index: u16,
    generation: u32,
    counts: &mut [u16; 3],
    current: &mut u32,
    generations: &mut [u32],
    links: &mut [u16],
    values: &mut [u64],
) -> FlatAnswer
    ensures { let o = remove (store (tables generations.old links.old values.old)
        (header_of counts.old current.old)) (ptr index generation) in
        (result ≡ flat o.answer)
        × (store (tables generations.new links.new values.new)
        (header_of counts.new current.new) ≡ o.store) }
{
    let mut h = header_of(counts, *current);
    let p = Ptr { index, generation };
    let removed = remove(generations, links, values, &mut h, p);
    hand_back(removed, h, counts, current)
}

#[unsafe(no_mangle)]
pub extern "C" fn nektawul_remove_inx(
    index: u16,
    counts: &mut [u16; 3],
    current: &mut u32,
    generations: &mut [u32],
    links: &mut [u16],
    values: &mut [u64],
) -> FlatAnswer
    ensures { let o = remove_index (store (tables generations.old links.old values.old)
        (header_of counts.old current.old)) index in
        (result ≡ flat o.answer)
        × (store (tables generations.new links.new values.new)
        (header_of counts.new current.new) ≡ o.store) }
{
    let mut h = header_of(counts, *current);
    let removed = remove_inx(generations, links, values, &mut h, index);
    hand_back(removed, h, counts, current)
}

#[unsafe(no_mangle)]
pub extern "C" fn nektawul_invalidate(
    index: u16,
    generation: u32,
    counts: &mut [u16; 3],
    current: &mut u32,
    generations: &mut [u32],
    links: &[u16],
    values: &[u64],
) -> FlatAnswer
    ensures { let o = invalidate (store (tables generations.old links.now values.now)
        (header_of counts.old current.old)) (ptr index generation) in
        (result ≡ flat o.answer)
        × (store (tables generations.new links.now values.now)
        (header_of counts.new current.new) ≡ o.store) }
{
    let mut h = header_of(counts, *current);
    let p = Ptr { index, generation };
    let invalidated = invalidate(generations, links, values, &mut h, p);
    hand_back(invalidation_answer(invalidated), h, counts, current)
}

#[unsafe(no_mangle)]
pub extern "C" fn nektawul_get(
    index: u16,
    generation: u32,
    counts: &[u16; 3],
    current: u32,
    generations: &[u32],
    links: &[u16],
    values: &[u64],
) -> FlatAnswer
    ensures { result ≡ flat (get (store (tables generations.now links.now values.now)
        (header_of counts.now current)) (ptr index generation)).answer }
{
    let p = Ptr { index, generation };
    let got = get(generations, links, values, header_of(counts, current), p);
    FlatAnswer::from(access_answer(p, got))
}

#[unsafe(no_mangle)]
pub extern "C" fn nektawul_put(
    value: u64,
    index: u16,
    generation: u32,
    counts: &[u16; 3],
    current: u32,
    generations: &[u32],
    links: &[u16],
    values: &mut [u64],
) -> FlatAnswer
    ensures { let o = put (store (tables generations.now links.now values.old)
        (header_of counts.now current)) (ptr index generation) value in
        (result ≡ flat o.answer)
        × (store (tables generations.now links.now values.new)
        (header_of counts.now current) ≡ o.store) }
{
    let h = header_of(counts, current);
    let p = Ptr { index, generation };
    let done = put(generations, links, values, h, p, value);
    FlatAnswer::from(plain_answer(done))
}

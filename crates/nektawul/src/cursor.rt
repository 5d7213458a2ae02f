//! The finds, advance and drain as C and Rust call them (the module `message` says how). The cursor stands in `next`
//! (its index) and `rev`.

ghost use Rattle.std.specs.Prelude.{◌≡◌};
ghost use Rattle.model.specs.Store.{tables, store};
ghost use Rattle.model.specs.Calls.{advance, drain, find_first, find_last};
ghost use Rattle.nektawul.specs.Answer.{flat, header_of};
ghost use Rattle.nektawul.specs.Cursor.{cursor_of};

use crate::answer::{FlatAnswer, hand_back, header_of};
use arena::advance::{advance, drain};
use arena::find::{find_first_inx_ptr, find_last_inx_ptr};
use model::Cursor;
use sequence::answer::{drained_answer, found_answer};

// The cursor that is handed in, and then the one that is handed back.
fn cursor_of(next: u16, rev: bool) -> Cursor
    ensures { result ≡ cursor_of next rev }
{
    Cursor { index: next, rev }
}

fn keep_cursor(c: Cursor, next: &mut u16, rev: &mut bool)
    ensures { cursor_of next.new rev.new ≡ c }
{
    *next = c.index;
    *rev = c.rev;
}

#[tactic(auto, using(crate::proofs::Shown::find_first_shown))]
#[unsafe(no_mangle)]
pub extern "C" fn nektawul_find_first_inx_ptr(
    counts: &[u16; 3],
    current: u32,
    generations: &[u32],
    links: &[u16],
    values: &[u64],
) -> FlatAnswer
    ensures { result ≡ flat (find_first (store (tables generations.now links.now values.now)
        (header_of counts.now current))).answer }
{
    let found = find_first_inx_ptr(generations, links, values, header_of(counts, current));
    FlatAnswer::from(found_answer(found))
}

#[tactic(auto, using(crate::proofs::Shown::find_last_shown))]
#[unsafe(no_mangle)]
pub extern "C" fn nektawul_find_last_inx_ptr(
    counts: &[u16; 3],
    current: u32,
    generations: &[u32],
    links: &[u16],
    values: &[u64],
) -> FlatAnswer
    ensures { result ≡ flat (find_last (store (tables generations.now links.now values.now)
        (header_of counts.now current))).answer }
{
    let found = find_last_inx_ptr(generations, links, values, header_of(counts, current));
    FlatAnswer::from(found_answer(found))
}

#[unsafe(no_mangle)]
pub extern "C" fn nektawul_advance(
    next: &mut u16,
    rev: &mut bool,
    counts: &[u16; 3],
    current: u32,
    generations: &[u32],
    links: &[u16],
    values: &[u64],
) -> FlatAnswer
    ensures { let o = advance (store (tables generations.now links.now values.now)
        (header_of counts.now current)) (cursor_of next.old rev.old) in
        (result ≡ flat o.outcome.answer)
        × (cursor_of next.new rev.new ≡ o.cursor) }
{
    let mut c = cursor_of(*next, *rev);
    let h = header_of(counts, current);
    let found = advance(generations, links, values, h, &mut c);
    keep_cursor(c, next, rev);
    FlatAnswer::from(found_answer(found))
}

#[unsafe(no_mangle)]
pub extern "C" fn nektawul_drain(
    next: &mut u16,
    rev: &mut bool,
    counts: &mut [u16; 3],
    current: &mut u32,
    generations: &mut [u32],
    links: &mut [u16],
    values: &mut [u64],
) -> FlatAnswer
    ensures { let o = drain (store (tables generations.old links.old values.old)
        (header_of counts.old current.old)) (cursor_of next.old rev.old) in
        (result ≡ flat o.outcome.answer)
        × (store (tables generations.new links.new values.new)
        (header_of counts.new current.new) ≡ o.outcome.store)
        × (cursor_of next.new rev.new ≡ o.cursor) }
{
    let mut c = cursor_of(*next, *rev);
    let mut h = header_of(counts, *current);
    let drained = drain(generations, links, values, &mut h, &mut c);
    keep_cursor(c, next, rev);
    hand_back(drained_answer(drained), h, counts, current)
}

//! The cursor over a store's messages (`PtrAdvancer`): `advance`, and `drain`, which removes the message that the
//! cursor finds, and at the end clears the store.

ghost use Rattle.std.specs.Prelude.{◌+◌, ◌≡◌, ℕ, List, Ok};
ghost use Rattle.model.specs.Store.{tables, store};
ghost use Rattle.model.specs.Refusals.{removal_unsound};
ghost use Rattle.model.specs.Calls.{outcome, cursor_outcome, moved, sought, advance, drained, drain};
ghost use Rattle.model.specs.Answers.{found_answer, drained_answer};
ghost use Rattle.arena.specs.Found.{some_place};

use crate::clear::{clear_step, clear_store};
use crate::find::found;
use crate::place::entry;
use crate::refusals::{removal_unsound, store_refusal};
use crate::remove::remove_internal;
use model::{Completed, Cursor, Header, Message, Ptr, Refusal};

// Moves a cursor to its next index. Up from the largest index it wraps to 0, where it is spent as it is down from 1.
#[tactic(auto, using(model::proofs::Tests::tests), unfolding(model::specs::Calls::moved))]
fn step(c: &mut Cursor)
    requires { c.old.index ≡ 0 → ⊥ }
    ensures { c.new ≡ moved c.old }
{
    c.index = if c.rev {
        c.index - 1
    } else {
        c.index.wrapping_add(1)
    };
}

// The live place that an advance or a drain finds. The cursor moves on before its place is looked at, also where that
// is above the stack.
#[tactic(auto, using(model::proofs::Tests::tests, model::proofs::Advance::sought_spent, model::proofs::Advance::sought_beyond, model::proofs::Advance::sought_found, model::proofs::Advance::sought_on, crate::proofs::Moves::moves_left, crate::proofs::Moves::moves_fewer), unfolding(crate::specs::Found::some_place))]
fn sought(generations: &[u32], m: u16, c: &mut Cursor) -> Option<u16>
    ensures { let o = sought (m + 1) generations.now m c.old in
        (c.new ≡ o.cursor) × (result ≡ some_place o.place) }
{
    while c.index != 0 {
        let p = c.index;
        step(c);
        if p > m {
            return None;
        }
        if entry(generations, p) != 0 {
            return Some(p);
        }
    }
    None
}

#[tactic(auto, using(model::proofs::Tests::tests, crate::proofs::Searching::found_shown), unfolding(model::specs::Calls::advance, model::specs::Calls::unless_at))]
pub fn advance(
    generations: &[u32],
    links: &[u16],
    values: &[u64],
    h: Header,
    c: &mut Cursor,
) -> Result<Option<Ptr>, Refusal>
    ensures { cursor_outcome c.new
        (outcome (found_answer result) (store (tables generations.now links.now values.now) h))
        ≡ advance (store (tables generations.now links.now values.now) h) c.old }
{
    store_refusal(generations, links, values, h)?;
    let place = sought(generations, h.m, c);
    Ok(found(generations, place))
}

// Refusal 4, `Unsound`, asks for the place that is found. Where there is none it does not hold.
#[tactic(auto, using(crate::proofs::Draining::unsound_found))]
fn place_unsound(generations: &[u32], h: Header, place: Option<u16>) -> bool
    ensures { (l v : List ℕ) (q : ℕ) → place ≡ some_place q
        → result ≡ removal_unsound (store (tables generations.now l v) h) q }
{
    place.is_some_and(|p| removal_unsound(generations, h, p))
}

// A drain without its tests: the message at the place found is removed, and where there is none the store is cleared.
#[tactic(auto, using(crate::proofs::Draining::drained_none))]
fn drain_place(
    generations: &mut [u32],
    links: &mut [u16],
    values: &mut [u64],
    h: &mut Header,
    place: Option<u16>,
) -> Option<Completed<Message>>
    ensures { (q : ℕ) → place ≡ some_place q → outcome (drained_answer (Ok result))
        (store (tables generations.new links.new values.new) h.new)
        ≡ drained (store (tables generations.old links.old values.old) h.old) q }
{
    match place {
        None => {
            let stepped = clear_step(*h);
            clear_store(generations, links, values, h, stepped.generation);
            None
        }
        Some(p) => {
            let removal = remove_internal(generations, links, values, h, p);
            Some(removal)
        }
    }
}

/// A refusal leaves the cursor as it was given.
#[tactic(auto, using(model::proofs::Tests::tests, model::proofs::Refusals::drain_row), unfolding(model::specs::Calls::drain, model::specs::Calls::unless_at))]
pub fn drain(
    generations: &mut [u32],
    links: &mut [u16],
    values: &mut [u64],
    h: &mut Header,
    c: &mut Cursor,
) -> Result<Option<Completed<Message>>, Refusal>
    ensures { cursor_outcome c.new (outcome (drained_answer result)
        (store (tables generations.new links.new values.new) h.new))
        ≡ drain (store (tables generations.old links.old values.old) h.old) c.old }
{
    store_refusal(generations, links, values, *h)?;
    let mut next = *c;
    let place = sought(generations, h.m, &mut next);
    if place_unsound(generations, *h, place) {
        return Err(Refusal::Unsound);
    }
    *c = next;
    Ok(drain_place(generations, links, values, h, place))
}

//! The lowest and the highest message: `find_first_inx_ptr` and `find_last_inx_ptr`.

ghost use Rattle.std.specs.Prelude.{◌≡◌};
ghost use Rattle.model.specs.Store.{tables, store};
ghost use Rattle.model.specs.Freelist.{first_live, last_live};
ghost use Rattle.model.specs.Calls.{outcome, find_first, find_last};
ghost use Rattle.model.specs.Answers.{found_answer};
ghost use Rattle.arena.specs.Found.{some_place, found_ptr};

use crate::place::{entry, ptr_at};
use crate::refusals::store_refusal;
use model::{Header, Ptr, Refusal};

// The lowest live place.
fn first_live(generations: &[u32], m: u16) -> Option<u16>
    ensures { result ≡ some_place (first_live generations.now m) }
{
    (1..=m).find(|p| entry(generations, *p) != 0)
}

// The highest live place.
pub(crate) fn last_live(generations: &[u32], m: u16) -> Option<u16>
    ensures { result ≡ some_place (last_live generations.now m) }
{
    (1..=m).rev().find(|p| entry(generations, *p) != 0)
}

// The handle of the message at a place.
#[tactic(auto, unfolding(crate::specs::Found::found_ptr))]
pub(crate) fn found(generations: &[u32], place: Option<u16>) -> Option<Ptr>
    ensures { result ≡ found_ptr generations.now place }
{
    place.map(|p| ptr_at(generations, p))
}

/// The two finds share `found`.
#[tactic(auto, using(crate::proofs::Searching::found_shown), unfolding(model::specs::Calls::find_first, model::specs::Calls::unless))]
pub fn find_first_inx_ptr(
    generations: &[u32],
    links: &[u16],
    values: &[u64],
    h: Header,
) -> Result<Option<Ptr>, Refusal>
    ensures { outcome (found_answer result) (store (tables generations.now links.now values.now) h)
        ≡ find_first (store (tables generations.now links.now values.now) h) }
{
    store_refusal(generations, links, values, h)?;
    Ok(found(generations, first_live(generations, h.m)))
}

#[tactic(auto, using(crate::proofs::Searching::found_shown), unfolding(model::specs::Calls::find_last, model::specs::Calls::unless))]
pub fn find_last_inx_ptr(
    generations: &[u32],
    links: &[u16],
    values: &[u64],
    h: Header,
) -> Result<Option<Ptr>, Refusal>
    ensures { outcome (found_answer result) (store (tables generations.now links.now values.now) h)
        ≡ find_last (store (tables generations.now links.now values.now) h) }
{
    store_refusal(generations, links, values, h)?;
    Ok(found(generations, last_live(generations, h.m)))
}

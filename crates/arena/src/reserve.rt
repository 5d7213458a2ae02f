//! Reserve: `reallocate_min_capacity`. The tables are lent, so that it moves nothing; it orders the store, and says
//! whether there are so many places.

ghost use Rattle.std.specs.Prelude.{ℕ, ◌≡◌, List};
ghost use Rattle.model.specs.Store.{tables, store};
ghost use Rattle.model.specs.Refusals.{beyond_index};
ghost use Rattle.model.specs.Calls.{outcome, reserve_refusal, reserve};
ghost use Rattle.model.specs.Answers.{turned_down, plain_answer};
ghost use Rattle.model.specs.declared.Header.{Header};

use crate::freelist::{order_refusal, order_store};
use model::{Header, Ptr, Refusal};

// `AllocError`: a number that no index reaches.
fn beyond_index(n: usize) -> bool
    ensures { result ≡ beyond_index n }
{
    n > Ptr::MAX_INDEX as usize
}

// Reserve's tests of its number, which may be larger than any index. They ask only for the number of places.
#[tactic(auto, using(model::proofs::Tests::tests), unfolding(model::specs::Calls::reserve_refusal))]
fn reserve_refusal(generations: &[u32], places: usize) -> Result<(), Refusal>
    ensures { (l v : List ℕ) (h : Header) → turned_down result
        ≡ reserve_refusal (store (tables generations.now l v) h) places }
{
    if beyond_index(places) {
        return Err(Refusal::AllocError);
    }
    if places > generations.len() {
        return Err(Refusal::BeyondMaxCapacity);
    }
    Ok(())
}

/// The store is ordered before the number is tested, so that refusals 8 and 9, `AllocError` and `BeyondMaxCapacity`,
/// leave it ordered.
#[tactic(auto, using(model::proofs::Tests::tests), unfolding(model::specs::Calls::reserve, model::specs::Calls::unless))]
pub fn reallocate_min_capacity(
    generations: &[u32],
    links: &mut [u16],
    values: &mut [u64],
    h: &mut Header,
    places: usize,
) -> Result<(), Refusal>
    ensures { outcome (plain_answer result)
        (store (tables generations.now links.new values.new) h.new)
        ≡ reserve (store (tables generations.now links.old values.old) h.old) places }
{
    order_refusal(generations, links, values, *h)?;
    order_store(generations, links, values, h);
    reserve_refusal(generations, places)
}

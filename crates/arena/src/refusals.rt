//! The tests by which calls are turned down: whether tables, header and handle are fit (`TablesUnfit`, `HeaderUnfit`,
//! `Zero`), and `Unsound`, `InvalidPtr` and `NotWithinCapacity` of the calls on one message. Each takes only the
//! tables that it reads, so that its answer holds with any others.

ghost use Rattle.std.specs.Prelude.{ℕ, ◌≡◌, List};
ghost use Rattle.model.specs.Store.{tables, store};
ghost use Rattle.model.specs.Refusals.{tables_unfit, header_unfit, zero_ptr, root_unsound, removal_unsound, invalid_index, invalid_ptr, not_within_capacity};
ghost use Rattle.model.specs.Calls.{store_refusal};
ghost use Rattle.model.specs.Answers.{turned_down};

use crate::place::entry;
use model::{Header, MAX_PLACES, Ptr, Refusal};

/// `TablesUnfit`.
#[tactic(auto, using(model::proofs::Tests::tests), unfolding(model::specs::Refusals::tables_unfit))]
pub fn tables_unfit(generations: &[u32], links: &[u16], values: &[u64]) -> bool
    ensures { result ≡ tables_unfit (tables generations.now links.now values.now) }
{
    generations.len() != links.len()
        || generations.len() != values.len()
        || generations.len() > MAX_PLACES
}

// `HeaderUnfit`. It asks only for the number of places, so the answer holds with any links and values.
#[tactic(auto, using(model::proofs::Tests::tests), unfolding(model::specs::Refusals::header_unfit))]
pub(crate) fn header_unfit(generations: &[u32], h: Header) -> bool
    ensures { (l v : List ℕ) → result ≡ header_unfit (store (tables generations.now l v) h) }
{
    h.m as usize > generations.len() || h.len > h.m || h.root > h.m || h.generation == 0
}

// The refusals of a call that has no other, in checking order.
#[tactic(auto, unfolding(model::specs::Calls::store_refusal))]
pub(crate) fn store_refusal(
    generations: &[u32],
    links: &[u16],
    values: &[u64],
    h: Header,
) -> Result<(), Refusal>
    ensures { turned_down result
        ≡ store_refusal (store (tables generations.now links.now values.now) h) }
{
    if tables_unfit(generations, links, values) {
        return Err(Refusal::TablesUnfit);
    }
    if header_unfit(generations, h) {
        return Err(Refusal::HeaderUnfit);
    }
    Ok(())
}

// `Zero`, of a handle.
#[tactic(auto, using(model::proofs::Tests::tests), unfolding(model::specs::Refusals::zero_ptr))]
pub(crate) fn zero_ptr(p: Ptr) -> bool
    ensures { result ≡ zero_ptr p }
{
    p.index == 0 || p.generation == 0
}

// `Unsound`, of insert: a chain that cannot be taken from.
#[tactic(auto, using(model::proofs::Tests::tests), unfolding(model::specs::Refusals::root_unsound))]
pub(crate) fn root_unsound(generations: &[u32], links: &[u16], h: Header) -> bool
    ensures { (v : List ℕ) → result ≡ root_unsound (store (tables generations.now links.now v) h) }
{
    if h.root == 0 {
        return false;
    }
    let link = entry(links, h.root);
    entry(generations, h.root) != 0 || link == 0 || link > h.m || h.len == h.m
}

// `Unsound`, of a removal: a message that `len` or the root says is not there.
#[tactic(auto, using(model::proofs::Tests::tests), unfolding(model::specs::Refusals::removal_unsound))]
pub(crate) fn removal_unsound(generations: &[u32], h: Header, i: u16) -> bool
    ensures { (l v : List ℕ) → result ≡ removal_unsound (store (tables generations.now l v) h) i }
{
    i <= h.m && entry(generations, i) != 0 && (h.len == 0 || h.root == i)
}

// `InvalidPtr`, of an index.
#[tactic(auto, using(model::proofs::Tests::tests), unfolding(model::specs::Refusals::invalid_index))]
pub(crate) fn invalid_index(generations: &[u32], h: Header, i: u16) -> bool
    ensures { (l v : List ℕ) → result ≡ invalid_index (store (tables generations.now l v) h) i }
{
    i > h.m || entry(generations, i) == 0
}

// `InvalidPtr`, of a handle.
#[tactic(auto, unfolding(model::specs::Refusals::invalid_ptr))]
pub(crate) fn invalid_ptr(generations: &[u32], h: Header, p: Ptr) -> bool
    ensures { (l v : List ℕ) → result ≡ invalid_ptr (store (tables generations.now l v) h) p }
{
    invalid_index(generations, h, p.index) || entry(generations, p.index) != p.generation
}

// `NotWithinCapacity`.
#[tactic(auto, using(model::proofs::Tests::tests), unfolding(model::specs::Refusals::not_within_capacity))]
pub(crate) fn not_within_capacity(generations: &[u32], h: Header) -> bool
    ensures { (l v : List ℕ) → result ≡ not_within_capacity (store (tables generations.now l v) h) }
{
    h.root == 0 && h.m as usize == generations.len()
}

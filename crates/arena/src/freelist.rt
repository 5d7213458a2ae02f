//! The free chain: links, the count of live places, and order (`canonicalize_freelist`).

ghost use Rattle.std.specs.Prelude.{ℕ, ◌≡◌, List};
ghost use Rattle.model.specs.Store.{tables, store};
ghost use Rattle.model.specs.Freelist.{next_free, link_to, live_count, trim, trimmed, chain, chained};
ghost use Rattle.model.specs.Refusals.{count_wrong};
ghost use Rattle.model.specs.Calls.{outcome, order_refusal, ordered, order};
ghost use Rattle.model.specs.Answers.{turned_down, plain_answer};

use crate::place::{entry, write};
use crate::refusals::store_refusal;
use model::{Header, Refusal};

// The place after p in the chain. 0 is none, as in the header's root, which is where insert puts it.
#[tactic(auto, using(model::proofs::Tests::tests), unfolding(model::specs::Freelist::next_free))]
pub(crate) fn next_free(links: &[u16], p: u16) -> u16
    ensures { result ≡ next_free links.now p }
{
    let link = entry(links, p);
    if link == p { 0 } else { link }
}

// The link of a place p that becomes the root.
#[tactic(auto, using(model::proofs::Tests::tests), unfolding(model::specs::Freelist::link_to))]
pub(crate) fn link_to(root: u16, p: u16) -> u16
    ensures { result ≡ link_to root p }
{
    if root != 0 { root } else { p }
}

// How many of the places 1 to m are live.
#[tactic(auto, using(model::proofs::Tests::tests, model::proofs::Freelist::live_count_next, model::proofs::Freelist::live_count_low), unfolding(model::specs::Freelist::live_count))]
pub(crate) fn live_count(generations: &[u32], m: u16) -> u16
    ensures { result ≡ live_count generations.now m }
{
    let mut n = 0;
    for p in 1..=m {
        if entry(generations, p) != 0 {
            n += 1;
        }
    }
    n
}

// Refusal 4, `Unsound`, of order. It asks for neither links nor values.
#[tactic(auto, unfolding(model::specs::Refusals::count_wrong))]
fn count_wrong(generations: &[u32], h: Header) -> bool
    ensures { (l v : List ℕ) → result ≡ count_wrong (store (tables generations.now l v) h) }
{
    live_count(generations, h.m) != h.len
}

// Order's refusals, in checking order.
#[tactic(auto, using(model::proofs::Tests::tests, model::proofs::Refusals::order_row))]
pub(crate) fn order_refusal(
    generations: &[u32],
    links: &[u16],
    values: &[u64],
    h: Header,
) -> Result<(), Refusal>
    ensures { turned_down result
        ≡ order_refusal (store (tables generations.now links.now values.now) h) }
{
    store_refusal(generations, links, values, h)?;
    if count_wrong(generations, h) {
        return Err(Refusal::Unsound);
    }
    Ok(())
}

// Pops the trailing free places. Their generations are 0 already. Returns the stack's new length.
#[tactic(auto, using(model::proofs::Tests::tests, model::proofs::Freelist::trimmed_next), unfolding(model::specs::Freelist::trimmed))]
fn remove_free_end_slots(generations: &[u32], links: &mut [u16], values: &mut [u64], m: u16) -> u16
    ensures { trim result links.new values.new
        ≡ trimmed generations.now m links.old values.old }
{
    for n in (1..=m).rev() {
        if entry(generations, n) != 0 {
            return n;
        }
        write(links, n, 0);
        write(values, n, 0);
    }
    0
}

// Links the free places of a stack, ascending. Returns the root.
#[tactic(auto, using(model::proofs::Tests::tests, model::proofs::Freelist::chained_next), unfolding(model::specs::Freelist::chained))]
fn link_free_places(generations: &[u32], links: &mut [u16], m: u16) -> u16
    ensures { chain result links.new ≡ chained generations.now m links.old 0 }
{
    let mut root = 0;
    for p in (1..=m).rev() {
        if entry(generations, p) == 0 {
            write(links, p, link_to(root, p));
            root = p;
        }
    }
    root
}

// The work of order, without its tests.
#[tactic(auto, unfolding(model::specs::Calls::ordered))]
pub(crate) fn order_store(
    generations: &[u32],
    links: &mut [u16],
    values: &mut [u64],
    h: &mut Header,
)
    ensures { store (tables generations.now links.new values.new) h.new
        ≡ ordered (store (tables generations.now links.old values.old) h.old) }
{
    h.m = remove_free_end_slots(generations, links, values, h.m);
    h.root = link_free_places(generations, links, h.m);
}

/// Order: the free chain is laid anew, so that equal messages make equal stores.
#[tactic(auto, using(model::proofs::Tests::tests), unfolding(model::specs::Calls::order, model::specs::Calls::unless))]
pub fn canonicalize_freelist(
    generations: &[u32],
    links: &mut [u16],
    values: &mut [u64],
    h: &mut Header,
) -> Result<(), Refusal>
    ensures { outcome (plain_answer result)
        (store (tables generations.now links.new values.new) h.new)
        ≡ order (store (tables generations.now links.old values.old) h.old) }
{
    order_refusal(generations, links, values, *h)?;
    order_store(generations, links, values, h);
    Ok(())
}

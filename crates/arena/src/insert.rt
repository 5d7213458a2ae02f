//! Insert: `insert_within_capacity` and `insert_reallocating`.

ghost use Rattle.std.specs.Prelude.{◌≤◌, ◌≡◌};
ghost use Rattle.model.specs.Store.{limit, tables, store};
ghost use Rattle.model.specs.Calls.{outcome, insert_refusal, insert_reallocating_refusal, inserted, insert, insert_reallocating};
ghost use Rattle.model.specs.Answers.{turned_down, insertion_answer};

use crate::freelist::next_free;
use crate::refusals::{not_within_capacity, root_unsound, store_refusal};
use crate::stack::fill_place;
use model::{Header, Ptr, Refusal};

// The tests of the two insertions, in checking order. Both begin with `TablesUnfit`, `HeaderUnfit` and `Unsound`; here
// `NotWithinCapacity` follows, below `BeyondMaxCapacity` and then that.
#[tactic(auto, using(model::proofs::Tests::tests, model::proofs::Refusals::insert_row))]
fn insert_refusal(
    generations: &[u32],
    links: &[u16],
    values: &[u64],
    h: Header,
) -> Result<(), Refusal>
    ensures { turned_down result
        ≡ insert_refusal (store (tables generations.now links.now values.now) h) }
{
    store_refusal(generations, links, values, h)?;
    if root_unsound(generations, links, h) {
        return Err(Refusal::Unsound);
    }
    if not_within_capacity(generations, h) {
        return Err(Refusal::NotWithinCapacity);
    }
    Ok(())
}

#[tactic(auto, using(model::proofs::Tests::tests, model::proofs::Refusals::insert_reallocating_row))]
fn insert_reallocating_refusal(
    generations: &[u32],
    links: &[u16],
    values: &[u64],
    h: Header,
) -> Result<(), Refusal>
    ensures { turned_down result
        ≡ insert_reallocating_refusal (store (tables generations.now links.now values.now) h) }
{
    store_refusal(generations, links, values, h)?;
    if root_unsound(generations, links, h) {
        return Err(Refusal::Unsound);
    }
    if h.len as usize == generations.len() {
        return Err(Refusal::BeyondMaxCapacity);
    }
    if not_within_capacity(generations, h) {
        return Err(Refusal::NotWithinCapacity);
    }
    Ok(())
}

// The root is taken, or a place is pushed. What was tested before leaves room for one more.
#[tactic(auto, using(model::proofs::Tests::tests), unfolding(model::specs::Calls::inserted))]
fn insert(
    generations: &mut [u32],
    links: &mut [u16],
    values: &mut [u64],
    h: &mut Header,
    value: u64,
) -> Ptr
    requires { (h.old.m ≤ limit) × (h.old.len ≤ limit) }
    ensures { outcome (insertion_answer value (Ok result))
        (store (tables generations.new links.new values.new) h.new)
        ≡ inserted (store (tables generations.old links.old values.old) h.old) value }
{
    let mut p = h.root;
    if p == 0 {
        h.m += 1;
        p = h.m;
    } else {
        h.root = next_free(links, p);
    }
    h.len += 1;
    fill_place(generations, links, values, p, h.generation, value);
    Ptr::new(p, h.generation)
}

/// The two insertions share `insert`.
#[tactic(auto, using(model::proofs::Refusals::within_limit, model::proofs::Refusals::insert_fits), unfolding(model::specs::Calls::insert, model::specs::Calls::unless))]
pub fn insert_within_capacity(
    generations: &mut [u32],
    links: &mut [u16],
    values: &mut [u64],
    h: &mut Header,
    value: u64,
) -> Result<Ptr, Refusal>
    ensures { outcome (insertion_answer value result)
        (store (tables generations.new links.new values.new) h.new)
        ≡ insert (store (tables generations.old links.old values.old) h.old) value }
{
    insert_refusal(generations, links, values, *h)?;
    Ok(insert(generations, links, values, h, value))
}

#[tactic(auto, using(model::proofs::Refusals::within_limit, model::proofs::Refusals::insert_reallocating_fits), unfolding(model::specs::Calls::insert_reallocating, model::specs::Calls::unless))]
pub fn insert_reallocating(
    generations: &mut [u32],
    links: &mut [u16],
    values: &mut [u64],
    h: &mut Header,
    value: u64,
) -> Result<Ptr, Refusal>
    ensures { outcome (insertion_answer value result)
        (store (tables generations.new links.new values.new) h.new)
        ≡ insert_reallocating (store (tables generations.old links.old values.old) h.old) value }
{
    insert_reallocating_refusal(generations, links, values, *h)?;
    Ok(insert(generations, links, values, h, value))
}

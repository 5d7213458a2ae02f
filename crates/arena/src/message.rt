//! The calls on the message of a handle: `invalidate`, `get` and put, which stands for mutable access.

ghost use Rattle.std.specs.Prelude.{◌≡◌};
ghost use Rattle.model.specs.Store.{tables, store};
ghost use Rattle.model.specs.Calls.{outcome, ptr_refusal, invalidate, get, put};
ghost use Rattle.model.specs.Answers.{turned_down, invalidation_answer, access_answer, plain_answer};

use crate::generation::generational_inc;
use crate::place::{entry, write};
use crate::refusals::{invalid_ptr, store_refusal, zero_ptr};
use model::{Completed, Header, Ptr, Refusal};

// The tests of the three calls, in checking order. A removal has one more, `Unsound`, between the two for the handle.
#[tactic(auto, using(model::proofs::Tests::tests, model::proofs::Refusals::ptr_row))]
fn ptr_refusal(
    generations: &[u32],
    links: &[u16],
    values: &[u64],
    h: Header,
    p: Ptr,
) -> Result<(), Refusal>
    ensures { turned_down result
        ≡ ptr_refusal (store (tables generations.now links.now values.now) h) p }
{
    store_refusal(generations, links, values, h)?;
    if zero_ptr(p) {
        return Err(Refusal::Zero);
    }
    if invalid_ptr(generations, h, p) {
        return Err(Refusal::InvalidPtr);
    }
    Ok(())
}

#[tactic(auto, using(model::proofs::Tests::tests), unfolding(model::specs::Calls::invalidate, model::specs::Calls::unless, model::specs::Calls::answered))]
pub fn invalidate(
    generations: &mut [u32],
    links: &[u16],
    values: &[u64],
    h: &mut Header,
    p: Ptr,
) -> Result<Completed<Ptr>, Refusal>
    ensures { outcome (invalidation_answer result)
        (store (tables generations.new links.now values.now) h.new)
        ≡ invalidate (store (tables generations.old links.now values.now) h.old) p }
{
    ptr_refusal(generations, links, values, *h, p)?;
    let stepped = generational_inc(h.generation);
    h.generation = stepped.generation;
    write(generations, p.index, stepped.generation);
    Ok(Completed::by(stepped.overflow, Ptr::new(p.index, stepped.generation)))
}

#[tactic(auto, using(model::proofs::Tests::tests), unfolding(model::specs::Calls::get, model::specs::Calls::unless))]
pub fn get(
    generations: &[u32],
    links: &[u16],
    values: &[u64],
    h: Header,
    p: Ptr,
) -> Result<u64, Refusal>
    ensures { outcome (access_answer p result) (store (tables generations.now links.now values.now) h)
        ≡ get (store (tables generations.now links.now values.now) h) p }
{
    ptr_refusal(generations, links, values, h, p)?;
    Ok(entry(values, p.index))
}

#[tactic(auto, using(model::proofs::Tests::tests), unfolding(model::specs::Calls::put, model::specs::Calls::unless))]
pub fn put(
    generations: &[u32],
    links: &[u16],
    values: &mut [u64],
    h: Header,
    p: Ptr,
    value: u64,
) -> Result<(), Refusal>
    ensures { outcome (plain_answer result) (store (tables generations.now links.now values.new) h)
        ≡ put (store (tables generations.now links.now values.old) h) p value }
{
    ptr_refusal(generations, links, values, h, p)?;
    write(values, p.index, value);
    Ok(())
}

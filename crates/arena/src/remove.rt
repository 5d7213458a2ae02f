//! Remove: `remove` by handle and `remove_inx` by index, and the work of a removal, which drain and transfer share.

ghost use Rattle.std.specs.Prelude.{◌-◌, ◌≡◌};
ghost use Rattle.model.specs.Store.{tables, store};
ghost use Rattle.model.specs.Calls.{outcome, removed, remove_refusal, remove, remove_index_refusal, remove_index};
ghost use Rattle.model.specs.Answers.{message_answer, turned_down};

use crate::freelist::link_to;
use crate::generation::generational_inc;
use crate::place::{entry, ptr_at};
use crate::refusals::{invalid_index, invalid_ptr, removal_unsound, store_refusal, zero_ptr};
use crate::stack::{free_place, pop};
use model::{Completed, Header, Message, Ptr, Refusal};

// The tests of the two removals, in checking order. Those for a zero and for no live place ask for a handle here and
// for an index below, and 4, `Unsound`, stands between them.
#[tactic(auto, using(model::proofs::Tests::tests, model::proofs::Refusals::remove_row))]
fn remove_refusal(
    generations: &[u32],
    links: &[u16],
    values: &[u64],
    h: Header,
    p: Ptr,
) -> Result<(), Refusal>
    ensures { turned_down result
        ≡ remove_refusal (store (tables generations.now links.now values.now) h) p }
{
    store_refusal(generations, links, values, h)?;
    if zero_ptr(p) {
        return Err(Refusal::Zero);
    }
    if removal_unsound(generations, h, p.index) {
        return Err(Refusal::Unsound);
    }
    if invalid_ptr(generations, h, p) {
        return Err(Refusal::InvalidPtr);
    }
    Ok(())
}

#[tactic(auto, using(model::proofs::Tests::tests, model::proofs::Refusals::remove_index_row))]
fn remove_inx_refusal(
    generations: &[u32],
    links: &[u16],
    values: &[u64],
    h: Header,
    i: u16,
) -> Result<(), Refusal>
    ensures { turned_down result
        ≡ remove_index_refusal (store (tables generations.now links.now values.now) h) i }
{
    store_refusal(generations, links, values, h)?;
    if i == 0 {
        return Err(Refusal::Zero);
    }
    if removal_unsound(generations, h, i) {
        return Err(Refusal::Unsound);
    }
    if invalid_index(generations, h, i) {
        return Err(Refusal::InvalidPtr);
    }
    Ok(())
}

// The removal without its tests: the last place of the stack is popped, any other becomes the root.
// An unsound header may count no message where one is: then 0 stays 0.
#[tactic(auto, using(model::proofs::Tests::tests), unfolding(model::specs::Calls::removed, model::specs::Calls::answered))]
pub(crate) fn remove_internal(
    generations: &mut [u32],
    links: &mut [u16],
    values: &mut [u64],
    h: &mut Header,
    p: u16,
) -> Completed<Message>
    ensures { outcome (message_answer (Ok result))
        (store (tables generations.new links.new values.new) h.new)
        ≡ removed (store (tables generations.old links.old values.old) h.old) p }
{
    let stepped = generational_inc(h.generation);
    let taken = Message {
        ptr: ptr_at(generations, p),
        value: entry(values, p),
    };
    h.len = h.len.saturating_sub(1);
    if p == h.m {
        pop(generations, links, values, p);
        h.m = h.m.saturating_sub(1);
    } else {
        free_place(generations, links, values, p, link_to(h.root, p));
        h.root = p;
    }
    h.generation = stepped.generation;
    Completed::by(stepped.overflow, taken)
}

#[tactic(auto, unfolding(model::specs::Calls::remove, model::specs::Calls::unless))]
pub fn remove(
    generations: &mut [u32],
    links: &mut [u16],
    values: &mut [u64],
    h: &mut Header,
    p: Ptr,
) -> Result<Completed<Message>, Refusal>
    ensures { outcome (message_answer result)
        (store (tables generations.new links.new values.new) h.new)
        ≡ remove (store (tables generations.old links.old values.old) h.old) p }
{
    remove_refusal(generations, links, values, *h, p)?;
    Ok(remove_internal(generations, links, values, h, p.index))
}

#[tactic(auto, unfolding(model::specs::Calls::remove_index, model::specs::Calls::unless))]
pub fn remove_inx(
    generations: &mut [u32],
    links: &mut [u16],
    values: &mut [u64],
    h: &mut Header,
    i: u16,
) -> Result<Completed<Message>, Refusal>
    ensures { outcome (message_answer result)
        (store (tables generations.new links.new values.new) h.new)
        ≡ remove_index (store (tables generations.old links.old values.old) h.old) i }
{
    remove_inx_refusal(generations, links, values, *h, i)?;
    Ok(remove_internal(generations, links, values, h, i))
}

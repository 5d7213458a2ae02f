//! The calls that empty a whole store: `new` and `clear`.

ghost use Rattle.std.specs.Prelude.{◌≡◌};
ghost use Rattle.model.specs.Store.{tables, store, laid_out};
ghost use Rattle.model.specs.Calls.{outcome, clear_step, cleared, clear};
ghost use Rattle.model.specs.Answers.{completion_answer};

use crate::generation::generational_inc;
use crate::refusals::store_refusal;
use crate::stack::{zero_stack, zero_tables};
use model::{Completed, GenerationStep, Header, Refusal};

/// Lays out the lent tables as a new store, and returns its header.
#[tactic(auto, unfolding(model::specs::Store::laid_out))]
pub fn new(generations: &mut [u32], links: &mut [u16], values: &mut [u64]) -> Header
    ensures { store (tables generations.new links.new values.new) result
        ≡ laid_out (tables generations.old links.old values.old) }
{
    zero_tables(generations, links, values);
    Header::of(0, 2)
}

// The generation after a clear: a store without messages keeps its own.
#[tactic(auto, using(model::proofs::Tests::tests), unfolding(model::specs::Calls::clear_step))]
pub(crate) fn clear_step(h: Header) -> GenerationStep
    ensures { result ≡ clear_step h }
{
    if h.len == 0 {
        return GenerationStep {
            generation: h.generation,
            overflow: false,
        };
    }
    generational_inc(h.generation)
}

// The clear without its tests: an empty stack and the generation given.
#[tactic(auto, unfolding(model::specs::Calls::cleared))]
pub(crate) fn clear_store(
    generations: &mut [u32],
    links: &mut [u16],
    values: &mut [u64],
    h: &mut Header,
    generation: u32,
)
    ensures { store (tables generations.new links.new values.new) h.new
        ≡ cleared (store (tables generations.old links.old values.old) h.old) generation }
{
    zero_stack(generations, links, values, h.m);
    *h = Header::of(0, generation);
}

#[tactic(auto, using(model::proofs::Tests::tests), unfolding(model::specs::Calls::clear, model::specs::Calls::unless, model::specs::Calls::answered))]
pub fn clear(
    generations: &mut [u32],
    links: &mut [u16],
    values: &mut [u64],
    h: &mut Header,
) -> Result<Completed<()>, Refusal>
    ensures { outcome (completion_answer result)
        (store (tables generations.new links.new values.new) h.new)
        ≡ clear (store (tables generations.old links.old values.old) h.old) }
{
    store_refusal(generations, links, values, *h)?;
    let stepped = clear_step(*h);
    clear_store(generations, links, values, h, stepped.generation);
    Ok(Completed::by(stepped.overflow, ()))
}

//! The generation step of a handle, and the calls on a store's current generation: `set_generation`, `inc_generation`.

ghost use Rattle.std.specs.Prelude.{◌≡◌};
ghost use Rattle.model.specs.Store.{tables, store};
ghost use Rattle.model.specs.Calls.{outcome, step, set_generation_refusal, set_generation, step_generation};
ghost use Rattle.model.specs.Answers.{turned_down, plain_answer, completion_answer};

use crate::refusals::store_refusal;
use model::{Completed, GenerationStep, Header, Refusal};

// Past the largest generation comes 2: 0 marks a free place, and the Rust keeps 1 for handles that name no message.
#[tactic(auto, using(model::proofs::Width::step_largest, model::proofs::Width::step_other))]
pub(crate) fn generational_inc(generation: u32) -> GenerationStep
    ensures { result ≡ step generation }
{
    if generation == u32::MAX {
        return GenerationStep {
            generation: 2,
            overflow: true,
        };
    }
    GenerationStep {
        generation: generation + 1,
        overflow: false,
    }
}

#[tactic(auto, using(model::proofs::Tests::tests, model::proofs::Refusals::set_generation_row))]
fn set_generation_refusal(
    generations: &[u32],
    links: &[u16],
    values: &[u64],
    h: Header,
    generation: u32,
) -> Result<(), Refusal>
    ensures { turned_down result
        ≡ set_generation_refusal (store (tables generations.now links.now values.now) h) generation }
{
    store_refusal(generations, links, values, h)?;
    if generation == 0 {
        return Err(Refusal::Zero);
    }
    Ok(())
}

#[tactic(auto, using(model::proofs::Tests::tests), unfolding(model::specs::Calls::set_generation, model::specs::Calls::unless))]
pub fn set_generation(
    generations: &[u32],
    links: &[u16],
    values: &[u64],
    h: &mut Header,
    generation: u32,
) -> Result<(), Refusal>
    ensures { outcome (plain_answer result)
        (store (tables generations.now links.now values.now) h.new)
        ≡ set_generation (store (tables generations.now links.now values.now) h.old) generation }
{
    set_generation_refusal(generations, links, values, *h, generation)?;
    h.generation = generation;
    Ok(())
}

#[tactic(auto, using(model::proofs::Tests::tests), unfolding(model::specs::Calls::step_generation, model::specs::Calls::unless, model::specs::Calls::answered))]
pub fn inc_generation(
    generations: &[u32],
    links: &[u16],
    values: &[u64],
    h: &mut Header,
) -> Result<Completed<()>, Refusal>
    ensures { outcome (completion_answer result)
        (store (tables generations.now links.now values.now) h.new)
        ≡ step_generation (store (tables generations.now links.now values.now) h.old) }
{
    store_refusal(generations, links, values, *h)?;
    let stepped = generational_inc(h.generation);
    h.generation = stepped.generation;
    Ok(Completed::by(stepped.overflow, ()))
}

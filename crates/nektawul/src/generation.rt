//! Set and step generation as C and Rust call them (the module `message` says how).

ghost use Rattle.std.specs.Prelude.{◌≡◌};
ghost use Rattle.model.specs.Store.{tables, store};
ghost use Rattle.model.specs.Calls.{set_generation, step_generation};
ghost use Rattle.nektawul.specs.Answer.{flat, header_of};

use crate::answer::{FlatAnswer, hand_back, header_of};
use arena::generation::{inc_generation, set_generation};
use sequence::answer::{completion_answer, plain_answer};

#[unsafe(no_mangle)]
pub extern "C" fn nektawul_set_generation(
    generation: u32,
    counts: &mut [u16; 3],
    current: &mut u32,
    generations: &[u32],
    links: &[u16],
    values: &[u64],
) -> FlatAnswer
    ensures { let o = set_generation (store (tables generations.now links.now values.now)
        (header_of counts.old current.old)) generation in
        (result ≡ flat o.answer)
        × (store (tables generations.now links.now values.now)
        (header_of counts.new current.new) ≡ o.store) }
{
    let mut h = header_of(counts, *current);
    let done = set_generation(generations, links, values, &mut h, generation);
    hand_back(plain_answer(done), h, counts, current)
}

#[unsafe(no_mangle)]
pub extern "C" fn nektawul_inc_generation(
    counts: &mut [u16; 3],
    current: &mut u32,
    generations: &[u32],
    links: &[u16],
    values: &[u64],
) -> FlatAnswer
    ensures { let o = step_generation (store (tables generations.now links.now values.now)
        (header_of counts.old current.old)) in
        (result ≡ flat o.answer)
        × (store (tables generations.now links.now values.now)
        (header_of counts.new current.new) ≡ o.store) }
{
    let mut h = header_of(counts, *current);
    let stepped = inc_generation(generations, links, values, &mut h);
    hand_back(completion_answer(stepped), h, counts, current)
}

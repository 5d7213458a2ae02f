//! Copy as C and Rust call it (the module `message` says how): the destination's header, the source's, the
//! destination's tables, the source's.

ghost use Rattle.std.specs.Prelude.{◌≡◌};
ghost use Rattle.model.specs.Store.{tables, store};
ghost use Rattle.model.specs.Calls.{copy};
ghost use Rattle.nektawul.specs.Answer.{flat, header_of};

use crate::answer::{FlatAnswer, hand_back, header_of};
use arena::clone::clone_from_with;
use sequence::answer::plain_answer;

#[unsafe(no_mangle)]
pub extern "C" fn nektawul_clone_from_with(
    counts: &mut [u16; 3],
    current: &mut u32,
    scounts: &[u16; 3],
    scurrent: u32,
    dgens: &mut [u32],
    dlinks: &mut [u16],
    dvalues: &mut [u64],
    sgens: &[u32],
    slinks: &[u16],
    svalues: &[u64],
) -> FlatAnswer
    ensures { let o = copy
        (store (tables dgens.old dlinks.old dvalues.old) (header_of counts.old current.old))
        (store (tables sgens.now slinks.now svalues.now) (header_of scounts.now scurrent)) in
        (result ≡ flat o.answer)
        × (store (tables dgens.new dlinks.new dvalues.new)
        (header_of counts.new current.new) ≡ o.destination) }
{
    let mut d = header_of(counts, *current);
    let s = header_of(scounts, scurrent);
    let copied = clone_from_with(dgens, dlinks, dvalues, &mut d, sgens, slinks, svalues, s);
    hand_back(plain_answer(copied), d, counts, current)
}

//! Audit as C and Rust call it (the module `message` says how).

ghost use Rattle.std.specs.Prelude.{◌+◌, ◌≤◌, ◌≡◌, get_or};
ghost use Rattle.model.specs.Store.{tables, store};
ghost use Rattle.model.specs.Calls.{audit};
ghost use Rattle.nektawul.specs.Answer.{flat, header_of};

use crate::answer::{FlatAnswer, header_of};
use arena::audit::check_invariants;
use sequence::answer::audited_answer;

/// Audit. The number of chain places that it looked at comes out in `looks`.
#[unsafe(no_mangle)]
pub extern "C" fn nektawul_check_invariants(
    looks: &mut u16,
    counts: &[u16; 3],
    current: u32,
    generations: &[u32],
    links: &[u16],
    values: &[u64],
) -> FlatAnswer
    ensures { (result ≡ flat (audit (store (tables generations.now links.now values.now)
        (header_of counts.now current))).answer) × (looks.new ≤ get_or counts.now 1 0 + 2) }
{
    let audited = check_invariants(generations, links, values, header_of(counts, current));
    *looks = audited.map_or(0, |audit| audit.looks);
    FlatAnswer::from(audited_answer(audited))
}

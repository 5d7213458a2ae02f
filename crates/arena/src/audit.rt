//! The audit (`_check_invariants`): a verdict on a store, of which the free chain is one part, and refusal 4,
//! `Unsound`, of the calls that want a sound store.

ghost use Rattle.std.specs.Prelude.{ℕ, ◌+◌, ◌≤◌, ◌≡◌, List, length, Err};
ghost use Rattle.std.specs.Result.{MatchResult};
ghost use Rattle.model.specs.Store.{tables, store};
ghost use Rattle.model.specs.Audit.{walk, walked, root_wrong, chain_verdict, shape_verdict, verdict};
ghost use Rattle.model.specs.Refusals.{audit_fails};
ghost use Rattle.model.specs.Answers.{verdict_number, AuditPromise};
ghost use Rattle.arena.specs.Looked.{looked_verdict, looked_number};

use crate::freelist::live_count;
use crate::place::entry;
use crate::refusals::tables_unfit;
use model::{Audit, Header, Refusal, Unsound};

// What is wrong with a store, and how many places of its chain were looked at until it was found.
#[derive(Clone, Copy)]
struct Flaw {
    unsound: Unsound,
    looks: usize,
}

// What is found before the chain is walked.
impl From<Unsound> for Flaw {
    fn from(unsound: Unsound) -> Flaw
        ensures { (result.unsound ≡ unsound) × (result.looks ≡ 0) }
    {
        Flaw { unsound, looks: 0 }
    }
}

// Walks the chain from the root to the place that is linked to itself, and answers how many free places it met: it
// looked at as many. A damaged chain may be cyclic, so that the walk looks at no more than m + 2 places.
#[tactic(auto, using(crate::proofs::Walking::walking_starts, crate::proofs::Walking::walking_goes_on, crate::proofs::Walking::walking_nowhere, crate::proofs::Walking::walking_beyond, crate::proofs::Walking::walking_live, crate::proofs::Walking::walking_last, crate::proofs::Walking::walking_endless))]
fn walk_chain(generations: &[u32], links: &[u16], m: u16, root: u16) -> Result<usize, Flaw>
    ensures walks { let w = walked (m + 2) generations.now links.now m root 0 in
        MatchResult result (λ n. walk 0 n ≡ w) (λ f. verdict_number (Err f.unsound) ≡ w.verdict) }
    ensures looks { looked_number result ≤ m + 2 }
{
    let mut here = root;
    for met in 0..m as usize + 2 {
        if here == 0 {
            return Err(Flaw {
                unsound: Unsound::LinkZero,
                looks: met,
            });
        }
        let looks = met + 1;
        if here > m {
            return Err(Flaw {
                unsound: Unsound::LinkBeyond,
                looks,
            });
        }
        if entry(generations, here) != 0 {
            return Err(Flaw {
                unsound: Unsound::LivePlace,
                looks,
            });
        }
        let next = entry(links, here);
        if next == here {
            return Ok(looks);
        }
        here = next;
    }
    Err(Flaw {
        unsound: Unsound::Endless,
        looks: m as usize + 2,
    })
}

// Verdicts 5 to 9, of a chain that should meet so many free places.
#[tactic(auto, using(model::proofs::Tests::tests), unfolding(model::specs::Audit::chain_verdict))]
fn chain_verdict(
    generations: &[u32],
    links: &[u16],
    m: u16,
    root: u16,
    gaps: u16,
) -> Result<usize, Flaw>
    ensures verdict { looked_verdict result ≡ chain_verdict generations.now links.now m root gaps }
    ensures looks { looked_number result ≤ m + 2 }
{
    let looks = walk_chain(generations, links, m, root)?;
    if looks != gaps as usize {
        return Err(Flaw {
            unsound: Unsound::Discontinuous,
            looks,
        });
    }
    Ok(looks)
}

// Verdict 4: a root where no place is free, or none where one is.
#[tactic(auto, using(model::proofs::Tests::tests))]
fn root_wrong(root: u16, gaps: u16) -> bool
    ensures { result ≡ root_wrong root gaps }
{
    if root == 0 {
        return gaps != 0;
    }
    gaps == 0
}

// Verdicts 3 to 9: the count, the root, and the chain.
#[tactic(auto, using(model::proofs::Tests::tests, model::proofs::Freelist::live_count_low), unfolding(model::specs::Audit::shape_verdict))]
fn shape_verdict(generations: &[u32], links: &[u16], h: Header) -> Result<usize, Flaw>
    ensures verdict { looked_verdict result ≡ shape_verdict generations.now links.now h.len h.m h.root }
    ensures looks { looked_number result ≤ h.m + 2 }
{
    let live = live_count(generations, h.m);
    if h.len != live {
        return Err(Flaw::from(Unsound::Count));
    }
    let gaps = h.m - live;
    if root_wrong(h.root, gaps) {
        return Err(Flaw::from(Unsound::Root));
    }
    if h.root == 0 {
        return Ok(0);
    }
    chain_verdict(generations, links, h.m, h.root, gaps)
}

// The verdict on a store, which does not ask for the values, and the number of chain places looked at for it.
#[tactic(auto, using(model::proofs::Tests::tests), unfolding(model::specs::Audit::verdict))]
fn store_verdict(generations: &[u32], links: &[u16], h: Header) -> Result<usize, Flaw>
    ensures verdict { (v : List ℕ) → looked_verdict result ≡ verdict (store (tables generations.now links.now v) h) }
    ensures looks { (looked_number result ≤ h.m + 2) × (looked_number result ≤ length generations.now + 2) }
{
    if h.generation < 2 {
        return Err(Flaw::from(Unsound::Generation));
    }
    if h.len as usize > generations.len() || h.m as usize > generations.len() {
        return Err(Flaw::from(Unsound::TooLong));
    }
    shape_verdict(generations, links, h)
}

// The verdict without its count of looks, for the calls that are refused on an unsound store.
fn verdict(generations: &[u32], links: &[u16], h: Header) -> Result<(), Unsound>
    ensures { (v : List ℕ) → verdict_number result ≡ verdict (store (tables generations.now links.now v) h) }
{
    let found = store_verdict(generations, links, h);
    found.map(|_| ()).map_err(|flaw| flaw.unsound)
}

// Refusal 4, `Unsound`, of a call that wants a sound store.
pub(crate) fn audit_fails(generations: &[u32], links: &[u16], h: Header) -> bool
    ensures { (v : List ℕ) → result ≡ audit_fails (store (tables generations.now links.now v) h) }
{
    verdict(generations, links, h).is_err()
}

/// Audit. Refusal 2, `HeaderUnfit`, is skipped: what is wrong with a header is the verdict's to say.
#[tactic(auto, using(crate::proofs::Short::tables_short), unfolding(model::specs::Calls::audit, model::specs::Calls::unless))]
pub fn check_invariants(
    generations: &[u32],
    links: &[u16],
    values: &[u64],
    h: Header,
) -> Result<Audit, Refusal>
    ensures { AuditPromise result (store (tables generations.now links.now values.now) h) }
{
    if tables_unfit(generations, links, values) {
        return Err(Refusal::TablesUnfit);
    }
    Ok(match store_verdict(generations, links, h) {
        Ok(looks) => Audit {
            verdict: Ok(()),
            looks: looks as u16,
        },
        Err(flaw) => Audit {
            verdict: Err(flaw.unsound),
            looks: flaw.looks as u16,
        },
    })
}

//! What transfer and copy ask of their two stores, and what a refusal leaves of the destination. The destination's
//! tables are `dgens`, `dlinks`, `dvalues` and its header `d`; the source's are `sgens`, `slinks`, `svalues` and `s`.

ghost use Rattle.std.specs.Prelude.{ℕ, ◌≡◌, List, cond, ◌||◌, eqb};
ghost use Rattle.model.specs.Store.{tables, store};
ghost use Rattle.model.specs.Refusals.{audit_fails};
ghost use Rattle.model.specs.Calls.{stores_refusal, ordered};
ghost use Rattle.model.specs.Answers.{refusal_number, turned_down};

use crate::audit::audit_fails;
use crate::freelist::order_store;
use crate::refusals::{header_unfit, tables_unfit};
use model::{Header, Refusal};

// Refusals 1 and 2, `TablesUnfit` and `HeaderUnfit`, each of both stores, in checking order.
#[tactic(auto, unfolding(model::specs::Calls::stores_refusal))]
pub(crate) fn stores_refusal(
    dgens: &[u32],
    dlinks: &[u16],
    dvalues: &[u64],
    d: Header,
    sgens: &[u32],
    slinks: &[u16],
    svalues: &[u64],
    s: Header,
) -> Result<(), Refusal>
    ensures { turned_down result ≡ stores_refusal (store (tables dgens.now dlinks.now dvalues.now) d)
        (store (tables sgens.now slinks.now svalues.now) s) }
{
    if tables_unfit(dgens, dlinks, dvalues) || tables_unfit(sgens, slinks, svalues) {
        return Err(Refusal::TablesUnfit);
    }
    if header_unfit(dgens, d) || header_unfit(sgens, s) {
        return Err(Refusal::HeaderUnfit);
    }
    Ok(())
}

// Refusal 4, `Unsound`: the audit of either store fails.
pub(crate) fn either_audit_fails(
    dgens: &[u32],
    dlinks: &[u16],
    d: Header,
    sgens: &[u32],
    slinks: &[u16],
    s: Header,
) -> bool
    ensures { (v w : List ℕ) → result ≡ audit_fails (store (tables dgens.now dlinks.now v) d)
        || audit_fails (store (tables sgens.now slinks.now w) s) }
{
    audit_fails(dgens, dlinks, d) || audit_fails(sgens, slinks, s)
}

// Refusal 9, `BeyondMaxCapacity`, leaves the destination ordered, any other as it was given.
#[tactic(auto, using(model::proofs::Tests::tests))]
pub(crate) fn refused_destination(
    refusal: Refusal,
    dgens: &[u32],
    dlinks: &mut [u16],
    dvalues: &mut [u64],
    d: &mut Header,
)
    ensures { store (tables dgens.now dlinks.new dvalues.new) d.new
        ≡ cond (eqb (refusal_number refusal) 9) (ordered (store (tables dgens.now dlinks.old dvalues.old) d.old))
        (store (tables dgens.now dlinks.old dvalues.old) d.old) }
{
    if refusal == Refusal::BeyondMaxCapacity {
        order_store(dgens, dlinks, dvalues, d);
    }
}

//! Copy (`clone_from_with`): a destination takes the messages of a source, at the same places and with the same
//! handles. The destination's tables are `dgens`, `dlinks`, `dvalues` and its header `d`; the source's are `sgens`,
//! `slinks`, `svalues` and `s`.

ghost use Rattle.std.specs.Prelude.{ℕ, ◌≡◌, List, map, cond, eqb};
ghost use Rattle.model.specs.Store.{at, tables, store};
ghost use Rattle.model.specs.Freelist.{free, live_count, last_live};
ghost use Rattle.model.specs.Calls.{laid, both_outcome, copy_refusal, up_to, copied, copy};
ghost use Rattle.model.specs.Answers.{turned_down, plain_answer};

use crate::find::last_live;
use crate::freelist::order_store;
use crate::place::entry;
use crate::stack::{fill_place, zero_stack};
use crate::two_stores::{either_audit_fails, refused_destination, stores_refusal};
use model::{Header, Refusal};

// The length of the stack that is copied: its last place is the source's last live one. A source without messages has
// none.
#[tactic(auto, using(model::proofs::Tests::tests), unfolding(crate::specs::Found::some_place))]
fn top(sgens: &[u32], m: u16) -> u16
    ensures { result ≡ last_live sgens.now m }
{
    last_live(sgens, m).unwrap_or(0)
}

// The tests 1, 2 and 4 (`TablesUnfit`, `HeaderUnfit` and `Unsound`) of both stores, and whether the source's last
// message has a place in the destination.
#[tactic(auto, using(model::proofs::Tests::tests, model::proofs::Refusals::copy_row))]
fn copy_refusal(
    dgens: &[u32],
    dlinks: &[u16],
    dvalues: &[u64],
    d: Header,
    sgens: &[u32],
    slinks: &[u16],
    svalues: &[u64],
    s: Header,
) -> Result<(), Refusal>
    ensures { turned_down result ≡ copy_refusal (store (tables dgens.now dlinks.now dvalues.now) d)
        (store (tables sgens.now slinks.now svalues.now) s) }
{
    stores_refusal(dgens, dlinks, dvalues, d, sgens, slinks, svalues, s)?;
    if either_audit_fails(dgens, dlinks, d, sgens, slinks, s) {
        return Err(Refusal::Unsound);
    }
    if top(sgens, s.m) as usize > dgens.len() {
        return Err(Refusal::BeyondMaxCapacity);
    }
    Ok(())
}

// A gap has the value 0, whatever a free place's value is.
#[tactic(auto, using(model::proofs::Tests::tests))]
fn copied_value(generation: u32, value: u64) -> u64
    ensures { result ≡ cond (eqb generation 0) 0 value }
{
    if generation == 0 { 0 } else { value }
}

// Places 1 to `top` of the source, a message or a gap each.
#[tactic(auto, using(crate::proofs::Copying::copying_starts, crate::proofs::Copying::copying_goes_on, crate::proofs::Copying::copying_ends))]
fn copy_places(
    dgens: &mut [u32],
    dlinks: &mut [u16],
    dvalues: &mut [u64],
    sgens: &[u32],
    svalues: &[u64],
    top: u16,
)
    ensures { tables dgens.new dlinks.new dvalues.new
        ≡ laid (tables dgens.old dlinks.old dvalues.old)
        (map (at sgens.now) (up_to top))
        (map (λ p. cond (free sgens.now p) 0 (at svalues.now p)) (up_to top)) }
{
    for p in 1..=top {
        let generation = entry(sgens, p);
        fill_place(
            dgens,
            dlinks,
            dvalues,
            p,
            generation,
            copied_value(generation, entry(svalues, p)),
        );
    }
}

// What a copy does to a destination, from a source of `len` messages. It asks for no link of the source.
fn copy_store(
    dgens: &mut [u32],
    dlinks: &mut [u16],
    dvalues: &mut [u64],
    d: &mut Header,
    sgens: &[u32],
    svalues: &[u64],
    s: Header,
)
    requires { live_count sgens.now s.m ≡ s.len }
    ensures { (l : List ℕ) → store (tables dgens.new dlinks.new dvalues.new) d.new
        ≡ copied (store (tables dgens.old dlinks.old dvalues.old) d.old) (store (tables sgens.now l svalues.now) s) }
{
    let last = top(sgens, s.m);
    zero_stack(dgens, dlinks, dvalues, d.m);
    copy_places(dgens, dlinks, dvalues, sgens, svalues, last);
    *d = Header {
        len: s.len,
        m: last,
        root: 0,
        generation: s.generation,
    };
    order_store(dgens, dlinks, dvalues, d);
}

#[tactic(auto, using(model::proofs::Tests::tests, model::proofs::Refusals::copy_count), unfolding(model::specs::Calls::copy, model::specs::Calls::unless_both))]
pub fn clone_from_with(
    dgens: &mut [u32],
    dlinks: &mut [u16],
    dvalues: &mut [u64],
    d: &mut Header,
    sgens: &[u32],
    slinks: &[u16],
    svalues: &[u64],
    s: Header,
) -> Result<(), Refusal>
    ensures { both_outcome (plain_answer result)
        (store (tables dgens.new dlinks.new dvalues.new) d.new)
        (store (tables sgens.now slinks.now svalues.now) s)
        ≡ copy (store (tables dgens.old dlinks.old dvalues.old) d.old)
        (store (tables sgens.now slinks.now svalues.now) s) }
{
    match copy_refusal(dgens, dlinks, dvalues, *d, sgens, slinks, svalues, s) {
        Ok(()) => {
            copy_store(dgens, dlinks, dvalues, d, sgens, svalues, s);
            Ok(())
        }
        Err(refusal) => {
            refused_destination(refusal, dgens, dlinks, dvalues, d);
            Err(refusal)
        }
    }
}

//! Transfer (`transfer_reallocating`): every message of a source is removed there and inserted into a destination. The
//! destination's tables are `dgens`, `dlinks`, `dvalues` and its header `d`; the source's are `sgens`, `slinks`,
//! `svalues` and `s`.

ghost use Rattle.std.specs.Prelude.{◌≡◌, length, replicate, map};
ghost use Rattle.model.specs.Store.{at, tables, store};
ghost use Rattle.model.specs.Freelist.{live_places};
ghost use Rattle.model.specs.Calls.{laid, removed_all, transfer_refusal, transfer};
ghost use Rattle.model.specs.Answers.{turned_down, plain_answer};

use crate::journal::{Journal, Moves, write_rows};
use crate::place::entry;
use crate::remove::remove_internal;
use crate::stack::{fill_place, zero_stack};
use crate::two_stores::{either_audit_fails, refused_destination, stores_refusal};
use model::{Header, Refusal};

// A sound source has `len` messages to be moved.
#[tactic(auto, using(model::proofs::Tests::tests, model::proofs::Refusals::transfer_row))]
fn transfer_refusal(
    dgens: &[u32],
    dlinks: &[u16],
    dvalues: &[u64],
    d: Header,
    sgens: &[u32],
    slinks: &[u16],
    svalues: &[u64],
    s: Header,
    generation: u32,
    rows: usize,
) -> Result<(), Refusal>
    ensures { turned_down result ≡ transfer_refusal (store (tables dgens.now dlinks.now dvalues.now) d)
        (store (tables sgens.now slinks.now svalues.now) s) generation rows }
{
    stores_refusal(dgens, dlinks, dvalues, d, sgens, slinks, svalues, s)?;
    if generation == 0 {
        return Err(Refusal::Zero);
    }
    if either_audit_fails(dgens, dlinks, d, sgens, slinks, s) {
        return Err(Refusal::Unsound);
    }
    if rows < s.len as usize {
        return Err(Refusal::JournalShort);
    }
    if s.len as usize > dgens.len() {
        return Err(Refusal::BeyondMaxCapacity);
    }
    Ok(())
}

// Each message of the source goes to the destination's next place, from 1 on, and is removed from the source. Returns
// how many they are.
#[tactic(auto, using(crate::proofs::Transferring::moving_starts, crate::proofs::Transferring::moving_live, crate::proofs::Transferring::moving_free, crate::proofs::Transferring::moving_low, crate::proofs::Transferring::moving_lengths, crate::proofs::Transferring::moving_source_lengths, crate::proofs::Transferring::moving_ends))]
fn move_messages(
    dgens: &mut [u32],
    dlinks: &mut [u16],
    dvalues: &mut [u64],
    sgens: &mut [u32],
    slinks: &mut [u16],
    svalues: &mut [u64],
    s: &mut Header,
    generation: u32,
) -> u16
    ensures { (tables dgens.new dlinks.new dvalues.new
        ≡ laid (tables dgens.old dlinks.old dvalues.old)
        (replicate (length (live_places sgens.old s.old.m)) generation)
        (map (at svalues.old) (live_places sgens.old s.old.m)))
        × (store (tables sgens.new slinks.new svalues.new) s.new
        ≡ removed_all (store (tables sgens.old slinks.old svalues.old) s.old) (live_places sgens.old s.old.m))
        × (result ≡ length (live_places sgens.old s.old.m)) }
{
    let m = s.m;
    let mut n = 0;
    for p in 1..=m {
        if entry(sgens, p) != 0 {
            n += 1;
            fill_place(dgens, dlinks, dvalues, n, generation, entry(svalues, p));
            remove_internal(sgens, slinks, svalues, s, p);
        }
    }
    n
}

/// `generation` is that of every message moved, and the destination's afterwards. The rows are written from the source
/// as it stands before the first removal.
#[tactic(auto, using(model::proofs::Tests::tests), unfolding(model::specs::Calls::transfer, model::specs::Calls::unless_both, model::specs::Calls::gathered))]
pub fn transfer_reallocating<J: Journal>(
    dgens: &mut [u32],
    dlinks: &mut [u16],
    dvalues: &mut [u64],
    d: &mut Header,
    sgens: &mut [u32],
    slinks: &mut [u16],
    svalues: &mut [u64],
    s: &mut Header,
    generation: u32,
    journal: &mut J,
) -> Result<(), Refusal>
    ensures { let o = transfer (store (tables dgens.old dlinks.old dvalues.old) d.old)
        (store (tables sgens.old slinks.old svalues.old) s.old) generation
        (length (J.rows journal.old)) in
        (plain_answer result ≡ o.answer)
        × (store (tables dgens.new dlinks.new dvalues.new) d.new ≡ o.destination)
        × (store (tables sgens.new slinks.new svalues.new) s.new ≡ o.source)
        × (journal.new ≡ J.written o.rows journal.old) }
{
    let rows = journal.room();
    if let Err(refusal) = transfer_refusal(
        dgens, dlinks, dvalues, *d, sgens, slinks, svalues, *s, generation, rows,
    ) {
        refused_destination(refusal, dgens, dlinks, dvalues, d);
        return Err(refusal);
    }
    let moves = Moves {
        m: s.m,
        new: generation,
        removed: true,
        current: s.generation,
    };
    write_rows(journal, sgens, moves);
    zero_stack(dgens, dlinks, dvalues, d.m);
    let n = move_messages(
        dgens, dlinks, dvalues, sgens, slinks, svalues, s, generation,
    );
    *d = Header::of(n, generation);
    Ok(())
}

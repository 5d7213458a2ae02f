//! Compress (`compress_with`): the messages of a store move down, so that no place between them is free.

ghost use Rattle.std.specs.Prelude.{◌-◌, ◌≡◌, map, length, replicate};
ghost use Rattle.model.specs.Store.{at, tables, store};
ghost use Rattle.model.specs.Freelist.{live_places};
ghost use Rattle.model.specs.Calls.{compress, compress_refusal, compress_step, laid, gathered};
ghost use Rattle.model.specs.Answers.{turned_down, completion_answer};
ghost use Rattle.arena.specs.Popped.{popped_above};

use crate::audit::audit_fails;
use crate::clear::clear_step;
use crate::journal::{Journal, Moves, write_rows};
use crate::place::entry;
use crate::refusals::store_refusal;
use crate::stack::{fill_place, pop};
use model::{Completed, GenerationStep, Header, Refusal};

// A sound store has `len` messages to be moved.
#[tactic(auto, using(model::proofs::Tests::tests, model::proofs::Refusals::compress_row))]
fn compress_refusal(
    generations: &[u32],
    links: &[u16],
    values: &[u64],
    h: Header,
    rows: usize,
) -> Result<(), Refusal>
    ensures { turned_down result
        ≡ compress_refusal (store (tables generations.now links.now values.now) h) rows }
{
    store_refusal(generations, links, values, h)?;
    if audit_fails(generations, links, h) {
        return Err(Refusal::Unsound);
    }
    if rows < h.len as usize {
        return Err(Refusal::JournalShort);
    }
    Ok(())
}

fn compress_step(h: Header, reset: bool) -> GenerationStep
    ensures { result ≡ compress_step h reset }
{
    if reset {
        GenerationStep {
            generation: 2,
            overflow: false,
        }
    } else {
        clear_step(h)
    }
}

// The messages of the places up to m go to the places from 1 on, in order. Returns how many they are. A message goes
// to its own place or to a lower one, so each place is read before it is written.
#[tactic(auto, using(crate::proofs::MovingDown::moving_starts, crate::proofs::MovingDown::moving_low, crate::proofs::MovingDown::moving_live, crate::proofs::MovingDown::moving_free, crate::proofs::MovingDown::moving_lengths, crate::proofs::MovingDown::moving_ends))]
fn move_down(
    generations: &mut [u32],
    links: &mut [u16],
    values: &mut [u64],
    m: u16,
    generation: u32,
) -> u16
    ensures { (tables generations.new links.new values.new
        ≡ laid (tables generations.old links.old values.old)
        (replicate (length (live_places generations.old m)) generation)
        (map (at values.old) (live_places generations.old m)))
        × (result ≡ length (live_places generations.old m)) }
{
    let mut n = 0;
    for i in 0..m {
        let p = i + 1;
        if entry(generations, p) != 0 {
            let value = entry(values, p);
            n += 1;
            fill_place(generations, links, values, n, generation, value);
        }
    }
    n
}

// Pops the places above n up to m: what messages that went down have left there, and what was free.
// One is added in the loop, since n + 1 may be past the largest index.
#[tactic(auto, using(crate::proofs::Popping::popping_starts, crate::proofs::Popping::popping_goes_on, crate::proofs::Popping::popping_lengths, crate::proofs::Popping::popping_ends))]
fn pop_above(generations: &mut [u32], links: &mut [u16], values: &mut [u64], n: u16, m: u16)
    ensures { tables generations.new links.new values.new
        ≡ popped_above (tables generations.old links.old values.old) n (m - n) }
{
    for p in n..m {
        pop(generations, links, values, p + 1);
    }
}

// The moves of a compress. Each place that a message goes to is written once, and each place above the messages is
// popped once.
#[tactic(auto, using(crate::proofs::Gathering::moved_popped))]
fn gather(
    generations: &mut [u32],
    links: &mut [u16],
    values: &mut [u64],
    h: &mut Header,
    generation: u32,
)
    ensures { store (tables generations.new links.new values.new) h.new
        ≡ gathered (store (tables generations.old links.old values.old) h.old)
        (store (tables generations.old links.old values.old) h.old) generation }
{
    let n = move_down(generations, links, values, h.m, generation);
    pop_above(generations, links, values, n, h.m);
    *h = Header::of(n, generation);
}

/// The rows are written from the store as it stands before its messages move. None is removed from it, so that no row
/// says overflow. Inlined, so that a journal lent as one struct is taken apart.
#[tactic(auto, using(model::proofs::Tests::tests), unfolding(model::specs::Calls::compress, model::specs::Calls::unless, model::specs::Calls::answered))]
#[inline(always)]
pub fn compress_with<J: Journal>(
    generations: &mut [u32],
    links: &mut [u16],
    values: &mut [u64],
    h: &mut Header,
    reset: bool,
    journal: &mut J,
) -> Result<Completed<()>, Refusal>
    ensures { let o = compress (store (tables generations.old links.old values.old) h.old) reset
        (length (J.rows journal.old)) in
        (completion_answer result ≡ o.answer)
        × (store (tables generations.new links.new values.new) h.new ≡ o.store)
        × (journal.new ≡ J.written o.rows journal.old) }
{
    compress_refusal(generations, links, values, *h, journal.room())?;
    let stepped = compress_step(*h, reset);
    let moves = Moves {
        m: h.m,
        new: stepped.generation,
        removed: false,
        current: h.generation,
    };
    write_rows(journal, generations, moves);
    gather(generations, links, values, h, stepped.generation);
    Ok(Completed::by(stepped.overflow, ()))
}

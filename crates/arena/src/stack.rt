//! The stack of places in the three lent tables: a place pushed, popped and freed, and a whole stack zeroed.

ghost use Rattle.std.specs.Prelude.{min, ◌≡◌, ◌++◌, length, replicate, drop};
ghost use Rattle.model.specs.Store.{tables, placed, filled, freed, popped, zeroed, laid_out};

use crate::place::{Word, write};

#[tactic(auto, unfolding(model::specs::Store::placed))]
fn write_place(
    generations: &mut [u32],
    links: &mut [u16],
    values: &mut [u64],
    p: u16,
    generation: u32,
    link: u16,
    value: u64,
)
    ensures { tables generations.new links.new values.new
        ≡ placed (tables generations.old links.old values.old) p generation link value }
{
    write(generations, p, generation);
    write(links, p, link);
    write(values, p, value);
}

// A message's place has link 0.
pub(crate) fn fill_place(
    generations: &mut [u32],
    links: &mut [u16],
    values: &mut [u64],
    p: u16,
    generation: u32,
    value: u64,
)
    ensures { tables generations.new links.new values.new
        ≡ filled (tables generations.old links.old values.old) p generation value }
{
    write_place(generations, links, values, p, generation, 0, value);
}

pub(crate) fn pop(generations: &mut [u32], links: &mut [u16], values: &mut [u64], p: u16)
    ensures { tables generations.new links.new values.new
        ≡ popped (tables generations.old links.old values.old) p }
{
    write_place(generations, links, values, p, 0, 0, 0);
}

// A free place keeps only its link in the chain.
pub(crate) fn free_place(
    generations: &mut [u32],
    links: &mut [u16],
    values: &mut [u64],
    p: u16,
    link: u16,
)
    ensures { tables generations.new links.new values.new
        ≡ freed (tables generations.old links.old values.old) p link }
{
    write_place(generations, links, values, p, 0, link, 0);
}

// Places 1 to m of a table. Those above are as they were.
fn zero<T: Word>(table: &mut [T], m: usize)
    ensures { let n = min m (length table.old) in
        table.new ≡ replicate n T.ZERO ++ drop n table.old }
{
    let n = m.min(table.len());
    table[..n].fill_with(|| T::ZERO);
}

#[tactic(auto, using(crate::proofs::Zeroing::zeroed_to_is), unfolding(model::specs::Store::zeroed))]
pub(crate) fn zero_stack(generations: &mut [u32], links: &mut [u16], values: &mut [u64], m: u16)
    ensures { tables generations.new links.new values.new
        ≡ zeroed (tables generations.old links.old values.old) m }
{
    let m = m as usize;
    zero(generations, m);
    zero(links, m);
    zero(values, m);
}

// All words of the tables, however long each is.
#[tactic(auto, using(crate::proofs::Zeroing::filled_all), unfolding(model::specs::Store::laid_out))]
pub(crate) fn zero_tables(generations: &mut [u32], links: &mut [u16], values: &mut [u64])
    ensures { tables generations.new links.new values.new
        ≡ (laid_out (tables generations.old links.old values.old)).tables }
{
    generations.fill(0);
    links.fill(0);
    values.fill(0);
}

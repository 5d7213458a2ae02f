//! A sequence's step as C and Rust call it: the state is lent, the journal is a slice of rows, and the answer is flat.

ghost use Rattle.std.specs.Prelude.{◌≡◌, length};
ghost use Rattle.model.specs.Store.{tables};
ghost use Rattle.model.specs.Calls.{journaled};
ghost use Rattle.model.specs.Run.{sequence_step};
ghost use Rattle.nektawul.specs.Answer.{flat_step};

use crate::answer::FlatAnswer;
use arena::journal::Rows;
use model::{Row, State};
use sequence::step::step;

#[tactic(auto, unfolding(arena::specs::Lent::slice_written))]
#[unsafe(no_mangle)]
pub extern "C" fn nektawul_step(
    q: &mut State,
    file: &[u8],
    generations: &mut [u32],
    links: &mut [u16],
    values: &mut [u64],
    rows: &mut [Row],
) -> FlatAnswer
    ensures { let o = sequence_step (tables generations.old links.old values.old) file.now
        q.old (length rows.old) in
        (result ≡ flat_step o.answer)
        × (tables generations.new links.new values.new ≡ o.tables)
        × (q.new ≡ o.state)
        × (rows.new ≡ journaled o.rows rows.old) }
{
    let mut journal = Rows { rows };
    FlatAnswer::from(step(generations, links, values, file, q, &mut journal))
}

//! Transfer (`transfer_reallocating`) as C and Rust call it: the journal is lent as a slice of rows, and the answer is
//! flat. Names are those of `arena::transfer`.

ghost use Rattle.std.specs.Prelude.{◌≡◌, length};
ghost use Rattle.model.specs.Store.{tables, store};
ghost use Rattle.model.specs.Calls.{transfer, journaled};
ghost use Rattle.nektawul.specs.Answer.{flat};

use crate::answer::FlatAnswer;
use arena::journal::Rows;
use arena::transfer::transfer_reallocating;
use model::{Header, Row};
use sequence::answer::plain_answer;

/// What a transfer returns: its answer, and the headers of both stores after it.
#[repr(C)]
#[derive(Clone, Copy)]
pub struct FlatTransferred {
    pub answer: FlatAnswer,
    pub destination: Header,
    pub source: Header,
}

#[tactic(auto, unfolding(arena::specs::Lent::slice_written))]
#[unsafe(no_mangle)]
pub extern "C" fn nektawul_transfer_reallocating(
    d: Header,
    s: Header,
    generation: u32,
    dgens: &mut [u32],
    dlinks: &mut [u16],
    dvalues: &mut [u64],
    sgens: &mut [u32],
    slinks: &mut [u16],
    svalues: &mut [u64],
    rows: &mut [Row],
) -> FlatTransferred
    ensures { let o = transfer (store (tables dgens.old dlinks.old dvalues.old) d)
        (store (tables sgens.old slinks.old svalues.old) s) generation (length rows.old) in
        (result.answer ≡ flat o.answer)
        × (store (tables dgens.new dlinks.new dvalues.new) result.destination ≡ o.destination)
        × (store (tables sgens.new slinks.new svalues.new) result.source ≡ o.source)
        × (rows.new ≡ journaled o.rows rows.old) }
{
    let mut destination = d;
    let mut source = s;
    let mut journal = Rows { rows };
    let answer = transfer_reallocating(
        dgens,
        dlinks,
        dvalues,
        &mut destination,
        sgens,
        slinks,
        svalues,
        &mut source,
        generation,
        &mut journal,
    );
    FlatTransferred {
        answer: FlatAnswer::from(plain_answer(answer)),
        destination,
        source,
    }
}

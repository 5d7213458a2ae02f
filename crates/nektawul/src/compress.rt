//! Compress (`compress_with`) as C and Rust call it: the journal is lent as a slice of rows, and the answer is flat.

ghost use Rattle.std.specs.Prelude.{◌≡◌, length};
ghost use Rattle.model.specs.Store.{tables, store};
ghost use Rattle.model.specs.Calls.{compress, journaled};
ghost use Rattle.nektawul.specs.Answer.{flat};

use crate::answer::FlatAnswer;
use arena::compress::compress_with;
use arena::journal::Rows;
use model::{Header, Row};
use sequence::answer::completion_answer;

/// What a compress returns: its answer, and the header after it.
#[repr(C)]
#[derive(Clone, Copy)]
pub struct FlatCompressed {
    pub answer: FlatAnswer,
    pub header: Header,
}

#[tactic(auto, unfolding(arena::specs::Lent::slice_written))]
#[unsafe(no_mangle)]
pub extern "C" fn nektawul_compress_with(
    h: Header,
    reset: bool,
    generations: &mut [u32],
    links: &mut [u16],
    values: &mut [u64],
    rows: &mut [Row],
) -> FlatCompressed
    ensures { let o = compress (store (tables generations.old links.old values.old) h) reset
        (length rows.old) in
        (result.answer ≡ flat o.answer)
        × (store (tables generations.new links.new values.new) result.header ≡ o.store)
        × (rows.new ≡ journaled o.rows rows.old) }
{
    let mut header = h;
    let mut journal = Rows { rows };
    let answer = compress_with(generations, links, values, &mut header, reset, &mut journal);
    FlatCompressed {
        answer: FlatAnswer::from(completion_answer(answer)),
        header,
    }
}

//! The calls that move or copy messages: the store is compressed, or is the destination of the other store.
use crate::code::Moving;
use crate::line::Line;
use crate::store::{Lent, Store};
use model::Answer;
use scripts::{Journal, Low};
use sequence::answer::{completion_answer, plain_answer};

fn compress(line: Line<'_>, s: &mut Store, j: &mut Journal) -> Answer {
    let Lent { g, l, v, h } = s.lent();
    completion_answer(arena::compress::compress_with(
        g,
        l,
        v,
        h,
        line.number(0) == 1,
        &mut j.columns(),
    ))
}

fn transfer(line: Line<'_>, s: &mut Store, o: &mut Store, j: &mut Journal) -> Answer {
    let Lent { g, l, v, h } = s.lent();
    let Lent {
        g: sg,
        l: sl,
        v: sv,
        h: sh,
    } = o.lent();
    plain_answer(arena::transfer::transfer_reallocating(
        g,
        l,
        v,
        h,
        sg,
        sl,
        sv,
        sh,
        Low::low(line.number(0)),
        &mut j.columns(),
    ))
}

fn copy(s: &mut Store, o: &Store) -> Answer {
    let Lent { g, l, v, h } = s.lent();
    plain_answer(arena::clone::clone_from_with(
        g,
        l,
        v,
        h,
        o.tables.generations.lent(),
        o.tables.links.lent(),
        o.tables.values.lent(),
        o.header,
    ))
}

// The call of a line, on the store, the other store and the journal.
pub fn call(call: Moving, line: Line<'_>, s: &mut Store, o: &mut Store, j: &mut Journal) -> Answer {
    match call {
        Moving::CompressWith => compress(line, s, j),
        Moving::TransferReallocating => transfer(line, s, o, j),
        Moving::CloneFromWith => copy(s, o),
    }
}

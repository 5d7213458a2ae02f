//! A step or a run on what is lent.
use crate::lent::Lent;
use crate::line::Play;
use crate::show;
use std::alloc::Global;
use std::io;
use std::io::Write;

// Makes a step or a run, and prints its answer.
fn answer<W: Write>(to: &mut W, play: Play, s: &mut Lent) -> io::Result<()> {
    let g = s.tables.generations.lent_mut();
    let l = s.tables.links.lent_mut();
    let v = s.tables.values.lent_mut();
    let q = &mut s.state;
    let journal = &mut s.journal.columns();
    match play {
        Play::Step => show::step(to, sequence::step::step(g, l, v, s.file.lent(), q, journal)),
        Play::Run => show::run(to, sequence::run::run(g, l, v, s.file.lent(), q, journal)),
    }
}

// The same, and then prints all that it may change.
pub fn turn<W: Write>(alloc: Global, to: &mut W, play: Play, s: &mut Lent) -> io::Result<()> {
    answer(to, play, s)?;
    show::lent(alloc, to, s)
}

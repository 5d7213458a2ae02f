//! What a step and a run print, part by part.
use crate::lent::Lent;
use crate::line::PLACES;
use model::{Answer, Checked, State, StepRefusal};
use scripts::Shown;
use sequence::tally::Tally;
use std::alloc::Global;
use std::io;
use std::io::Write;

fn performed<W: Write>(to: &mut W, a: Answer) -> io::Result<()> {
    match a {
        Ok(done) => write!(to, "step {}", Shown(done)),
        Err(refusal) => write!(to, "step no {}", u8::from(refusal)),
    }
}

// The number of a refusal, and the command at fault, 0 where there is none.
fn turned_down<W: Write>(to: &mut W, r: StepRefusal) -> io::Result<()> {
    let Checked { refusal, fault } = Checked::from(r);
    write!(to, "{refusal} {fault}")
}

pub fn step<W: Write>(to: &mut W, a: Result<Option<Answer>, StepRefusal>) -> io::Result<()> {
    match a {
        Ok(Some(answer)) => performed(to, answer),
        Ok(None) => write!(to, "step end"),
        Err(r) => {
            write!(to, "step down ")?;
            turned_down(to, r)
        }
    }
}

fn tally<W: Write>(to: &mut W, tally: Tally) -> io::Result<()> {
    write!(to, " |")?;
    for [done, overflowed, refused] in tally.rows {
        write!(to, " {done}:{overflowed}:{refused}")?;
    }
    Ok(())
}

pub fn run<W: Write>(to: &mut W, r: Result<Tally, StepRefusal>) -> io::Result<()> {
    match r {
        Ok(counted) => {
            write!(to, "run 0 0")?;
            tally(to, counted)
        }
        Err(r) => {
            write!(to, "run ")?;
            turned_down(to, r)?;
            tally(to, Tally::new())
        }
    }
}

fn state<W: Write>(to: &mut W, q: State) -> io::Result<()> {
    write!(to, " | {} | {}", q.next, Shown(q.header))
}

fn places<W: Write>(to: &mut W, s: &Lent) -> io::Result<()> {
    write!(to, " |")?;
    for k in 0..s.tables.count().min(PLACES) {
        write!(to, " {}", s.tables.place(k))?;
    }
    Ok(())
}

fn rows<W: Write>(alloc: Global, to: &mut W, s: &Lent) -> io::Result<()> {
    write!(to, " |")?;
    let lent = s.journal.oldinx.lent().len();
    for row in s.journal.rows(alloc)?.iter().take(lent) {
        write!(to, " {}", Shown(*row))?;
    }
    Ok(())
}

// All that a step or a run may change.
pub fn lent<W: Write>(alloc: Global, to: &mut W, s: &Lent) -> io::Result<()> {
    state(to, s.state)?;
    places(to, s)?;
    rows(alloc, to, s)?;
    writeln!(to)
}

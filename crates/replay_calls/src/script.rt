//! A script or a record, line by line.
use crate::record::Entry;
use crate::world::World;
use crate::{line, record};
use std::alloc::{AllocError, Global};
use std::io;
use std::io::Write;

// What the lines before left, the numbers of the last of them and its answer, without bytes where it was no call, how
// many of them were calls, and how many calls were answered as recorded. Numbers and answer keep their memory for the
// next line.
#[derive(Drop)]
struct Progress {
    world: World,
    numbers: Vec<u64>,
    answer: Vec<u8>,
    calls: u64,
    same: u64,
}

impl Progress {
    fn new(alloc: Global) -> Result<Progress, AllocError> {
        Ok(Progress {
            world: World::new(alloc)?,
            numbers: Vec::new(alloc),
            answer: Vec::new(alloc),
            calls: 0,
            same: 0,
        })
    }

    // After the line of the record that follows a call.
    fn held(&mut self, same: bool) {
        self.answer.clear();
        self.same = self.same.wrapping_add(u64::from(same));
    }
}

// A line of numbers.
fn numbers<W: Write>(
    alloc: Global,
    to: &mut W,
    entry: Entry<'_>,
    s: &mut Progress,
) -> io::Result<()> {
    let Progress {
        world,
        numbers,
        answer,
        calls,
        same: _,
    } = s;
    answer.clear();
    scripts::read_numbers(numbers, line::MOST + 1, entry.text)?;
    let Some(line) = line::of_numbers(numbers) else {
        return record::unknown(to, entry);
    };
    world.play(alloc, answer, line)?;
    if answer.is_empty() {
        return Ok(());
    }
    *calls = calls.wrapping_add(1);
    if entry.record.is_none() {
        answer.push(b'\n')?;
        to.write_all(answer)?;
    }
    Ok(())
}

// A script's heading is printed.
fn heading<W: Write>(to: &mut W, entry: Entry<'_>) -> io::Result<()> {
    match entry.record {
        Some(_) => Ok(()),
        None => to.write_all(entry.text),
    }
}

// A line with what a call must answer: it counts in a record, after a call.
fn expected<W: Write>(to: &mut W, entry: Entry<'_>, s: &mut Progress) -> io::Result<()> {
    if let Some(name) = entry.record
        && !s.answer.is_empty()
    {
        let same = record::hold(to, entry, name, &s.answer)?;
        s.held(same);
    }
    Ok(())
}

// A line, of a record or of a script.
fn turn<W: Write>(alloc: Global, to: &mut W, entry: Entry<'_>, s: &mut Progress) -> io::Result<()> {
    match entry.text.first() {
        Some(b'#') => heading(to, entry),
        Some(b'=') => expected(to, entry, s),
        None | Some(b'\n' | b'~') => Ok(()),
        Some(_) => numbers(alloc, to, entry, s),
    }
}

// Plays a script, or replays the record of this name.
pub fn play<W: Write>(
    alloc: Global,
    to: &mut W,
    text: &[u8],
    record: Option<&str>,
) -> io::Result<()> {
    let mut s = Progress::new(alloc)?;
    // Also in `steps`, `sequences` and `makeseq`: all that they share is this line.
    for (i, line) in text.split_inclusive(|b| *b == b'\n').enumerate() {
        let entry = Entry {
            text: line,
            number: i + 1,
            record,
        };
        turn(alloc, to, entry, &mut s)?;
    }
    if let Some(name) = record {
        record::sum(to, name, s.calls, s.same)?;
    }
    Ok(())
}

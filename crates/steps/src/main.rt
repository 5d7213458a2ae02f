//! Plays a script of sequence files, stores and states, read from standard input: single steps of a sequence, and runs.
//!
//! A line of the script that begins with `#` is a heading and is printed as it is; an empty line is skipped. Any other
//! line is numbers, the first of them its code, and whatever is no digit parts them:
//!   0 file 84 84 83 1 3 0                           begins a file: the bytes of the mark, version, number of places C, the eighth byte
//!   1 insert 1 0 0 0 10                             adds a command to the file: code, flag, index, generation, value
//!   2 size 7                                        the file's first bytes alone, as many as this
//!   3 store 2 2 2 | 1 | 1 2 2 5 | 3:0:9 0:2:0       the lengths of the three tables; the state, which is the next command's number and the
//!                                                   header (`len`, stack length m, root, generation); the words of places 1 to 5 (generation,
//!                                                   link, value; 0 where left out)
//!   4 journal 2                                     how many rows of the journal are lent, 5 at most. At the start each holds 9:9:9:9:1
//!   5 step                                          a step
//!   6 run                                           a run of all commands from the state's number on
//! A line that fits none of these is answered by `?` and its number. A script has 65,536 bytes at most, a file 1,024.
//!
//! A step prints its answer: `ok` or `over` with index, generation and value, `no` with the number of its command's
//! refusal, `down` with the number of the refusal that turned it down and the command at fault, or `end` past the last
//! command. A run prints the refusal and the command at fault, 0 where there is none, and its tally: for each command,
//! from insert to takeinx, how many were done:overflowed:refused. Both then print all that they may change: the next
//! number, the header, places 1 to 5 (generation:link:value, a word that is not there is 0) and the journal's rows (old
//! index:old generation:new index:new generation:overflow).
#![tactic(auto)]

mod file;
mod lent;
mod line;
mod show;
mod turn;

use lent::Lent;
use line::Line;
use std::alloc::Global;
use std::io;
use std::io::{BufWriter, Write};

// The most bytes of a script.
const MOST: usize = 65536;

// A line without the number that the end of the script cuts off: a number ends where something follows it.
fn ended(text: &[u8]) -> &[u8] {
    let last = text.iter().rposition(|b| !b.is_ascii_digit());
    &text[..last.map_or(0, |i| i + 1)]
}

// A line of numbers, which are read in place of those of the line before. One that is not understood is answered by its
// number.
fn numbers<W: Write>(
    alloc: Global,
    to: &mut W,
    text: &[u8],
    number: usize,
    all: &mut Vec<u64>,
    s: &mut Lent,
) -> io::Result<()> {
    scripts::read_numbers(all, line::MOST + 1, ended(text))?;
    match line::of_numbers(all) {
        Some(Line::Give(given)) => {
            s.give(given);
            Ok(())
        }
        Some(Line::Play(play)) => turn::turn(alloc, to, play, s),
        None => writeln!(to, "? {number}"),
    }
}

fn play<W: Write>(alloc: Global, to: &mut W, text: &[u8]) -> io::Result<()> {
    let mut s = Lent::new(alloc)?;
    let mut all = Vec::new(alloc);
    // Also in `replay_calls`, `sequences` and `makeseq`: all that they share is this line.
    for (i, line) in text.split_inclusive(|b| *b == b'\n').enumerate() {
        match line.first() {
            Some(b'#') => to.write_all(line)?,
            None | Some(b'\n') => (),
            Some(_) => numbers(alloc, to, line, i + 1, &mut all, &mut s)?,
        }
    }
    Ok(())
}

fn main(rt: HostRuntime) -> io::Result<()> {
    let mut out = BufWriter::new(rt.alloc(), io::writer(&rt))?;
    let text = input::read(rt.alloc(), &mut rt.stdin(), MOST)?;
    play(rt.alloc(), &mut out, &text)?;
    out.flush()
}

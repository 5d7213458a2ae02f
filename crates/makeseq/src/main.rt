//! Makes a sequence file of a text: reads the text, and writes the file to standard output.
//!
//!   makeseq TEXT > FILE    makes it of the text in a file
//!   makeseq > FILE         makes it of what comes on standard input
//!
//! The text has one command to a line; `#` starts a comment, and a line without words is skipped. The first line with
//! words gives the number of places, and the others are the commands, 4,095 at most:
//!
//!   places 3          the store has three places
//!   insert 10         the value, up to 18,446,744,073,709,551,615
//!   remove 1 2        index, up to 65,535, and generation, up to 4,294,967,295
//!   invalidate 1 2    the same, and so `get 1 2`
//!   clear             and so `order` and `audit`
//!   compress          or `compress reset`
//!   setgen 5          the generation
//!   takeinx 3         the index
//!
//! Numbers are decimal. What runseq would refuse in a command's numbers, as an index of 0, or above 1,024 places, is
//! made all the same. A line that is not understood is named on standard error, with what is wrong in it, and nothing
//! is written.
#![tactic(auto)]

mod file;
mod line;
mod problem;
mod words;

use input::{or_say, read_asked};
use problem::Fault;
use std::io;

// Makes the file of the text, and writes it.
fn make(rt: &HostRuntime, text: &[u8]) -> io::Result<()> {
    match file::make(rt.alloc(), text) {
        Ok(file) => {
            or_say(rt, "standard output", rt.write_all(&file))?;
            Ok(())
        }
        Err(Fault::OutOfMemory(e)) => Err(io::Error::from(e)),
        Err(fault) => eprintln!(rt; "{fault}"),
    }
}

fn main(rt: HostRuntime) -> io::Result<()> {
    // One byte more than the longest text has: where it is there, the text is too long.
    match read_asked(&rt, file::MOST_TEXT + 1)? {
        Some(text) => make(&rt, &text),
        None => Ok(()),
    }
}

//! Plays a sequence file on a new store and prints the listing: a line for each command and a line of sums, or why the
//! file is refused.
//!
//!   runseq FILE    plays the file
//!   runseq         plays what comes on standard input
//!
//! A file that cannot be opened or read is named on standard error, with the reason, and nothing is printed.
#![tactic(auto)]

use input::{or_say, read_asked};
use listing::run::FILE_BYTES;
use std::io;

// Plays the file, and prints its listing.
fn play(rt: &HostRuntime, file: &[u8]) -> io::Result<()> {
    let listing = listing::play::play(rt.alloc(), file)?;
    or_say(rt, "standard output", rt.write_all(&listing))?;
    Ok(())
}

fn main(rt: HostRuntime) -> io::Result<()> {
    match read_asked(&rt, FILE_BYTES)? {
        Some(file) => play(&rt, &file),
        None => Ok(()),
    }
}

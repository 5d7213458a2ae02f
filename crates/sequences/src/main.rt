//! Plays sequence files that a script on standard input spells in hexadecimal, and prints their listings as runseq
//! would.
//!
//! A line of the script is one of these, and blanks in it are ignored:
//!   = a name                                        the name of a case, printed as it is
//!   545453 0100 0300 00                             bytes, two digits each, that are added to the file
//!   08 00 0000 00000000 0000000000000000 x 4095     bytes that are added 4,095 times
//!   .                                               plays the file and prints its listing; the next file begins without bytes
//!   ,                                               the same, but prints the listing's last line alone
//! `#` starts a comment, and an empty line is skipped. A line that fits none of these is answered by `?` and its
//! number. A file is cut after 65,600 bytes, which is more than any sequence has. A script has 65,536 bytes at most.
#![tactic(auto)]

mod hex;
mod play;

use hex::Spelled;
use listing::play::Player;
use play::Part;
use std::alloc::Global;
use std::io;
use std::io::{BufWriter, Write};

// The most bytes of a script.
const MOST: usize = 65536;

// A line of bytes, that are added to the file. One that is not understood is answered by its number.
fn add<W: Write>(
    out: &mut W,
    line: &[u8],
    number: usize,
    spelled: &mut Spelled,
    file: &mut Vec<u8>,
) -> io::Result<()> {
    if spelled.read(line)? {
        spelled.add_to(file)?;
        return Ok(());
    }
    writeln!(out, "? {number}")
}

// Plays the file. The next begins without bytes.
fn play_file<W: Write>(
    out: &mut W,
    player: &mut Player,
    file: &mut Vec<u8>,
    part: Part,
) -> io::Result<()> {
    play::play(out, player, file, part)?;
    file.clear();
    Ok(())
}

fn run<W: Write>(alloc: Global, out: &mut W, text: &[u8]) -> io::Result<()> {
    let mut spelled = Spelled::new(alloc);
    let mut file = Vec::new(alloc);
    let mut player = Player::new(alloc)?;
    for (i, line) in text.split_inclusive(|b| *b == b'\n').enumerate() {
        match line.first() {
            Some(b'=') => out.write_all(line)?,
            Some(b'.') => play_file(out, &mut player, &mut file, Part::Whole)?,
            Some(b',') => play_file(out, &mut player, &mut file, Part::LastLine)?,
            _ => add(out, line, i + 1, &mut spelled, &mut file)?,
        }
    }
    Ok(())
}

fn main(rt: HostRuntime) -> io::Result<()> {
    let mut out = BufWriter::new(rt.alloc(), io::writer(&rt))?;
    let text = input::read(rt.alloc(), &mut rt.stdin(), MOST)?;
    run(rt.alloc(), &mut out, &text)?;
    out.flush()
}

//! A file played, and its listing printed.
use listing::play::Player;
use std::io;
use std::io::Write;

// What is printed of a listing.
#[derive(Clone, Copy)]
pub enum Part {
    Whole,
    LastLine,
}

fn last_line(text: &[u8]) -> &[u8] {
    text.split_inclusive(|b| *b == b'\n').last().unwrap_or(&[])
}

// Plays the file, and prints its listing or the last line of it.
pub fn play<W: Write>(to: &mut W, player: &mut Player, file: &[u8], part: Part) -> io::Result<()> {
    let listing = player.play(file);
    match part {
        Part::Whole => to.write_all(listing),
        Part::LastLine => to.write_all(last_line(listing)),
    }
}

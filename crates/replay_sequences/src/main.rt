//! Replays sequence files: plays each on a new store and holds its listing against a recorded one.
//!
//!   replay_sequences NAME..    plays NAME.seq, and holds its listing against NAME.txt
//!
//! A listing that is as recorded is answered by its name and how many lines it has. Of any other the first line that
//! differs is named, and shown as it is recorded and as it is here; where one of the two has no such line, nothing is
//! shown of it. A file that cannot be opened or read is named on standard error, with the reason.
#![tactic(auto)]

mod hold;

use input::read_file_into;
use listing::play::Player;
use listing::run::{FILE_BYTES, LISTING_BYTES};
use std::alloc::{AllocError, Global};
use std::io::{BufWriter, Write};
use std::{env, io};

// What is read and listed of a sequence, in the memory that the next one gets.
#[derive(Drop)]
struct Memory {
    file: Vec<u8>,
    recorded: Vec<u8>,
    player: Player,
}

impl Memory {
    fn new(alloc: Global) -> Result<Memory, AllocError> {
        Ok(Memory {
            file: vec![in alloc; 0; FILE_BYTES]?,
            recorded: vec![in alloc; 0; LISTING_BYTES]?,
            player: Player::new(alloc)?,
        })
    }
}

// Reads a file of this name; one that cannot be opened or read is named on standard error.
fn read_named<'a>(
    rt: &HostRuntime,
    name: &str,
    ending: &str,
    buffer: &'a mut [u8],
) -> io::Result<Option<&'a [u8]>> {
    let path = format!(in rt.alloc(); "{name}{ending}")?;
    let n = read_file_into(rt, path.as_str(), buffer)?;
    Ok(n.map(|n| &buffer[..n]))
}

// Replays the sequence of this name: plays the file, and holds its listing against the recorded one.
fn replay<W: Write>(
    rt: &HostRuntime,
    to: &mut W,
    name: &str,
    memory: &mut Memory,
) -> io::Result<()> {
    let Memory {
        file,
        recorded,
        player,
    } = memory;
    let Some(file) = read_named(rt, name, ".seq", file)? else {
        return Ok(());
    };
    match read_named(rt, name, ".txt", recorded)? {
        Some(recorded) => hold::hold(to, name, recorded, player.play(file)),
        None => Ok(()),
    }
}

fn main(rt: HostRuntime) -> io::Result<()> {
    let mut out = BufWriter::new(rt.alloc(), io::writer(&rt))?;
    let mut memory = Memory::new(rt.alloc())?;
    for name in env::args(&rt)?.skip(1) {
        replay(&rt, &mut out, name.as_str(), &mut memory)?;
    }
    out.flush()
}

//! The program's arguments: numbers.
use std::{env, io};

// A number goes on while it is below this, and is cut there.
const MOST: u64 = 4294967296;

fn with_digit(x: u64, byte: u8) -> u64 {
    if x >= MOST || !byte.is_ascii_digit() {
        return x;
    }
    x * 10 + u64::from(byte - b'0')
}

// The number that argument i spells, 0 where there is none. What is no digit is passed over.
pub fn number_at(rt: &HostRuntime, i: usize) -> io::Result<u64> {
    let text = env::args(rt)?.nth(i);
    let text = text.as_deref().unwrap_or("");
    Ok(text.bytes().fold(0, with_digit))
}

//! A line of bytes in hexadecimal, added to the file.
use scripts::longer;
use std::alloc::{AllocError, Global};

// Enough for 4,096 commands, one more than a sequence may have.
const MOST: usize = 65600;

// The bytes that a line spells, and how often. The bytes keep their memory for the next line.
#[derive(Drop)]
pub struct Spelled {
    bytes: Vec<u8>,
    times: usize,
}

fn is_blank(b: u8) -> bool {
    matches!(b, b' ' | b'\n')
}

// By hand: `to_digit(16)` takes capitals too.
fn digit(b: u8) -> Option<u8> {
    match b {
        b'0'..=b'9' => Some(b - b'0'),
        b'a'..=b'f' => Some(b - b'a' + 10),
        _ => None,
    }
}

// The bytes that pairs of digits spell, in place of those that were there. The answer is whether they are pairs.
fn pairs(digits: &[u8], bytes: &mut Vec<u8>) -> Result<bool, AllocError> {
    bytes.clear();
    let mut high = None;
    for b in digits {
        if is_blank(*b) {
            continue;
        }
        let Some(d) = digit(*b) else {
            return Ok(false);
        };
        match high {
            None => high = Some(d),
            Some(h) => {
                bytes.push(h << 4 | d)?;
                high = None;
            }
        }
    }
    Ok(high.is_none())
}

// The number that the digits spell, if each of them is one. Above the most bytes it makes no difference. A fold, since
// `parse` takes no blanks between the digits, and `scripts::numbers` ends a number at one.
fn count(digits: &[u8]) -> Option<usize> {
    let mut digits = digits.iter().filter(|b| !is_blank(**b));
    let n = digits.try_fold(0, |n, b| longer(n, *b))?;
    Some(n.min(MOST as u64) as usize)
}

// What stands before the byte, and what stands after it, if it is there.
fn cut(line: &[u8], byte: u8) -> (&[u8], Option<&[u8]>) {
    match line.iter().position(|b| *b == byte) {
        Some(i) => (&line[..i], Some(&line[i + 1..])),
        None => (line, None),
    }
}

// Adds the bytes once: few are quicker added one by one.
fn add_once(file: &mut Vec<u8>, bytes: &[u8]) -> Result<(), AllocError> {
    if bytes.len() >= 8 {
        return file.extend_from_slice(bytes);
    }
    for b in bytes {
        file.push(*b)?;
    }
    Ok(())
}

impl Spelled {
    pub fn new(alloc: Global) -> Spelled {
        Spelled {
            bytes: Vec::new(alloc),
            times: 0,
        }
    }

    // Reads a line: digits, and after an `x` how often. `#` starts a comment. The answer is whether it is a line of
    // bytes.
    pub fn read(&mut self, line: &[u8]) -> Result<bool, AllocError> {
        let (words, _) = cut(line, b'#');
        let (digits, times) = cut(words, b'x');
        self.times = times.map_or(Some(1), count).unwrap_or(0);
        Ok(self.times > 0 && pairs(digits, &mut self.bytes)?)
    }

    // Adds the bytes as often as the line says. Past the most bytes nothing is added, so that many times cost no more
    // than the bytes that find room.
    pub fn add_to(&self, file: &mut Vec<u8>) -> Result<(), AllocError> {
        for _ in 0..self.times {
            let room = MOST.saturating_sub(file.len());
            let n = self.bytes.len().min(room);
            if n == 0 {
                return Ok(());
            }
            add_once(file, &self.bytes[..n])?;
        }
        Ok(())
    }
}

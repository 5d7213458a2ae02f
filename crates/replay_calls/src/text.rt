//! A line that is made, byte by byte, in memory that one line leaves to the next.
use itoa::Buffer;
use std::alloc::AllocError;

// What is written into a line.
pub trait Part {
    fn write(&self, to: &mut Vec<u8>) -> Result<(), AllocError>;
}

// Most numbers of a line have one digit.
pub fn number(to: &mut Vec<u8>, x: u64) -> Result<(), AllocError> {
    if x < 10 {
        to.push(b'0' + x as u8)?;
        return Ok(());
    }
    let mut digits = Buffer::new();
    to.extend_from_slice(digits.format(x).as_bytes())
}

// A byte and a number.
pub fn then(to: &mut Vec<u8>, byte: u8, x: u64) -> Result<(), AllocError> {
    to.push(byte)?;
    number(to, x)
}

//! What the lines of stores and of the journal show alike.
use crate::text::{Part, then};
use std::alloc::AllocError;

// Of equal neighbours one is shown, with their number.
fn equal<T: Part>(to: &mut Vec<u8>, x: &T, n: usize) -> Result<(), AllocError> {
    to.push(b' ')?;
    x.write(to)?;
    if n > 1 {
        then(to, b'*', n as u64)?;
    }
    Ok(())
}

// Places or rows, one after the other.
pub fn all<T: Part + PartialEq>(to: &mut Vec<u8>, items: &[T]) -> Result<(), AllocError> {
    for run in items.chunk_by(|a, b| a == b) {
        if let Some(x) = run.first() {
            equal(to, x, run.len())?;
        }
    }
    Ok(())
}

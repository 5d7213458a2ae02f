//! The handles that a work keeps, by number from 0, and the choice of one for a turn.
use crate::work::Size;
use model::{MAX_PLACES, Ptr};

// The handles of every `stride`-th place.
pub fn spread(s: Size) -> [Ptr; MAX_PLACES] {
    let mut handles = [Ptr::new(0, 2); MAX_PLACES];
    for (handle, k) in handles.iter_mut().zip(1u16..) {
        handle.index = k.wrapping_mul(s.stride);
    }
    handles
}

// The numbers that the turns choose, without end. What is behind them goes through all numbers of 32 bits.
#[derive(Drop)]
pub struct Choices {
    x: u32,
    mask: u32,
}

impl Choices {
    // Choices among the messages of a spread store.
    pub fn new(s: Size) -> Choices {
        let mask = u32::from(s.live().saturating_sub(1));
        Choices { x: 1, mask }
    }
}

impl Iterator for Choices {
    type Item = usize;

    // The high half of x is mixed in, since its low bits repeat soon.
    fn next(&mut self) -> Option<usize> {
        self.x = self.x.wrapping_add(2654435769);
        Some(((self.x ^ (self.x >> 16)) & self.mask) as usize)
    }
}

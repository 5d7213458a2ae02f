//! A sequence file played, with its listing in a buffer of its own: for the programs, since the module `run` has no
//! heap.

ghost use Rattle.std.specs.Prelude.{◌≡◌, IfOk, vec_len};
ghost use Rattle.model.specs.Listing.{listing};
ghost use Rattle.listing.specs.declared.run.TheConstants.{LISTING_BYTES};

use crate::run::{LISTING_BYTES, list};
use std::alloc::{AllocError, Global};

/// Plays the file on a new store, and gives its whole listing.
pub fn play(alloc: Global, file: &[u8]) -> Result<Vec<u8>, AllocError>
    ensures { IfOk result (λ v. v.items ≡ listing file.now) }
{
    let mut lines = vec![in alloc; 0; LISTING_BYTES]?;
    let n = list(file, &mut lines);
    lines.truncate(n);
    Ok(lines)
}

/// Plays one file after the other, in the same memory.
#[derive(Drop)]
pub struct Player {
    lines: Vec<u8>,
    ghost room: { vec_len lines ≡ LISTING_BYTES },
}

impl Player {
    /// Memory for the longest listing.
    pub fn new(alloc: Global) -> Result<Player, AllocError>
        ensures { IfOk result (λ p. vec_len p.lines ≡ LISTING_BYTES) }
    {
        Ok(Player {
            lines: vec![in alloc; 0; LISTING_BYTES]?,
        })
    }

    /// Plays the file on a new store, and gives its whole listing, which stands until the next file is played.
    pub fn play(&mut self, file: &[u8]) -> &[u8]
        ensures { result.now ≡ listing file.now }
    {
        let n = list(file, &mut self.lines);
        &self.lines[..n]
    }
}

#[cfg(test)]
mod tests;

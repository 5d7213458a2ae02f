//! The sequence file that the script makes, byte by byte.
use scripts::Table;

// The most bytes of a file.
pub const MOST: usize = 1024;

// The widths in bytes of the fields that begin a file, and of a command's.
pub const FILE: [usize; 6] = [1, 1, 1, 2, 2, 1];

pub const COMMAND: [usize; 5] = [1, 1, 2, 4, 8];

// Adds fields of these widths, of each its low bytes, the lowest first. Past the most bytes nothing is added.
pub fn add_fields(file: &mut Table<u8>, fields: &[u64], widths: &[usize]) {
    let mut n = file.lent().len();
    for (x, bytes) in fields.iter().zip(widths) {
        for b in x.to_le_bytes().iter().take(*bytes) {
            file.set(n, *b);
            n = n.saturating_add(1);
        }
    }
    file.lend(n);
}

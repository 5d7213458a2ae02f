//! The fields of a sequence file: those of its first eight bytes, and its commands. Past the end of the file every
//! byte reads as 0.

ghost use Rattle.std.specs.Prelude.{ℕ, ◌+◌, ◌*◌, ◌-◌, ◌≤◌, ◌<◌, min, slice_index, ◌≡◌, ◌||◌, ltb, [], ◌∷◌, length};
ghost use Rattle.model.specs.Sequence.{command_from, field, mark, version, file_places, eighth, command_count, command_at};

use model::Command;

// The byte at an offset of a part of the file.
#[tactic(auto, using(crate::proofs::Fields::field_past), unfolding(model::specs::Sequence::field))]
fn byte(part: &[u8], i: usize) -> u8
    ensures { result ≡ field part.now i 1 }
{
    part.get(i).copied().unwrap_or(0)
}

// The bytes from an offset on. A field ends within 16 bytes, as a command does.
fn bytes<const N: usize>(part: &[u8], start: usize) -> [u8; N]
    requires { start + N ≤ 16 }
    ensures { (i : ℕ) → i < N → slice_index result i ≡ field part.now (start + i) 1 }
{
    let mut bytes = [0; N];
    for i in 0..N {
        bytes[i] = byte(part, start + i);
    }
    bytes
}

// The first three bytes.
pub(crate) fn mark(file: &[u8]) -> [u8; 3]
    ensures { result ≡ field file.now 0 1 ∷ field file.now 1 1 ∷ field file.now 2 1 ∷ [] }
{
    bytes(file, 0)
}

pub(crate) fn version(file: &[u8]) -> u16
    ensures { result ≡ version file.now }
{
    u16::from_le_bytes(bytes(file, 3))
}

// The number of places.
pub(crate) fn file_places(file: &[u8]) -> u16
    ensures { result ≡ file_places file.now }
{
    u16::from_le_bytes(bytes(file, 5))
}

// The byte after it.
pub(crate) fn eighth(file: &[u8]) -> u8
    ensures { result ≡ eighth file.now }
{
    byte(file, 7)
}

// Where a command's 16 bytes begin, and no further than the file goes.
fn command_start(file: &[u8], number: u16) -> usize
    ensures { result ≡ min (16 * number - 8) (length file.now) }
{
    let start = (16 * number as usize).saturating_sub(8);
    start.min(file.len())
}

// The code of the command that a part of the file begins with.
pub(crate) fn code_in(part: &[u8]) -> u8
    ensures { result ≡ field part.now 0 1 }
{
    byte(part, 0)
}

// That command.
#[inline]
fn command_in(part: &[u8]) -> Command
    ensures { result ≡ command_from part.now 0 }
{
    Command {
        code: code_in(part),
        flag: byte(part, 1),
        index: u16::from_le_bytes(bytes(part, 2)),
        generation: u32::from_le_bytes(bytes(part, 4)),
        value: u64::from_le_bytes(bytes(part, 8)),
    }
}

// A field of that command, other than its code, is larger than the same field of `most`.
#[tactic(auto, using(model::proofs::Tests::tests), unfolding(model::specs::Sequence::command_from))]
pub(crate) fn exceeds(part: &[u8], most: Command) -> bool
    ensures { let c = command_from part.now 0 in result
        ≡ ltb most.flag c.flag || ltb most.index c.index || ltb most.generation c.generation || ltb most.value c.value }
{
    let c = command_in(part);
    c.flag > most.flag
        || c.index > most.index
        || c.generation > most.generation
        || c.value > most.value
}

/// A command by its number, from 1. The file's end may cut it off. Where its 16 bytes are all there, it is read in a
/// slice of 16, of which the compiler tests none: with one call for both a command took 91 instructions in place of 24.
pub fn command_at(file: &[u8], number: u16) -> Command
    ensures { result ≡ command_at file.now number }
{
    let start = command_start(file, number);
    if file.len() - start < 16 {
        return command_in(&file[start..]);
    }
    let end = start + 16;
    command_in(&file[start..end])
}

pub fn command_count(file: &[u8]) -> usize
    ensures { result ≡ command_count file.now }
{
    file.len().saturating_sub(8) / 16
}

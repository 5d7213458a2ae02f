//! Scripts of numbers: the numbers that a line spells, cut to the fields that they go into, the tables and the journal
//! that a script lends to its calls, and how what they hold and what a call answers is printed.
#![tactic(auto)]

ghost use Rattle.std.specs.Prelude.{◌≡◌, ◌++◌, Option, IfOk, OnOk, None, take};
ghost use Rattle.std.specs.Option.{option_to_list};
ghost use Rattle.scripts.specs.Numbers.{longer, read_on, numbers_from, read_from};
ghost use Rattle.scripts.specs.Words.{header_of};

mod lent;
mod low;
mod shown;
mod table;
mod words;

pub use lent::{Journal, Tables};
pub use low::Low;
use model::Header;
pub use shown::Shown;
use std::alloc::{AllocError, Global};
pub use table::Table;
pub use words::Place;

/// The header that a line's next four numbers give.
pub fn header(numbers: &[u64]) -> Header
    ensures { result ≡ header_of numbers.now }
{
    let word = |k: usize| numbers.get(k).copied().unwrap_or(0);
    Header {
        len: u16::low(word(0)),
        m: u16::low(word(1)),
        root: u16::low(word(2)),
        generation: u32::low(word(3)),
    }
}

/// A number with one more digit, if the byte is one. Above the largest of 64 bits it stays at that.
pub fn longer(x: u64, byte: u8) -> Option<u64>
    ensures { result ≡ longer x byte }
{
    if !byte.is_ascii_digit() {
        return None;
    }
    let digit = byte - b'0';
    Some(x.saturating_mul(10).saturating_add(u64::from(digit)))
}

// The number of a script with one more digit, if the byte is one. A digit that finds no room is left out, and the last
// may wrap.
fn read_on(x: u64, byte: u8) -> Option<u64>
    ensures { result ≡ read_on x byte }
{
    if !byte.is_ascii_digit() {
        return None;
    }
    if x > u64::MAX / 10 {
        return Some(x);
    }
    Some((x * 10).wrapping_add(u64::from(byte - b'0')))
}

// Adds a number that has ended, where one had begun.
fn add(all: &mut Vec<u64>, number: Option<u64>) -> Result<(), AllocError>
    ensures { OnOk result (all.new.items ≡ all.old.items ++ option_to_list number) }
{
    if let Some(x) = number {
        all.push(x)?;
    }
    Ok(())
}

/// The numbers of a line. Whatever is no digit parts them.
#[tactic(auto, using(crate::proofs::Turns::numbers_end))]
pub fn numbers(alloc: Global, text: &[u8]) -> Result<Vec<u64>, AllocError>
    ensures { IfOk result (λ v. v.items ≡ numbers_from None text.now) }
{
    let mut all = Vec::new(alloc);
    let mut number: Option<u64> = None;
    for b in text {
        match longer(number.unwrap_or(0), *b) {
            Some(x) => number = Some(x),
            None => {
                add(&mut all, number)?;
                number = None;
            }
        }
    }
    add(&mut all, number)?;
    Ok(all)
}

/// Reads the numbers of a line as scripts are read, `most` of them at most, in place of those that were there: so that
/// lines are read without memory for each. Whatever is no digit parts them. A number above the largest of 64 bits is
/// not read right, where `numbers` keeps it at that.
pub fn read_numbers(all: &mut Vec<u64>, most: usize, text: &[u8]) -> Result<(), AllocError>
    ensures { OnOk result (all.new.items ≡ take most (read_from None text.now)) }
{
    all.clear();
    let mut number: Option<u64> = None;
    for b in text {
        if all.len() >= most {
            return Ok(());
        }
        match read_on(number.unwrap_or(0), *b) {
            Some(x) => number = Some(x),
            None => {
                add(all, number)?;
                number = None;
            }
        }
    }
    if all.len() < most {
        add(all, number)?;
    }
    Ok(())
}

#[cfg(test)]
mod tests;

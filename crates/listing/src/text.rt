//! Text, numbers and a command's word, written into a lent buffer from an offset on. What finds no room is left out,
//! and the answer is the offset after the whole. An offset that is handed in has 32 bits, so that the sum of it and a
//! length cannot overflow.

ghost use Rattle.std.specs.Prelude.{◌+◌, ◌≤◌, ◌≡◌, set};
ghost use Rattle.listing.specs.Written.{Written, spaced};
ghost use Rattle.model.specs.Listing.{decimal, word};

use model::Code;

// A byte at an offset.
fn put(out: &mut [u8], at: usize, byte: u8)
    ensures { out.new ≡ set out.old at byte }
{
    if at < out.len() {
        out[at] = byte;
    }
}

// Bytes from an offset on, which after a space may have 33 bits.
fn write_at(out: &mut [u8], start: usize, text: &[u8]) -> usize
    requires { start ≤ 4294967296 }
    ensures { Written out.old out.new start text.now result }
{
    for (i, byte) in text.iter().enumerate() {
        put(out, start + i, *byte);
    }
    start + text.len()
}

// Bytes from an offset on.
pub(crate) fn write_text(out: &mut [u8], at: u32, text: &[u8]) -> usize
    ensures { Written out.old out.new at text.now result }
{
    write_at(out, at as usize, text)
}

// A number's decimal digits, at most 20. By `itoa::Buffer`, which has 40 bytes, a line costs 7 instructions more.
fn put_digits(out: &mut [u8], start: usize, n: u64) -> usize
    requires { start ≤ 4294967296 }
    ensures written { Written out.old out.new start (decimal n) result }
    ensures upper_bound { result ≤ start + 20 }
{
    let mut digits = [0; 20];
    let first = itoa::write_digits(n, &mut digits, 20);
    write_at(out, start, &digits[first..])
}

// A number, in decimal.
pub(crate) fn write_decimal(out: &mut [u8], at: u32, n: u64) -> usize
    ensures written { Written out.old out.new at (decimal n) result }
    ensures upper_bound { result ≤ at + 20 }
{
    put_digits(out, at as usize, n)
}

// A space and a number.
#[tactic(auto, using(crate::proofs::Texts::byte_then), unfolding(model::specs::Listing::bytes))]
pub(crate) fn write_number(out: &mut [u8], at: u32, n: u64) -> usize
    ensures written { Written out.old out.new at (spaced n) result }
    ensures upper_bound { result ≤ at + 21 }
{
    let start = at as usize;
    put(out, start, b' ');
    put_digits(out, start + 1, n)
}

// A command's word, from the start of the line. Each is written in its own arm: a function that only chooses the word
// cost 15 instructions more a line (157 in place of 142, with a number).
#[tactic(auto, using(crate::proofs::Texts::word_none), unfolding(model::specs::Listing::bytes, model::specs::Listing::word))]
pub(crate) fn write_word(out: &mut [u8], code: u8) -> usize
    ensures written { Written out.old out.new 0 (word code) result }
    ensures upper_bound { result ≤ 10 }
{
    match Code::try_from(code) {
        Ok(Code::Insert) => write_text(out, 0, b"insert"),
        Ok(Code::Remove) => write_text(out, 0, b"remove"),
        Ok(Code::Invalidate) => write_text(out, 0, b"invalidate"),
        Ok(Code::Get) => write_text(out, 0, b"get"),
        Ok(Code::Clear) => write_text(out, 0, b"clear"),
        Ok(Code::Order) => write_text(out, 0, b"order"),
        Ok(Code::Compress) => write_text(out, 0, b"compress"),
        Ok(Code::Audit) => write_text(out, 0, b"audit"),
        Ok(Code::SetGeneration) => write_text(out, 0, b"setgen"),
        Ok(Code::RemoveIndex) => write_text(out, 0, b"takeinx"),
        Err(_) => 0,
    }
}

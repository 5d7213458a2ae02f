//! Input of the programs: a file or standard input, read whole, and why that failed.
#![tactic(auto)]

ghost use Rattle.std.specs.Io.KnownBytes.{Consumes, IsAtEnd};
ghost use Rattle.std.specs.Prelude.{◌≤◌, ◌<◌, length, take, ◌≡◌, ℕ, List, ◌++◌, IfOk, IfSome, MatchResult, Ok, Some, None, vec_len, string_bytes, codes};

use std::alloc::{AllocError, Global};
use std::io::Read;
use std::{env, fs, io};

// Reads until the input ends or the buffer is full, and answers how many bytes were read: the reader's next bytes,
// where they are known, as those of a file are not.
fn read_whole<R: Read>(reader: &mut R, buffer: &mut [u8]) -> io::Result<usize>
    ensures bound { IfOk result (λ n. n ≤ length buffer.old) }
    ensures bytes { IfOk result
        (λ n. Consumes (R.remaining reader.old) (R.remaining reader.new) (take n buffer.new)) }
    ensures end { IfOk result (λ n. n < length buffer.old → IsAtEnd (R.remaining reader.new)) }
{
    let mut n = 0;
    while n < buffer.len() {
        let got = reader.read(&mut buffer[n..])?;
        if got == 0 {
            return Ok(n);
        }
        n += got;
    }
    Ok(n)
}

// The system's words in the text of an error, as `No such file or directory`, without the error's number.
fn reason(text: &str) -> &str {
    match text.split_once(" (os error ") {
        Some((words, _)) => words,
        None => text,
    }
}

// What failed, and why, in a line for standard error.
fn failure(alloc: Global, what: &str, e: io::Error) -> Result<String, AllocError>
    ensures { IfOk result (λ s. (why : List ℕ) × (string_bytes s ≡ what.now ++ (codes ": " ++ why))) }
{
    let text = format!(in alloc; "{e}")?;
    let why = reason(text.as_str());
    let line = format!(in alloc; "{what}: {why}")?;
    Ok(line)
}

/// What came of a step, or nothing where it failed: what failed, and why, is said on standard error.
pub fn or_say<T: Drop>(
    rt: &HostRuntime,
    what: &str,
    outcome: io::Result<T>,
) -> io::Result<Option<T>>
    ensures { MatchResult outcome (λ x. result ≡ Ok (Some x)) (λ e. IfOk result (λ o. o ≡ None)) }
{
    match outcome {
        Ok(x) => Ok(Some(x)),
        Err(e) => {
            eprintln!(rt; "{}", failure(rt.alloc(), what, e)?)?;
            Ok(None)
        }
    }
}

// The first bytes of an input, as many as find room in the buffer.
fn read_into<R: Read>(reader: &mut R, buffer: Vec<u8>) -> io::Result<Vec<u8>>
    ensures bound { IfOk result (λ v. vec_len v ≤ vec_len buffer) }
    ensures bytes { IfOk result
        (λ v. Consumes (R.remaining reader.old) (R.remaining reader.new) v.items) }
    ensures end { IfOk result (λ v. vec_len v < vec_len buffer → IsAtEnd (R.remaining reader.new)) }
{
    let mut bytes = buffer;
    let n = read_whole(reader, &mut bytes)?;
    bytes.truncate(n);
    Ok(bytes)
}

/// The first bytes of an input, as many as `most` at most.
pub fn read<R: Read>(alloc: Global, reader: &mut R, most: usize) -> io::Result<Vec<u8>>
    ensures bound { IfOk result (λ v. vec_len v ≤ most) }
    ensures bytes { IfOk result
        (λ v. Consumes (R.remaining reader.old) (R.remaining reader.new) v.items) }
    ensures end { IfOk result (λ v. vec_len v < most → IsAtEnd (R.remaining reader.new)) }
{
    read_into(reader, vec![in alloc; 0; most]?)
}

/// The same of an input of this name, or nothing where it cannot be read: that is said on standard error. Where memory
/// runs out for it, the program ends: that is no fault of the input.
pub fn read_named<R: Read>(
    rt: &HostRuntime,
    name: &str,
    reader: &mut R,
    most: usize,
) -> io::Result<Option<Vec<u8>>>
    ensures bound { IfOk result (λ o. IfSome o (λ v. vec_len v ≤ most)) }
    ensures bytes { IfOk result (λ o. IfSome o
        (λ v. Consumes (R.remaining reader.old) (R.remaining reader.new) v.items)) }
    ensures end { IfOk result (λ o. IfSome o
        (λ v. vec_len v < most → IsAtEnd (R.remaining reader.new))) }
{
    let buffer = vec![in rt.alloc(); 0; most]?;
    or_say(rt, name, read_into(reader, buffer))
}

/// The same of a file. One that cannot be opened is said on standard error too.
pub fn read_file(rt: &HostRuntime, path: &str, most: usize) -> io::Result<Option<Vec<u8>>>
    ensures { IfOk result (λ o. IfSome o (λ v. vec_len v ≤ most)) }
{
    match or_say(rt, path, fs::open(rt, path))? {
        Some(mut file) => read_named(rt, path, &mut file, most),
        None => Ok(None),
    }
}

/// Reads a file's first bytes into the buffer, as many as find room, and answers how many they are, or nothing where it
/// cannot be opened or read: that is said on standard error. So one file after the other is read in the same memory.
pub fn read_file_into(rt: &HostRuntime, path: &str, buffer: &mut [u8]) -> io::Result<Option<usize>>
    ensures { IfOk result (λ o. IfSome o (λ n. n ≤ length buffer.old)) }
{
    match or_say(rt, path, fs::open(rt, path))? {
        Some(mut file) => or_say(rt, path, read_whole(&mut file, buffer)),
        None => Ok(None),
    }
}

/// The first bytes of what a program is asked for, as `read_file` gives them: of the file that its first argument
/// names, or of standard input where it has none.
pub fn read_asked(rt: &HostRuntime, most: usize) -> io::Result<Option<Vec<u8>>>
    ensures { IfOk result (λ o. IfSome o (λ v. vec_len v ≤ most)) }
{
    match env::args(rt)?.nth(1) {
        Some(path) => read_file(rt, path.as_str(), most),
        None => read_named(rt, "standard input", &mut rt.stdin(), most),
    }
}

#[cfg(test)]
mod tests {
    use crate::{failure, or_say, read, read_file, read_file_into, read_named};
    use std::alloc::AllocError;
    use std::io;
    use std::test::Fail;

    #[test]
    fn names_what_failed_and_why(rt: HostRuntime) -> Result<(), AllocError> {
        let missing = failure(rt.alloc(), "first.seq", io::Error::from_raw_os_error(2))?;
        assert_eq!(rt; missing.as_str(), "first.seq: No such file or directory");
        let other = failure(rt.alloc(), "first.seq", io::Error::other("no more"))?;
        assert_eq!(rt; other.as_str(), "first.seq: no more");
        Ok(())
    }

    #[test]
    fn reads_the_first_bytes(rt: HostRuntime) -> Result<(), Fail> {
        let mut input: &[u8] = b"5 step\n";
        let text = read(rt.alloc(), &mut input, 6)?;
        assert_eq!(rt; text.as_slice(), b"5 step".as_slice());
        let rest = read(rt.alloc(), &mut input, 6)?;
        assert_eq!(rt; rest.as_slice(), b"\n".as_slice());
        Ok(())
    }

    #[test]
    fn reads_what_is_there(rt: HostRuntime) -> Result<(), Fail> {
        let mut input: &[u8] = b"places 3";
        let first = read_named(&rt, "a text", &mut input, 6)?.ok_or("unread")?;
        assert_eq!(rt; first.as_slice(), b"places".as_slice());
        let rest = read_named(&rt, "a text", &mut input, 6)?.ok_or("unread")?;
        assert_eq!(rt; rest.as_slice(), b" 3".as_slice());
        assert!(rt; read_file(&rt, "no/such/file", 6)?.is_none());
        let mut buffer = [0; 6];
        assert!(rt; read_file_into(&rt, "no/such/file", &mut buffer)?.is_none());
        Ok(())
    }

    #[test]
    fn says_what_failed(rt: HostRuntime) -> Result<(), Fail> {
        assert_eq!(rt; or_say(&rt, "first.seq", Ok(7))?, Some(7));
        let none: Option<u8> = or_say(&rt, "first.seq", Err(io::Error::other("no more")))?;
        assert_eq!(rt; none, None);
        Ok(())
    }
}

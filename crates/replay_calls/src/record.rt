//! A record: a script in which each call is followed by the answer that is expected, on a line that begins with `= `.
use std::io;
use std::io::Write;

// A line as it stands in a script, or in the record of this name.
#[derive(Clone, Copy)]
pub struct Entry<'a> {
    pub text: &'a [u8],
    pub number: usize,
    pub record: Option<&'a str>,
}

// A line without its line feed.
fn bare(text: &[u8]) -> &[u8] {
    text.strip_suffix(b"\n").unwrap_or(text)
}

// A line, ended by a line feed also where the text ends without.
fn say_line<W: Write>(to: &mut W, text: &[u8]) -> io::Result<()> {
    to.write_all(bare(text))?;
    writeln!(to)
}

// A line that is not understood: of a record by name and number, of a script by number alone.
pub fn unknown<W: Write>(to: &mut W, entry: Entry<'_>) -> io::Result<()> {
    let number = entry.number;
    match entry.record {
        Some(name) => {
            write!(to, "{name} line {number}: ")?;
            to.write_all(b"? ")?;
            say_line(to, entry.text)
        }
        None => writeln!(to, "? {number}"),
    }
}

// Whether a line of the record is `= ` and the line here.
fn same(text: &[u8], here: &[u8]) -> bool {
    text.strip_prefix(b"= ")
        .is_some_and(|line| bare(line) == here)
}

// Whether a line of the record has the line here; where it has not, both are shown.
pub fn hold<W: Write>(to: &mut W, entry: Entry<'_>, name: &str, here: &[u8]) -> io::Result<bool> {
    if same(entry.text, here) {
        return Ok(true);
    }
    write!(to, "{name} line {}: ", entry.number)?;
    say_line(to, entry.text)?;
    to.write_all(b"here: ")?;
    say_line(to, here)?;
    Ok(false)
}

// The last line: how many calls the record has, and how many of them were answered as recorded.
pub fn sum<W: Write>(to: &mut W, name: &str, calls: u64, same: u64) -> io::Result<()> {
    writeln!(to, "{name}: {calls} calls, {same} as recorded")
}

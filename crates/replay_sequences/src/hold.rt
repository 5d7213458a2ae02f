//! A listing held against the recorded one.
use std::io;
use std::io::Write;

// How many bytes the two begin with alike.
fn common(a: &[u8], b: &[u8]) -> usize {
    a.iter().zip(b).take_while(|(x, y)| x == y).count()
}

// How many lines end in a text.
fn line_count(text: &[u8]) -> usize {
    text.iter().filter(|b| **b == b'\n').count()
}

// Where the last line of a text starts.
fn last_line(text: &[u8]) -> usize {
    match text.iter().rposition(|b| *b == b'\n') {
        Some(i) => i + 1,
        None => 0,
    }
}

// The line that starts at `from`, without its line feed, or nothing where the text has ended.
fn line_at(text: &[u8], from: usize) -> &[u8] {
    let rest = text.get(from..).unwrap_or(&[]);
    rest.split(|b| *b == b'\n').next().unwrap_or(&[])
}

fn say_line<W: Write>(to: &mut W, what: &[u8], line: &[u8]) -> io::Result<()> {
    to.write_all(what)?;
    to.write_all(line)?;
    writeln!(to)
}

// The first line that differs: both texts begin alike up to it, and are alike in it as far as `alike` goes.
fn say_differs<W: Write>(
    to: &mut W,
    name: &str,
    alike: &[u8],
    recorded: &[u8],
    here: &[u8],
) -> io::Result<()> {
    let from = last_line(alike);
    let line = alike.split(|b| *b == b'\n').count();
    writeln!(to, "{name}: line {line} differs")?;
    say_line(to, b"recorded: ", line_at(recorded, from))?;
    say_line(to, b"here: ", line_at(here, from))
}

// Holds a listing against the recorded one.
pub fn hold<W: Write>(to: &mut W, name: &str, recorded: &[u8], here: &[u8]) -> io::Result<()> {
    if recorded == here {
        let lines = line_count(here);
        return writeln!(to, "{name}: {lines} lines as recorded");
    }
    let alike = here.get(..common(recorded, here)).unwrap_or(here);
    say_differs(to, name, alike, recorded, here)
}

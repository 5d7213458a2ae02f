//! The sequence file, made line by line.
use crate::line::{Line, read_line};
use crate::problem::{Fault, Problem};
use model::{Command, MAX_COMMANDS};
use std::alloc::{AllocError, Global};

// The longest text. 4,095 lines of 256 bytes fit.
pub const MOST_TEXT: usize = 1048575;

// The longest file: its head and 4,095 commands.
const MOST: usize = 8 + 16 * MAX_COMMANDS;

// Whether a file of so many bytes may go on with a line. A file without bytes has no places yet.
fn permit(line: Line, length: usize) -> Result<(), Problem> {
    match line {
        Line::Places(_) if length > 0 => Err(Problem::PlacesAgain),
        Line::Command(_) if length == 0 => Err(Problem::NoPlaces),
        Line::Command(_) if length >= MOST => Err(Problem::TooManyCommands),
        _ => Ok(()),
    }
}

// What a line of the text says, if the file may go on with it.
fn next_line(text: &[u8], length: usize) -> Result<Option<Line>, Problem> {
    let line = read_line(text)?;
    if let Some(line) = line {
        permit(line, length)?;
    }
    Ok(line)
}

// Adds the file's first eight bytes.
fn add_head(file: &mut Vec<u8>, places: u16) -> Result<(), AllocError> {
    file.extend_from_slice(&[b'T', b'T', b'S', 1, 0])?;
    file.extend_from_slice(&places.to_le_bytes())?;
    file.extend_from_slice(&[0])
}

// Adds the sixteen bytes of a command.
fn add_command(file: &mut Vec<u8>, c: Command) -> Result<(), AllocError> {
    file.extend_from_slice(&[c.code, c.flag])?;
    file.extend_from_slice(&c.index.to_le_bytes())?;
    file.extend_from_slice(&c.generation.to_le_bytes())?;
    file.extend_from_slice(&c.value.to_le_bytes())
}

fn add_line(file: &mut Vec<u8>, line: Line) -> Result<(), AllocError> {
    match line {
        Line::Places(n) => add_head(file, n),
        Line::Command(c) => add_command(file, c),
    }
}

// The file of the whole text.
pub fn make(alloc: Global, text: &[u8]) -> Result<Vec<u8>, Fault> {
    if text.len() > MOST_TEXT {
        return Err(Fault::TooLong);
    }
    let mut file = Vec::new(alloc);
    let mut line = 0;
    for (i, words) in text.split_inclusive(|b| *b == b'\n').enumerate() {
        line = i + 1;
        let next = next_line(words, file.len());
        if let Some(next) = next.map_err(|problem| Fault::Wrong { line, problem })? {
            add_line(&mut file, next)?;
        }
    }
    if file.is_empty() {
        let line = line.saturating_add(1);
        let problem = Problem::NoPlaces;
        return Err(Fault::Wrong { line, problem });
    }
    Ok(file)
}

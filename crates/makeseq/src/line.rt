//! What a line of the text says.
use crate::problem::Problem;
use crate::words::Words;
use model::{Code, Command};

#[derive(Clone, Copy)]
pub enum Line {
    Places(u16),
    Command(Command),
}

// A command without numbers.
fn plain(code: Code) -> Command {
    Command {
        code: u8::from(code),
        ..Command::NO_FIELDS
    }
}

// A command that takes a handle.
fn with_handle(code: Code, words: &mut Words) -> Result<Command, Problem> {
    Ok(Command {
        index: words.number()?,
        generation: words.number()?,
        ..plain(code)
    })
}

// A command that the word `reset` may follow.
fn compress(words: &mut Words) -> Result<Command, Problem> {
    let flag = match words.next() {
        None => 0,
        Some(b"reset") => 1,
        Some(_) => return Err(Problem::Extra),
    };
    Ok(Command {
        flag,
        ..plain(Code::Compress)
    })
}

// The command of a name, with the words that it takes.
fn read_command(name: &[u8], words: &mut Words) -> Result<Command, Problem> {
    match name {
        b"insert" => Ok(Command {
            value: words.number()?,
            ..plain(Code::Insert)
        }),
        b"remove" => with_handle(Code::Remove, words),
        b"invalidate" => with_handle(Code::Invalidate, words),
        b"get" => with_handle(Code::Get, words),
        b"clear" => Ok(plain(Code::Clear)),
        b"order" => Ok(plain(Code::Order)),
        b"compress" => compress(words),
        b"audit" => Ok(plain(Code::Audit)),
        b"setgen" => Ok(Command {
            generation: words.number()?,
            ..plain(Code::SetGeneration)
        }),
        b"takeinx" => Ok(Command {
            index: words.number()?,
            ..plain(Code::RemoveIndex)
        }),
        _ => Err(Problem::UnknownWord),
    }
}

fn read_words(name: &[u8], words: &mut Words) -> Result<Line, Problem> {
    match name {
        b"places" => Ok(Line::Places(words.number()?)),
        _ => Ok(Line::Command(read_command(name, words)?)),
    }
}

// A line, which ends where its last word does. One without words says nothing.
pub fn read_line(line: &[u8]) -> Result<Option<Line>, Problem> {
    let mut words = Words::new(line);
    let Some(name) = words.next() else {
        return Ok(None);
    };
    let read = read_words(name, &mut words)?;
    match words.next() {
        None => Ok(Some(read)),
        Some(_) => Err(Problem::Extra),
    }
}

//! What can be wrong with a text, and how it is said.
use std::alloc::AllocError;
use thiserror::Error;

// What is wrong in a line.
#[derive(Clone, Copy, Debug, Error)]
pub enum Problem {
    #[error("no command has this name")]
    UnknownWord,
    #[error("the first line with words must be `places` and a number")]
    NoPlaces,
    #[error("the places are given already")]
    PlacesAgain,
    #[error("a number is missing")]
    MissingNumber,
    #[error("this is not a decimal number")]
    NoNumber,
    #[error("the number is too large for its field")]
    TooLarge,
    #[error("there is more on the line than the command takes")]
    Extra,
    #[error("there are more than 4095 commands")]
    TooManyCommands,
}

// Why no file is made of a text.
#[derive(Debug, Drop, Error)]
pub enum Fault {
    #[error("the text is longer than 1048575 bytes")]
    TooLong,
    #[error("line {line}: {problem}")]
    Wrong { line: usize, problem: Problem },
    #[error(transparent)]
    OutOfMemory(#[from(alloc)] AllocError),
}

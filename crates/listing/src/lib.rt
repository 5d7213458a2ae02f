//! The listing of a sequence file: a line for each command, and the last one.
#![tactic(auto)]

mod last_line;
mod line;
pub mod play;
pub mod run;
mod text;

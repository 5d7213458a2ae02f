//! A sequence file: its fields, its check, and its commands performed, a step or a whole run.
#![tactic(auto)]

pub mod answer;
pub mod check;
pub mod file;
pub mod perform;
pub mod run;
pub mod step;
mod table;
pub mod tally;

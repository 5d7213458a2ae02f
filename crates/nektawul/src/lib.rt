//! Every call as C and Rust link it.
#![tactic(auto)]

pub mod answer;
pub mod audit;
pub mod compress;
pub mod copy;
pub mod cursor;
pub mod file;
pub mod generation;
pub mod message;
pub mod run;
pub mod step;
pub mod store;
pub mod transfer;

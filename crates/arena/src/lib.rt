//! The store: `Arena` over three lent tables and a header.
#![tactic(auto)]

pub mod advance;
pub mod audit;
pub mod clear;
pub mod clone;
pub mod compress;
pub mod find;
pub mod freelist;
pub mod generation;
pub mod insert;
pub mod journal;
pub mod message;
mod place;
pub mod refusals;
pub mod remove;
pub mod reserve;
mod stack;
pub mod transfer;
mod two_stores;

//! Plays works on the store, each many times over, in loops that call it as a display loop written in Rattle would, and
//! prints the sum of what the calls answered. `bench/compare.sh` measures it beside other stores, on which the same
//! work comes to the same sum.
//!
//!   bench_calls WORK PLACES STRIDE TURNS    a work on a store of so many places, of which every STRIDE-th has a message
//!   bench_calls sequence FILE TURNS         runs of a sequence file, each on a new store
//!   bench_calls                             every work in a small size, and worked.seq
//!
//! The works are insert, get, stale, churn, walk and compress. A choice among the messages takes the low bits of a
//! number, so that places and stride should be powers of two.
#![tactic(auto)]

mod args;
mod columns;
mod compression;
mod handles;
mod messages;
mod passes;
mod runs;
mod store;
mod work;

use args::number_at;
use std::{env, io};
use work::{Size, Work};

// Plays the work of a word. A word that names no work has the sum 0.
fn play(rt: &HostRuntime, word: &str, s: Size) -> io::Result<()> {
    let sum = word.parse::<Work>().map_or(0, |work| work::play(work, s));
    println!(rt; "{sum}")
}

const SMALL: Size = Size {
    places: 64,
    stride: 2,
    turns: 100,
};

fn show_all(rt: &HostRuntime) -> io::Result<()> {
    for work in Work::ALL {
        print!(rt; "{work} ")?;
        let sum = work::play(work, SMALL);
        println!(rt; "{sum}")?;
    }
    print!(rt; "sequence ")?;
    runs::play(rt, "worked.seq", 100)
}

fn play_sequence(rt: &HostRuntime) -> io::Result<()> {
    let turns = number_at(rt, 3)?;
    let path = env::args(rt)?.nth(2);
    runs::play(rt, path.as_deref().unwrap_or(""), turns)
}

fn play_asked(rt: &HostRuntime, word: &str) -> io::Result<()> {
    if word == "sequence" {
        return play_sequence(rt);
    }
    let places = number_at(rt, 2)?;
    let stride = number_at(rt, 3)?;
    let turns = number_at(rt, 4)?;
    play(rt, word, Size::of_numbers(places, stride, turns))
}

fn main(rt: HostRuntime) -> io::Result<()> {
    match env::args(&rt)?.nth(1) {
        Some(word) => play_asked(&rt, word.as_str()),
        None => show_all(&rt),
    }
}

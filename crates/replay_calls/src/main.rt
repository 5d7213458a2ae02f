//! Plays a script of calls and prints a line for each call, or holds these lines against a record of them.
//!
//!   replay_calls FILE..    replays records, and prints what differs
//!   replay_calls           plays the script that comes on standard input
//!
//! A call's line is the call with its arguments, its answer, the header after it (`len`, stack length m, root, current
//! generation) and every place after it (generation:link:value, a word that is not there is 0; equal neighbours are
//! shown once, with their number: 0:0:0*3). The answer is `ok` or `over` with index, generation and value, 0 where one
//! has no meaning, or `no` with the refusal's number. Audit's value is its verdict, and the number of looks follows it;
//! after a call with a cursor follows the cursor. A transfer and a copy have the other store's header and places too, a
//! compress and a transfer the rows of the journal (old index:old generation:new index:new generation:overflow).
//!
//! A line of the script that begins with `#` is a heading and is printed as it is; an empty line, and one that begins
//! with `=` or `~`, is skipped. Any other line is numbers, the first of them its code, and whatever is no digit parts
//! them:
//!   0 store 2 2 2 | 1 2 1 2 | 3:2:9 0:2:0    the lengths of the three tables, the header, the words of places 1 to 6 (0 where left out)
//!   16 fill 2 0 7                            the words of all 1,025 places, for tables of more than six: a store line leaves those past 6
//!   25 new 3                                 the length of all three tables, which are laid out anew; a call as well
//!   1 insert_within_capacity 10              codes 1 to 15, 17 and 18: a call, with its arguments, on the store as it is (run.rt)
//!   24 journal 2 2 2 2 2 | 88 1              the lengths of the five columns, and what all 1,025 rows hold: the number, the overflow
//!   20 transfer_reallocating 5               codes 19 to 21: a call on the store, the other store and the journal (moves.rt)
//!   101 other insert_within_capacity 10      100 more than any of these but 24: the same with the two stores exchanged, answered by a
//!                                            line that begins with `other`
//! A line that fits none of these is answered by `?` and its number. A script has 1,048,575 bytes at most.
//!
//! A record is a script in which the line after a call's line is `= ` and the line that the call must print. Where
//! another line is made, the record's name, the number and the `=` line are printed, and then `here` and the line made.
//! Headings are skipped. Last comes a line with the record's name, how many calls it has, and how many of them were as
//! recorded: a call that no `=` line follows is not.
#![tactic(auto)]

mod code;
mod columns;
mod line;
mod moves;
mod record;
mod run;
mod script;
mod show;
mod store;
mod text;
mod world;

use input::{read_file_into, read_named};
use std::env::Args;
use std::io::{BufWriter, Write};
use std::{env, io};

// As many bytes are read at most. A script that has them all may go on, and is too long.
const MOST: usize = 1048576;

// Plays the text that was read, if it was: a record, or the script that has no name of its own.
fn play<W: Write>(
    rt: &HostRuntime,
    to: &mut W,
    text: Option<&[u8]>,
    name: &str,
    record: Option<&str>,
) -> io::Result<()> {
    match text {
        Some(text) if text.len() < MOST => script::play(rt.alloc(), to, text, record),
        Some(_) => eprintln!(rt; "{name}: longer than 1048575 bytes"),
        None => Ok(()),
    }
}

// Replays the records of these names, one after the other in the same memory.
fn replay<W: Write>(rt: &HostRuntime, to: &mut W, names: Args) -> io::Result<()> {
    let mut buffer = vec![in rt.alloc(); 0; MOST]?;
    for path in names.skip(1) {
        let name = path.as_str();
        let n = read_file_into(rt, name, &mut buffer)?;
        play(rt, to, n.map(|n| &buffer[..n]), name, Some(name))?;
    }
    Ok(())
}

fn main(rt: HostRuntime) -> io::Result<()> {
    let mut out = BufWriter::new(rt.alloc(), io::writer(&rt))?;
    let args = env::args(&rt)?;
    if args.len() < 2 {
        let name = "standard input";
        let text = read_named(&rt, name, &mut rt.stdin(), MOST)?;
        play(&rt, &mut out, text.as_deref(), name, None)?;
        return out.flush();
    }
    replay(&rt, &mut out, args)?;
    out.flush()
}

//! The listing of a run, written into a lent buffer: all that `runseq` prints for a file. What finds no room is left
//! out.

ghost use Rattle.std.specs.Prelude.{◌≤◌, ◌≡◌, ℕ, List, length, take};
ghost use Rattle.std.proofs.lemmas.List.Edits.{sets};
ghost use Rattle.model.specs.Store.{tables};
ghost use Rattle.model.specs.Answers.{message_answer};
ghost use Rattle.model.specs.Run.{step_refusal};
ghost use Rattle.model.specs.Listing.{command_line, sum_line, listed, listing};
ghost use Rattle.listing.specs.Written.{Written};
ghost use Rattle.sequence.specs.LentRun.{beginning};
ghost use Rattle.listing.specs.NewRun.{new_run};

use crate::last_line::{write_refused_line, write_sum_line};
use crate::line::write_command_line;
use arena::clear::new;
use arena::journal::{Columns, Journal};
use model::{Answer, Checked, Header, MAX_COMMANDS, MAX_PLACES, State};
use sequence::check::{check, lent_places};
use sequence::file::{command_at, command_count};
use sequence::perform::perform_command;
use sequence::tally::Tally;

/// Room for the longest listing: 4,095 lines of a command, of 181 bytes at most, and the line of sums. `list` promises
/// that it is enough.
pub const LISTING_BYTES: usize = MAX_COMMANDS * 181 + 100;

/// One byte more than the longest sequence has: a file that fills this room is refused, whatever comes after. `list`
/// promises that the listing of a file's first bytes, as many as these, is that of the whole file.
pub const FILE_BYTES: usize = 8 + 16 * MAX_COMMANDS + 1;

// A line after those that are written already. The answer is its length.
#[tactic(auto, using(crate::proofs::ListedParts::part_written))]
fn add_command_line(out: &mut [u8], at: usize, code: u8, answer: Answer, h: Header) -> usize
    ensures out_after { out.new ≡ sets out.old at (command_line code (message_answer answer) h) }
    ensures value { result ≡ length (command_line code (message_answer answer) h) }
{
    let start = at.min(out.len());
    write_command_line(&mut out[start..], code, answer, h)
}

#[tactic(auto, using(crate::proofs::ListedParts::part_written))]
fn add_sum_line(out: &mut [u8], at: usize, tally: [[u32; 3]; 10]) -> usize
    ensures out_after { out.new ≡ sets out.old at (sum_line tally) }
    ensures value { result ≡ length (sum_line tally) }
{
    let start = at.min(out.len());
    write_sum_line(&mut out[start..], tally)
}

// The commands of a checked file from the state's number on, one after the other, each with its line, and then their
// sum. The loop counts in the state, as a run's does. It is a loop of its own, since a line is written between two
// commands.
#[tactic(auto, using(sequence::proofs::Starting::countable, crate::proofs::Lines::written_long, crate::proofs::Short::few_bytes, crate::proofs::Short::line_bytes, crate::proofs::Short::sum_bytes))]
fn list_commands<J: Journal>(
    generations: &mut [u32],
    links: &mut [u16],
    values: &mut [u64],
    file: &[u8],
    q: &mut State,
    journal: &mut J,
    out: &mut [u8],
) -> usize
    requires { step_refusal (tables generations.old links.old values.old) file.now q.old.next ≡ 0 }
    ensures { Written out.old out.new 0
        (listed file.now
        (beginning (tables generations.old links.old values.old) q.old
        (J.rows journal.old))) result }
{
    let n = command_count(file);
    let mut tally = Tally::new();
    let mut at = 0;
    while q.next as usize <= n {
        let c = command_at(file, q.next);
        let answer = perform_command(generations, links, values, &mut q.header, c, journal);
        tally.count(c.code, answer);
        q.next += 1;
        at += add_command_line(out, at, c.code, answer, q.header);
    }
    at + add_sum_line(out, at, tally.rows)
}

// The listing of a file's run on the lent tables, laid out as a new store, with the lent journal.
#[tactic(auto, using(crate::proofs::Lent::accepted_listing))]
fn list_run<J: Journal>(
    generations: &mut [u32],
    links: &mut [u16],
    values: &mut [u64],
    file: &[u8],
    journal: &mut J,
    out: &mut [u8],
) -> usize
    ensures { Written out.old out.new 0
        (listed file.now
        (new_run (tables generations.old links.old values.old) (J.rows journal.old))) result }
{
    let header = new(generations, links, values);
    if let Err(r) = check(generations, links, values, file, 1) {
        return write_refused_line(out, Checked::from(r));
    }
    let mut q = State { next: 1, header };
    list_commands(generations, links, values, file, &mut q, journal, out)
}

/// All that `runseq` prints for a file: the listing of its run on a new store, with a journal of 1,024 rows. The answer
/// is the listing's length.
#[tactic(auto, using(crate::proofs::Lent::places_fit, crate::proofs::Lent::length_part, crate::proofs::Lent::listing_lent, crate::proofs::Short::short_listing))]
pub fn list(file: &[u8], out: &mut [u8]) -> usize
    ensures out_after { out.new ≡ sets out.old 0 (listing file.now) }
    ensures value { result ≡ length (listing file.now) }
    ensures upper_bound { result ≤ LISTING_BYTES }
    ensures enough { (whole : List ℕ) → file.now ≡ take FILE_BYTES whole → listing file.now ≡ listing whole }
{
    let places = lent_places(file);
    let mut generations = [0u32; MAX_PLACES];
    let mut links = [0u16; MAX_PLACES];
    let mut values = [0u64; MAX_PLACES];
    let mut oldinx = [0u16; MAX_PLACES];
    let mut oldgen = [0u32; MAX_PLACES];
    let mut newinx = [0u16; MAX_PLACES];
    let mut newgen = [0u32; MAX_PLACES];
    let mut overflow = [false; MAX_PLACES];
    let mut journal = Columns {
        oldinx: &mut oldinx,
        oldgen: &mut oldgen,
        newinx: &mut newinx,
        newgen: &mut newgen,
        overflow: &mut overflow,
    };
    list_run(
        &mut generations[..places],
        &mut links[..places],
        &mut values[..places],
        file,
        &mut journal,
        out,
    )
}

//! The last line of a listing, written into a lent buffer from its start: the sum of a run, or why a file is refused.
//! What finds no room is left out, and the answer is the length of the whole line.

ghost use Rattle.std.specs.Prelude.{◌≤◌, ◌<◌, ◌≡◌, length};
ghost use Rattle.std.proofs.lemmas.List.Edits.{sets};
ghost use Rattle.model.specs.Listing.{total, sum_line, refused_line};

use crate::text::{write_number, write_text};
use model::Checked;

// The sum of a column of the tally: of its rows of counts, by value.
fn column_total(tally: [[u32; 3]; 10], column: usize) -> u64
    requires { column < 3 }
    ensures { result ≡ total column tally }
{
    let mut sum = 0;
    for counts in &tally {
        sum += u64::from(counts[column]);
    }
    sum
}

// How many commands were done, overflowed and were refused.
pub(crate) fn write_sum_line(out: &mut [u8], tally: [[u32; 3]; 10]) -> usize
    ensures out_after { out.new ≡ sets out.old 0 (sum_line tally) }
    ensures value { result ≡ length (sum_line tally) }
{
    let at = write_text(out, 0, b"sum");
    let at = write_number(out, at as u32, column_total(tally, 0));
    let at = write_number(out, at as u32, column_total(tally, 1));
    let at = write_number(out, at as u32, column_total(tally, 2));
    write_text(out, at as u32, b"\n")
}

// The one line of a refused file: the number, and the command's number or 0.
pub(crate) fn write_refused_line(out: &mut [u8], found: Checked) -> usize
    ensures out_after { out.new ≡ sets out.old 0 (refused_line found.refusal found.fault) }
    ensures value { result ≡ length (refused_line found.refusal found.fault) }
{
    let at = write_text(out, 0, b"refused");
    let at = write_number(out, at as u32, found.refusal as u64);
    let at = write_number(out, at as u32, found.fault as u64);
    write_text(out, at as u32, b"\n")
}

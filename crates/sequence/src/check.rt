//! The check of a whole sequence file (`WrongLength` to `BadCommand`), and the places that it is lent.

ghost use Rattle.std.specs.Prelude.{◌≡◌, IfErr};
ghost use Rattle.model.specs.Store.{tables};
ghost use Rattle.model.specs.Refusals.{wrong_length, wrong_mark, wrong_places};
ghost use Rattle.model.specs.Run.{step_refusal, fault};
ghost use Rattle.model.specs.Answers.{turned_down, checked_number, checked_fault};
ghost use Rattle.model.specs.Listing.{lent_places};
ghost use Rattle.sequence.specs.Head.{head_refusal};
ghost use Rattle.sequence.specs.Fault.{NamesFault};

use crate::file::{command_count, eighth, file_places, mark, version};
use crate::table::first_bad;
use arena::refusals::tables_unfit;
use model::{MAX_COMMANDS, MAX_PLACES, Refusal, StepRefusal};

const VERSION: u16 = 1;

/// The places that `runseq` lends: as many as the file says, 1,024 where that is more or is not there.
#[tactic(auto, using(model::proofs::Tests::tests))]
pub fn lent_places(file: &[u8]) -> usize
    ensures { result ≡ lent_places file.now }
{
    if file.len() < 7 {
        return MAX_PLACES;
    }
    (file_places(file) as usize).min(MAX_PLACES)
}

// `WrongLength`.
#[tactic(auto, using(model::proofs::Tests::tests), unfolding(model::specs::Refusals::wrong_length))]
fn wrong_length(file: &[u8]) -> bool
    ensures { result ≡ wrong_length file.now }
{
    file.len() < 8 || (file.len() - 8) % 16 != 0 || command_count(file) > MAX_COMMANDS
}

// `WrongMark`.
#[tactic(auto, using(model::proofs::Tests::tests, crate::proofs::Checks::mark_is), unfolding(model::specs::Refusals::wrong_mark))]
fn wrong_mark(file: &[u8]) -> bool
    ensures { result ≡ wrong_mark file.now }
{
    mark(file) != *b"TTS" || version(file) != VERSION || eighth(file) != 0
}

// `WrongPlaces`: places is the tables' length, and next the state's next number.
#[tactic(auto, using(model::proofs::Tests::tests), unfolding(model::specs::Refusals::wrong_places))]
fn wrong_places(file: &[u8], places: usize, next: u16) -> bool
    ensures { result ≡ wrong_places file.now places next }
{
    let said = file_places(file) as usize;
    said > MAX_PLACES || said != places || next == 0 || next as usize > command_count(file) + 1
}

// What turns a step or a run down before its commands are looked at: `TablesUnfit`, and then `WrongLength` to
// `WrongPlaces` on the file.
#[tactic(auto, using(model::proofs::Tests::tests))]
fn head_refusal(
    generations: &[u32],
    links: &[u16],
    values: &[u64],
    file: &[u8],
    next: u16,
) -> Result<(), Refusal>
    ensures { turned_down result
        ≡ head_refusal (tables generations.now links.now values.now) file.now next }
{
    if tables_unfit(generations, links, values) {
        return Err(Refusal::TablesUnfit);
    }
    if wrong_length(file) {
        return Err(Refusal::WrongLength);
    }
    if wrong_mark(file) {
        return Err(Refusal::WrongMark);
    }
    if wrong_places(file, generations.len(), next) {
        return Err(Refusal::WrongPlaces);
    }
    Ok(())
}

/// What turns a step or a run down: the tests above, and then `BadCommand` on the whole file. A file of the right
/// length has no more commands than 16 bits count.
pub fn check(
    generations: &[u32],
    links: &[u16],
    values: &[u64],
    file: &[u8],
    next: u16,
) -> Result<(), StepRefusal>
    ensures refusal_value { checked_number result
        ≡ step_refusal (tables generations.now links.now values.now) file.now next }
    ensures fault_value { checked_fault result ≡ fault file.now (checked_number result) }
    ensures fault_named { IfErr result NamesFault }
{
    head_refusal(generations, links, values, file, next)?;
    match first_bad(file) {
        None => Ok(()),
        Some(bad) => Err(StepRefusal {
            refusal: Refusal::BadCommand,
            fault: Some(bad as u16),
        }),
    }
}

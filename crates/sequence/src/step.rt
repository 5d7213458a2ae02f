//! A sequence's step: the whole file is checked, and then the command that the state names is performed.

ghost use Rattle.std.specs.Prelude.{◌≡◌, length, IfErr};
ghost use Rattle.model.specs.Store.{tables};
ghost use Rattle.model.specs.Answers.{step_answer};
ghost use Rattle.model.specs.Run.{sequence_step};
ghost use Rattle.sequence.specs.Fault.{NamesFault};

use crate::check::check;
use crate::file::{command_at, command_count};
use crate::perform::perform_command;
use arena::journal::Journal;
use model::{Answer, State, StepRefusal};

/// A step that is turned down, or is past the last command (`None`), changes nothing.
#[tactic(auto, using(crate::proofs::Stepping::down))]
pub fn step<J: Journal>(
    generations: &mut [u32],
    links: &mut [u16],
    values: &mut [u64],
    file: &[u8],
    q: &mut State,
    journal: &mut J,
) -> Result<Option<Answer>, StepRefusal>
    ensures leaves { let o = sequence_step (tables generations.old links.old values.old) file.now q.old
        (length (J.rows journal.old)) in
        (step_answer result ≡ o.answer)
        × (tables generations.new links.new values.new ≡ o.tables)
        × (q.new ≡ o.state)
        × (journal.new ≡ J.written o.rows journal.old) }
    ensures fault_named { IfErr result NamesFault }
{
    check(generations, links, values, file, q.next)?;
    if q.next as usize > command_count(file) {
        return Ok(None);
    }
    let c = command_at(file, q.next);
    let answer = perform_command(generations, links, values, &mut q.header, c, journal);
    q.next += 1;
    Ok(Some(answer))
}

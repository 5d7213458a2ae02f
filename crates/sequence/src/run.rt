//! A sequence's run: the file is checked once, and then every command from the state's number on is performed.

ghost use Rattle.std.specs.Prelude.{◌≡◌, IfErr};
ghost use Rattle.model.specs.Store.{tables};
ghost use Rattle.model.specs.Run.{step_refusal, run};
ghost use Rattle.sequence.specs.Fault.{NamesFault};
ghost use Rattle.sequence.specs.Tallied.{run_refusal, run_fault, run_tally};

use crate::check::check;
use crate::file::{command_at, command_count};
use crate::perform::perform_command;
use crate::tally::Tally;
use arena::journal::Journal;
use model::{State, StepRefusal};

// The commands of a checked file from the state's number on, one after the other. The loop counts in the state, which
// is handed back.
#[tactic(auto, using(crate::proofs::Starting::countable))]
fn run_commands<J: Journal>(
    generations: &mut [u32],
    links: &mut [u16],
    values: &mut [u64],
    file: &[u8],
    q: &mut State,
    journal: &mut J,
) -> Tally
    requires { step_refusal (tables generations.old links.old values.old) file.now q.old.next ≡ 0 }
    ensures { let o = run (tables generations.old links.old values.old) file.now q.old
        (J.rows journal.old) in
        (tables generations.new links.new values.new ≡ o.running.tables)
        × (q.new ≡ o.running.state)
        × (journal.new ≡ J.written o.running.journal journal.old)
        × (result.rows ≡ o.running.tally) }
{
    let n = command_count(file);
    let mut tally = Tally::new();
    while q.next as usize <= n {
        let c = command_at(file, q.next);
        let answer = perform_command(generations, links, values, &mut q.header, c, journal);
        tally.count(c.code, answer);
        q.next += 1;
    }
    tally
}

/// Checks the file once, and then runs every command from the state's number on. The answer is the tally.
#[tactic(auto, using(crate::proofs::Running::turned_down, crate::proofs::Running::accepted_run))]
pub fn run<J: Journal>(
    generations: &mut [u32],
    links: &mut [u16],
    values: &mut [u64],
    file: &[u8],
    q: &mut State,
    journal: &mut J,
) -> Result<Tally, StepRefusal>
    ensures leaves { let o = run (tables generations.old links.old values.old) file.now q.old
        (J.rows journal.old) in
        (run_refusal result ≡ o.refusal)
        × (run_fault result ≡ o.fault)
        × (tables generations.new links.new values.new ≡ o.running.tables)
        × (q.new ≡ o.running.state)
        × (journal.new ≡ J.written o.running.journal journal.old)
        × (run_tally result ≡ o.running.tally) }
    ensures fault_named { IfErr result NamesFault }
{
    check(generations, links, values, file, q.next)?;
    Ok(run_commands(generations, links, values, file, q, journal))
}

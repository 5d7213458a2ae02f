//! A sequence's run as C and Rust call it: the state is lent, and the journal is a slice of rows.

ghost use Rattle.std.specs.Prelude.{◌≡◌};
ghost use Rattle.model.specs.Store.{tables};
ghost use Rattle.model.specs.Run.{run};

use arena::journal::Rows;
use model::{Checked, Row, State};
use sequence::run::run;
use sequence::tally::Tally;

/// Checks the file once, and then runs every command from the state's number on. What the check gives and the tally
/// come out beside the state.
#[tactic(auto, using(sequence::proofs::Running::run_journal), unfolding(arena::specs::Lent::slice_written))]
#[unsafe(no_mangle)]
pub extern "C" fn nektawul_run(
    q: &mut State,
    checked: &mut Checked,
    tally: &mut [[u32; 3]; 10],
    file: &[u8],
    generations: &mut [u32],
    links: &mut [u16],
    values: &mut [u64],
    rows: &mut [Row],
)
    ensures { let o = run (tables generations.old links.old values.old) file.now
        q.old rows.old in
        (checked.new.refusal ≡ o.refusal)
        × (checked.new.fault ≡ o.fault)
        × (tables generations.new links.new values.new ≡ o.running.tables)
        × (q.new ≡ o.running.state)
        × (rows.new ≡ o.running.journal)
        × (tally.new ≡ o.running.tally) }
{
    let mut journal = Rows { rows };
    let ran = run(generations, links, values, file, q, &mut journal);
    *tally = match &ran {
        Ok(counted) => counted.rows,
        Err(_) => Tally::new().rows,
    };
    *checked = Checked::from(ran.map(|_| ()));
}

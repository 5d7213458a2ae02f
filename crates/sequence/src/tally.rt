//! The tally of a run: ten rows of three counts, by command and by answer (done, overflow, refused).

ghost use Rattle.std.specs.Prelude.{◌<◌, ◌≡◌};
ghost use Rattle.model.specs.Answers.{kind, message_answer};
ghost use Rattle.model.specs.Run.{no_tally};
ghost use Rattle.sequence.specs.Counted.{counted};

use model::{Answer, Completed};

/// Rows and columns are numbers: C reads the tally as rows of counts.
#[derive(Clone, Copy)]
pub struct Tally {
    pub rows: [[u32; 3]; 10],
}

// The kind of an answer, which is its count's column.
fn column(answer: Answer) -> usize
    ensures { (result ≡ kind (message_answer answer)) × (result < 3) }
{
    match answer {
        Ok(Completed::Done(_)) => 0,
        Ok(Completed::Overflow(_)) => 1,
        Err(_) => 2,
    }
}

impl Tally {
    pub fn new() -> Tally
        ensures { result.rows ≡ no_tally }
    {
        Tally { rows: [[0; 3]; 10] }
    }

    /// Counts a command's answer. A code without a row, which no checked file has, is given one: a test of the code
    /// took 10 instructions a command of a run more.
    #[tactic(auto, unfolding(crate::specs::Counted::counted))]
    pub fn count(&mut self, code: u8, answer: Answer)
        ensures { self.new.rows ≡ counted self.old.rows code (message_answer answer) }
    {
        let i = (code as usize).saturating_sub(1).min(9);
        let k = column(answer);
        self.rows[i][k] = self.rows[i][k].wrapping_add(1);
    }
}

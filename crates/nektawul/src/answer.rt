//! Answers and headers in the form in which C and Rust take them: an answer of 16 bytes, which comes back in two
//! registers, and a header as three counts and the current generation.

ghost use Rattle.std.specs.Prelude.{◌≡◌};
ghost use Rattle.model.specs.Answers.{message_answer, step_answer};
ghost use Rattle.nektawul.specs.Answer.{shown, unshown, flat, flat_step, header_of};

use model::{Answer, Checked, Completed, Header, Message, StepRefusal};

/// The kind is 0 done, 1 overflow, 2 refused; of a sequence's step also 3 past the last command and 4 turned down.
#[repr(C)]
#[derive(Clone, Copy)]
pub struct FlatAnswer {
    pub value: u64,
    pub kind: u8,
    pub refusal: u8,
    pub index: u16,
    pub generation: u32,
}

impl FlatAnswer {
    // An answer that shows a message.
    fn shown(kind: u8, message: Message) -> FlatAnswer
        ensures { result ≡ shown kind message.ptr message.value }
    {
        FlatAnswer {
            value: message.value,
            kind,
            refusal: 0,
            index: message.ptr.index,
            generation: message.ptr.generation,
        }
    }

    // An answer that shows none. The index is that of the command at fault, or 0.
    fn unshown(kind: u8, refusal: u8, index: u16) -> FlatAnswer
        ensures { result ≡ unshown kind refusal index }
    {
        FlatAnswer {
            value: 0,
            kind,
            refusal,
            index,
            generation: 0,
        }
    }
}

// The answer of a call.
impl From<Answer> for FlatAnswer {
    #[tactic(auto, unfolding(crate::specs::Answer::flat))]
    fn from(answer: Answer) -> FlatAnswer
        ensures { result ≡ flat (message_answer answer) }
    {
        match answer {
            Ok(Completed::Done(message)) => FlatAnswer::shown(0, message),
            Ok(Completed::Overflow(message)) => FlatAnswer::shown(1, message),
            Err(refusal) => FlatAnswer::unshown(2, u8::from(refusal), 0),
        }
    }
}

// The answer of a sequence's step.
impl From<Result<Option<Answer>, StepRefusal>> for FlatAnswer {
    #[tactic(auto, unfolding(crate::specs::Answer::flat_step))]
    fn from(answer: Result<Option<Answer>, StepRefusal>) -> FlatAnswer
        ensures { result ≡ flat_step (step_answer answer) }
    {
        match answer {
            Err(r) => {
                let Checked { refusal, fault } = Checked::from(r);
                FlatAnswer::unshown(4, refusal, fault)
            }
            Ok(None) => FlatAnswer::unshown(3, 0, 0),
            Ok(Some(a)) => FlatAnswer::from(a),
        }
    }
}

pub(crate) fn header_of(counts: &[u16; 3], current: u32) -> Header
    ensures { result ≡ header_of counts.now current }
{
    Header {
        len: counts[0],
        m: counts[1],
        root: counts[2],
        generation: current,
    }
}

pub(crate) fn keep_header(h: Header, counts: &mut [u16; 3], current: &mut u32)
    ensures { header_of counts.new current.new ≡ h }
{
    *counts = [h.len, h.m, h.root];
    *current = h.generation;
}

// Hands back what a call gives: the header where it stood, the answer flat.
pub(crate) fn hand_back(
    answer: Answer,
    h: Header,
    counts: &mut [u16; 3],
    current: &mut u32,
) -> FlatAnswer
    ensures value { result ≡ flat (message_answer answer) }
    ensures current_after { header_of counts.new current.new ≡ h }
{
    keep_header(h, counts, current);
    FlatAnswer::from(answer)
}

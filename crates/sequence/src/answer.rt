//! What a call returned, in the form that all calls share: the message that the answer shows, or the refusal.

ghost use Rattle.std.specs.Prelude.{◌≡◌};
ghost use Rattle.model.specs.Store.{no_ptr};
ghost use Rattle.model.specs.Answers.{insertion_answer, message_answer, invalidation_answer, access_answer, plain_answer, completion_answer, audited_answer, verdict_number};
ghost use Rattle.sequence.specs.Shown.{found_shown, drained_shown};

use model::{Answer, Audit, Completed, Message, Ptr, Refusal, Unsound};

// What an answer shows that has no handle.
fn without_handle(value: u64) -> Message
    ensures { (result.ptr ≡ no_ptr) × (result.value ≡ value) }
{
    Message {
        ptr: Ptr::NONE,
        value,
    }
}

pub fn insertion_answer(value: u64, inserted: Result<Ptr, Refusal>) -> Answer
    ensures { message_answer result ≡ insertion_answer value inserted }
{
    let ptr = inserted?;
    Ok(Completed::Done(Message { ptr, value }))
}

pub fn invalidation_answer(invalidated: Result<Completed<Ptr>, Refusal>) -> Answer
    ensures { message_answer result ≡ invalidation_answer invalidated }
{
    // Matched here and below: a function over a closure would have these two callers, and have to require that it may
    // be called.
    match invalidated? {
        Completed::Done(ptr) => Ok(Completed::Done(Message { ptr, value: 0 })),
        Completed::Overflow(ptr) => Ok(Completed::Overflow(Message { ptr, value: 0 })),
    }
}

/// Of a get by the handle.
pub fn access_answer(ptr: Ptr, got: Result<u64, Refusal>) -> Answer
    ensures { message_answer result ≡ access_answer ptr got }
{
    let value = got?;
    Ok(Completed::Done(Message { ptr, value }))
}

pub fn plain_answer(done: Result<(), Refusal>) -> Answer
    ensures { message_answer result ≡ plain_answer done }
{
    done?;
    Ok(Completed::Done(without_handle(0)))
}

pub fn completion_answer(completed: Result<Completed<()>, Refusal>) -> Answer
    ensures { message_answer result ≡ completion_answer completed }
{
    match completed? {
        Completed::Done(()) => Ok(Completed::Done(without_handle(0))),
        Completed::Overflow(()) => Ok(Completed::Overflow(without_handle(0))),
    }
}

/// Of a find or an advance.
pub fn found_answer(found: Result<Option<Ptr>, Refusal>) -> Answer
    ensures { message_answer result ≡ found_shown found }
{
    let ptr = found?.unwrap_or(Ptr::NONE);
    Ok(Completed::Done(Message { ptr, value: 0 }))
}

pub fn drained_answer(drained: Result<Option<Completed<Message>>, Refusal>) -> Answer
    ensures { message_answer result ≡ drained_shown drained }
{
    Ok(drained?.unwrap_or(Completed::Done(without_handle(0))))
}

fn verdict_number(verdict: Result<(), Unsound>) -> u64
    ensures { result ≡ verdict_number verdict }
{
    match verdict {
        Ok(()) => 0,
        Err(unsound) => u64::from(u8::from(unsound)),
    }
}

pub fn audited_answer(audited: Result<Audit, Refusal>) -> Answer
    ensures { message_answer result ≡ audited_answer audited }
{
    let audit = audited?;
    Ok(Completed::Done(without_handle(verdict_number(audit.verdict))))
}

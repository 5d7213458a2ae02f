//! The calls on one store, made on the lent tables.
use crate::code::{OnMessage, OnStore, WithCursor};
use crate::line::Line;
use crate::store::{Lent, Store};
use crate::text::{Part, number, then};
use model::{Answer, Audit, Completed, Cursor, Message, Ptr, Refusal};
use scripts::Low;
use sequence::answer::{
    access_answer, audited_answer, completion_answer, drained_answer, found_answer,
    insertion_answer, invalidation_answer, plain_answer,
};
use std::alloc::AllocError;

// What follows an answer: an audit's number of looks, or the cursor after a call.
#[derive(Clone, Copy)]
pub enum More {
    Looks(u16),
    At(Cursor),
}

// A call's answer in the form that all share, and what follows it.
#[derive(Clone, Copy)]
pub struct Reply {
    answer: Answer,
    more: Option<More>,
}

// Handle and value; fields without meaning are 0.
impl Part for Message {
    fn write(&self, to: &mut Vec<u8>) -> Result<(), AllocError> {
        then(to, b' ', u64::from(self.ptr.index))?;
        then(to, b' ', u64::from(self.ptr.generation))?;
        then(to, b' ', self.value)
    }
}

impl Part for Reply {
    fn write(&self, to: &mut Vec<u8>) -> Result<(), AllocError> {
        match self.answer {
            Ok(Completed::Done(message)) => {
                to.extend_from_slice(b": ok")?;
                message.write(to)?;
            }
            Ok(Completed::Overflow(message)) => {
                to.extend_from_slice(b": over")?;
                message.write(to)?;
            }
            Err(refusal) => {
                to.extend_from_slice(b": no")?;
                number(to, u64::from(u8::from(refusal)))?;
            }
        }
        match self.more {
            None => Ok(()),
            Some(More::Looks(looks)) => then(to, b' ', u64::from(looks)),
            Some(More::At(c)) => {
                to.extend_from_slice(b" cursor")?;
                then(to, b' ', u64::from(c.index))?;
                then(to, b' ', u64::from(c.rev))
            }
        }
    }
}

pub fn plain(answer: Answer) -> Reply {
    Reply { answer, more: None }
}

fn at(answer: Answer, c: Cursor) -> Reply {
    Reply {
        answer,
        more: Some(More::At(c)),
    }
}

fn audited(audited: Result<Audit, Refusal>) -> Reply {
    Reply {
        answer: audited_answer(audited),
        more: audited.ok().map(|audit| More::Looks(audit.looks)),
    }
}

// The call of a line, on one store.
pub fn message(call: OnMessage, line: Line<'_>, s: &mut Store) -> Reply {
    let x = line.number(0);
    let i = Low::low(x);
    let p = Ptr::new(i, Low::low(line.number(1)));
    let Lent { g, l, v, h } = s.lent();
    let answer = match call {
        OnMessage::InsertWithinCapacity => {
            insertion_answer(x, arena::insert::insert_within_capacity(g, l, v, h, x))
        }
        OnMessage::InsertReallocating => {
            insertion_answer(x, arena::insert::insert_reallocating(g, l, v, h, x))
        }
        OnMessage::Remove => arena::remove::remove(g, l, v, h, p),
        OnMessage::RemoveInx => arena::remove::remove_inx(g, l, v, h, i),
        OnMessage::Invalidate => invalidation_answer(arena::message::invalidate(g, l, v, h, p)),
        OnMessage::Get => access_answer(p, arena::message::get(g, l, v, *h, p)),
        OnMessage::Put => plain_answer(arena::message::put(g, l, v, *h, p, line.number(2))),
    };
    plain(answer)
}

pub fn store(call: OnStore, line: Line<'_>, s: &mut Store) -> Reply {
    let x = line.number(0);
    if call == OnStore::New {
        s.tables.lend([line.length(0); 3]);
    }
    let Lent { g, l, v, h } = s.lent();
    let answer = match call {
        OnStore::Clear => completion_answer(arena::clear::clear(g, l, v, h)),
        OnStore::CanonicalizeFreelist => {
            plain_answer(arena::freelist::canonicalize_freelist(g, l, v, h))
        }
        OnStore::ReallocateMinCapacity => {
            plain_answer(arena::reserve::reallocate_min_capacity(g, l, v, h, x as usize))
        }
        OnStore::FindFirstInxPtr => found_answer(arena::find::find_first_inx_ptr(g, l, v, *h)),
        OnStore::FindLastInxPtr => found_answer(arena::find::find_last_inx_ptr(g, l, v, *h)),
        OnStore::SetGeneration => {
            plain_answer(arena::generation::set_generation(g, l, v, h, Low::low(x)))
        }
        OnStore::IncGeneration => completion_answer(arena::generation::inc_generation(g, l, v, h)),
        OnStore::CheckInvariants => return audited(arena::audit::check_invariants(g, l, v, *h)),
        OnStore::New => {
            *h = arena::clear::new(g, l, v);
            plain_answer(Ok(()))
        }
    };
    plain(answer)
}

pub fn cursor(call: WithCursor, line: Line<'_>, s: &mut Store) -> Reply {
    let mut c = Cursor {
        index: Low::low(line.number(0)),
        rev: line.number(1) != 0,
    };
    let Lent { g, l, v, h } = s.lent();
    let answer = match call {
        WithCursor::Advance => found_answer(arena::advance::advance(g, l, v, *h, &mut c)),
        WithCursor::Drain => drained_answer(arena::advance::drain(g, l, v, h, &mut c)),
    };
    at(answer, c)
}

//! A command of a sequence: the call that its code names, with its fields.

ghost use Rattle.std.specs.Prelude.{ℕ, ◌≡◌, length};
ghost use Rattle.model.specs.Store.{tables, store};
ghost use Rattle.model.specs.Calls.{outcome};
ghost use Rattle.model.specs.Answers.{message_answer};
ghost use Rattle.model.specs.Perform.{perform};
ghost use Rattle.model.specs.Run.{call_of};

use crate::answer::{
    access_answer, audited_answer, completion_answer, insertion_answer, invalidation_answer,
    plain_answer,
};
use arena::audit::check_invariants;
use arena::clear::clear;
use arena::compress::compress_with;
use arena::freelist::canonicalize_freelist;
use arena::generation::set_generation;
use arena::insert::insert_within_capacity;
use arena::journal::Journal;
use arena::message::{get, invalidate};
use arena::remove::{remove, remove_inx};
use model::{Answer, Command, Header, Ptr};

// The commands but compress, which alone moves messages.
#[tactic(auto, using(crate::proofs::Outcome::as_named, crate::proofs::Outcome::audit_outcome, crate::proofs::Named::names_insert, crate::proofs::Named::names_remove, crate::proofs::Named::names_invalidate, crate::proofs::Named::names_get, crate::proofs::Named::names_clear, crate::proofs::Named::names_order, crate::proofs::Named::names_audit, crate::proofs::Named::names_set_generation, crate::proofs::Named::names_remove_index), unfolding(model::specs::Perform::perform))]
#[inline(always)]
fn perform_unjournaled(
    generations: &mut [u32],
    links: &mut [u16],
    values: &mut [u64],
    h: &mut Header,
    c: Command,
) -> Answer
    requires { c.code ≡ 7 → ⊥ }
    ensures { (n : ℕ) → outcome (message_answer result)
        (store (tables generations.new links.new values.new) h.new)
        ≡ perform (call_of c n) (store (tables generations.old links.old values.old) h.old) }
{
    let p = Ptr::new(c.index, c.generation);
    match c.code {
        1 => insertion_answer(
            c.value,
            insert_within_capacity(generations, links, values, h, c.value),
        ),
        2 => remove(generations, links, values, h, p),
        3 => invalidation_answer(invalidate(generations, links, values, h, p)),
        4 => access_answer(p, get(generations, links, values, *h, p)),
        5 => completion_answer(clear(generations, links, values, h)),
        6 => plain_answer(canonicalize_freelist(generations, links, values, h)),
        8 => audited_answer(check_invariants(generations, links, values, *h)),
        9 => plain_answer(set_generation(generations, links, values, h, c.generation)),
        _ => remove_inx(generations, links, values, h, c.index),
    }
}

/// A command on any store. The whole-file check lets only codes 1 to 10 through; any other is performed as the last of
/// them. Inlined, since a step and a run of the library both call it: a run has no use for what an audit finds, and
/// leaves its walk out.
#[tactic(auto, using(crate::proofs::Named::names_compress, crate::proofs::Outcome::unjournaled), unfolding(model::specs::Perform::perform))]
#[inline(always)]
pub fn perform_command<J: Journal>(
    generations: &mut [u32],
    links: &mut [u16],
    values: &mut [u64],
    h: &mut Header,
    c: Command,
    journal: &mut J,
) -> Answer
    ensures { let o = perform (call_of c (length (J.rows journal.old)))
        (store (tables generations.old links.old values.old) h.old) in
        (message_answer result ≡ o.answer)
        × (store (tables generations.new links.new values.new) h.new ≡ o.store)
        × (journal.new ≡ J.written o.rows journal.old) }
{
    if c.code == 7 {
        return completion_answer(compress_with(
            generations,
            links,
            values,
            h,
            c.flag == 1,
            journal,
        ));
    }
    perform_unjournaled(generations, links, values, h, c)
}

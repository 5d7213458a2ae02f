//! The claim about a store of messages, for every list of calls on a new one. What it says stands in specs/, and no
//! function here does anything: the contract of each is a theorem about the definitions of the calls.
#![tactic(auto)]

ghost use Rattle.std.specs.Prelude.{ℕ, List, [], ◌∷◌, ◌≡◌, false};
ghost use mathlib.Core.List.{Memᴰ, Nodup};
ghost use Rattle.model.specs.Store.{ptr, new};
ghost use Rattle.model.specs.Perform.{Call};
ghost use Rattle.book.specs.Book.{line};
ghost use Rattle.book.specs.Machine.{Entry, defined, run_of};
ghost use Rattle.book.specs.Covered.{Covered};
ghost use Rattle.book.specs.Claim.{Shows, Apart, Claim, ClaimButAnswered};
ghost use Rattle.book.specs.Sequences.{SequenceClaim, AcceptedRunsEnd, CoveredRun, book_at, sample, one_row};
ghost use Rattle.book.specs.Sound.{AlwaysSound};
ghost use Rattle.book.specs.Empty.{frees_nothing, runs_all, full_early, shows_one, refuses_all};
ghost use Rattle.book.specs.Near.{unstepping, leaking, forgetting, meddling, losing, unplaying, misplaying};
ghost use Rattle.book.specs.Near.{with_two, single_calls};
ghost use Rattle.book.specs.LeftOut.{left_out_count, made, GivesTwice, ShowsUnlisted};
ghost use Rattle.book.specs.LeftOut.{compress_resets, generation_lowered, transfers_in, copies_in};
ghost use Rattle.book.specs.LeftOut.{remove_overflows, remove_index_overflows, invalidate_overflows};
ghost use Rattle.book.specs.LeftOut.{clear_overflows, compress_overflows, step_generation_overflows};
ghost use Rattle.book.specs.LeftOut.{drain_overflows, drain_end_overflows, transfer_out_overflows};
ghost use Rattle.book.specs.Every.{every_call, any_refused};

/// The claim holds of the machine whose calls are the definitions.
#[tactic(auto, using(crate::proofs::Theorem::defined_claim))]
pub fn claim_holds()
    ensures { Claim defined }
{}

/// What the claim says that handles show holds after each step of a sequence file's run.
#[tactic(auto, using(crate::proofs::Sequences::sequence_claim))]
pub fn sequence_claim_holds()
    ensures { SequenceClaim }
{}

/// The run of an accepted file is not turned down, and ends after its last command. There are runs that the claim for
/// sequences is about: after the sample's the message has a line with the handle that compress gave it.
#[tactic(auto, using(crate::proofs::Sequences::accepted_runs))]
pub fn accepted_runs_end()
    ensures ends { AcceptedRunsEnd }
    ensures sample { CoveredRun 1 sample one_row 2 }
    ensures sample_line { book_at 1 sample one_row 2 ≡ line (ptr 1 3) 10 ∷ [] }
{}

/// After every list that the claim is about the store passes its audit, and no test of refusals 1, 2 and 4 on it holds.
#[tactic(auto, using(crate::proofs::Sound::always_sound))]
pub fn store_stays_sound()
    ensures { AlwaysSound defined }
{}

/// Even without its first field, `answered`, the claim is false of the five machines that do not do a store's work.
#[tactic(auto, using(crate::proofs::Empty::empty_machines))]
pub fn claim_fails_of_empty_machines()
    ensures frees_nothing { ClaimButAnswered frees_nothing → ⊥ }
    ensures runs_all { ClaimButAnswered runs_all → ⊥ }
    ensures full_early { ClaimButAnswered full_early → ⊥ }
    ensures shows_one { ClaimButAnswered shows_one → ⊥ }
    ensures refuses_all { ClaimButAnswered refuses_all → ⊥ }
{}

/// Even without its first field, `answered`, the claim is false of the seven machines that are wrong in less; and its
/// field `apart` is false of the meddling one at every kind of single-message call.
#[tactic(auto, using(crate::proofs::Near::near_machines))]
pub fn claim_fails_of_near_machines()
    ensures unstepping { ClaimButAnswered unstepping → ⊥ }
    ensures leaking { ClaimButAnswered leaking → ⊥ }
    ensures forgetting { ClaimButAnswered forgetting → ⊥ }
    ensures meddling { ClaimButAnswered meddling → ⊥ }
    ensures losing { ClaimButAnswered losing → ⊥ }
    ensures unplaying { ClaimButAnswered unplaying → ⊥ }
    ensures misplaying { ClaimButAnswered misplaying → ⊥ }
    ensures single_calls { (c : Call) → Memᴰ c single_calls → Apart meddling 2 (Entry.call c) with_two → ⊥ }
{}

/// Why the claim's list leaves calls out: each of these lists has one such call, and after it the definitions have
/// given a handle out twice, or show a message that no line has. So the list is not covered, and the claim's field
/// `given_once` or `shows` fails after it.
#[tactic(auto, using(crate::proofs::LeftOut::left_out_lists))]
pub fn left_out_calls_break_the_claim()
    ensures compress_resets { GivesTwice compress_resets }
    ensures generation_lowered { GivesTwice generation_lowered }
    ensures remove_overflows { GivesTwice remove_overflows }
    ensures remove_index_overflows { GivesTwice remove_index_overflows }
    ensures invalidate_overflows { GivesTwice invalidate_overflows }
    ensures clear_overflows { GivesTwice clear_overflows }
    ensures compress_overflows { GivesTwice compress_overflows }
    ensures drain_overflows { GivesTwice drain_overflows }
    ensures drain_end_overflows { GivesTwice drain_end_overflows }
    ensures step_generation_overflows { GivesTwice step_generation_overflows }
    ensures transfer_out_overflows { GivesTwice transfer_out_overflows }
    ensures transfers_in { ShowsUnlisted transfers_in }
    ensures copies_in { ShowsUnlisted copies_in }
    ensures not_covered { (es : List Entry) → left_out_count es (new 1) ≡ 1 → Covered es (new 1) → ⊥ }
    ensures given_once { (cs : List Call) → GivesTwice cs → Nodup (run_of defined 1 (made cs)).given → ⊥ }
    ensures shows { (cs : List Call) → ShowsUnlisted cs → Shows defined 1 (run_of defined 1 (made cs)) → ⊥ }
{}

/// The claim's list leaves out no other call: one with all the others is covered, and none of it is refused.
#[tactic(auto, using(crate::proofs::Every::every_covered, crate::proofs::Every::none_refused))]
pub fn every_other_call_is_covered()
    ensures covered { Covered every_call (new 2) }
    ensures none_refused { any_refused every_call (new 2) ≡ false }
{}

//! The check of a sequence file as C and Rust call it, and how many places such a file is lent.

ghost use Rattle.std.specs.Prelude.{◌≡◌};
ghost use Rattle.model.specs.Store.{tables};
ghost use Rattle.model.specs.Run.{step_refusal, fault};
ghost use Rattle.model.specs.Listing.{lent_places};

use model::Checked;
use sequence::check::{check, lent_places};

#[unsafe(no_mangle)]
pub extern "C" fn nektawul_check(
    next: u16,
    file: &[u8],
    generations: &[u32],
    links: &[u16],
    values: &[u64],
) -> Checked
    ensures refusal_value { result.refusal
        ≡ step_refusal (tables generations.now links.now values.now) file.now next }
    ensures fault_value { result.fault ≡ fault file.now result.refusal }
{
    Checked::from(check(generations, links, values, file, next))
}

#[unsafe(no_mangle)]
pub extern "C" fn nektawul_lent_places(file: &[u8]) -> usize
    ensures { result ≡ lent_places file.now }
{
    lent_places(file)
}

//! A journal of 1,024 rows, in columns.
use arena::journal::Columns;
use model::MAX_PLACES;

// Lends it to a work. The columns are locals: where a struct has them and a method lends them, a compress takes three
// instructions more for each place.
pub(crate) fn with_columns<F: FnOnce(&mut Columns<'_>) -> u64>(work: F) -> u64
    requires { F.IsAlwaysCallable work }
{
    let mut oldinx = [0u16; MAX_PLACES];
    let mut oldgen = [0u32; MAX_PLACES];
    let mut newinx = [0u16; MAX_PLACES];
    let mut newgen = [0u32; MAX_PLACES];
    let mut overflow = [false; MAX_PLACES];
    work(&mut Columns {
        oldinx: &mut oldinx,
        oldgen: &mut oldgen,
        newinx: &mut newinx,
        newgen: &mut newgen,
        overflow: &mut overflow,
    })
}

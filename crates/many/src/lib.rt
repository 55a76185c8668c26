// Many texts prepared in one call, over a table that is checked once.
//
// The texts stand one after another in one slice of octets, and a second slice says where each ends; the keys are left in the
// same way. `prepare_many` takes any arguments at all. The functions of the other modules work where checks were passed, and
// say so.

#![tactic(auto)]

mod checks;
mod filling;

ghost use Rattle.std.specs.Prelude.{◌≡◌, [], ◌∷◌};
ghost use Rattle.terms.specs.Collations.{collation_of};
ghost use Rattle.pages.specs.Pages.{pages};
ghost use Rattle.many.specs.Many.{many_call, PreparesManyPaging};

use checks::check_many;
use filling::fill_many;
use terms::Refusal;

// Prepares many texts under a collation: all keys are left in the store, one after another, where each ends in key_ends, and
// whether each text is valid in valid. Answers the octets of all keys together.
pub fn prepare_many(
    collation: u32,
    octets: &[u8],
    ends: &[usize],
    entries: &[u32],
    pool: &[u32],
    presence: &mut [u64],
    ranks: &mut [u64],
    store: &mut [u8],
    key_ends: &mut [usize],
    valid: &mut [u8],
) -> Result<usize, Refusal>
    ensures { let c = many_call (collation_of collation) octets.now ends.now
        entries.now pool.now presence.old ranks.old store.old
        key_ends.old valid.old in
        PreparesManyPaging c result (store.new ∷ key_ends.new ∷ valid.new ∷ [])
        (pages presence.new ranks.new) }
{
    let known = check_many(collation, octets.len(), ends)?;
    // Two empty texts pass 2, so that only the checks of the table and of the pages are left to this call.
    prepare::check_call(collation, 0, 0, entries, pool, presence, ranks)?;
    fill_many(
        known, octets, ends, entries, pool, presence, ranks, store, key_ends, valid,
    )
}

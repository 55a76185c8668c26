// For C (include/mundeziwa.h), the calls on many texts and on the keys of two lists: each function calls the one of its name in
// mz_many, and promises what that promises.

#![tactic(auto)]

ghost use Rattle.std.specs.Prelude.{[], ◌∷◌};
ghost use Rattle.terms.specs.Collations.{collation_of};
ghost use Rattle.pages.specs.Pages.{pages};
ghost use Rattle.many.specs.Many.{many_call};
ghost use Rattle.matching.specs.Matching.{keys_call};
ghost use Rattle.mz_many.specs.Promises.{PreparesManyRowPaging, MatchesRow};

// Prepares many texts.
#[unsafe(no_mangle)]
pub extern "C" fn mz_prepare_many(
    collation: u32,
    octets: &[u8],
    ends: &[usize],
    entries: &[u32],
    pool: &[u32],
    presence: &mut [u64],
    ranks: &mut [u64],
    store: &mut [u8],
    key_ends: &mut [usize],
    valid: &mut [u8],
    answer: &mut [u64; 4],
)
    ensures { PreparesManyRowPaging (many_call (collation_of collation) octets.now ends.now
        entries.now pool.now presence.old ranks.old store.old
        key_ends.old valid.old)
        answer.new (store.new ∷ key_ends.new ∷ valid.new ∷ [])
        (pages presence.new ranks.new) }
{
    mz_many::mz_prepare_many(
        collation, octets, ends, entries, pool, presence, ranks, store, key_ends, valid, answer,
    );
}

// Finds which keys of two lists are equal.
#[unsafe(no_mangle)]
pub extern "C" fn mz_match_keys(
    store: &[u8],
    ends: &[usize],
    first_names: usize,
    row: &mut [u32],
    repeats: &mut [u32],
    partners: &mut [u32],
    answer: &mut [u64; 5],
)
    ensures { MatchesRow (keys_call store.now ends.now first_names row.old
        repeats.old partners.old) answer.new
        (row.new ∷ repeats.new ∷ partners.new ∷ []) }
{
    mz_many::mz_match_keys(store, ends, first_names, row, repeats, partners, answer);
}

// For C (include/mundeziwa.h, include/mundeziwa_accepted.h), the calls on lists: each function calls the one of its name in
// mz_lists, asks what that asks, and promises what it promises.

#![tactic(auto)]

ghost use Rattle.std.specs.Prelude.{[], ◌∷◌};
ghost use Rattle.terms.specs.Collations.{collation_of};
ghost use Rattle.table.specs.Table.{table};
ghost use Rattle.pages.specs.Pages.{pages};
ghost use Rattle.prepare.specs.Calls.{UsableBy};
ghost use Rattle.lists.specs.Lists.{lists_call};
ghost use Rattle.mz_lists.specs.Promises.{SharesRow, SharesRowPaging};

// Finds which names two lists share.
#[unsafe(no_mangle)]
pub extern "C" fn mz_find_shared(
    collation: u32,
    first: &[u8],
    second: &[u8],
    entries: &[u32],
    pool: &[u32],
    presence: &mut [u64],
    ranks: &mut [u64],
    store: &mut [u8],
    partners: &mut [u32],
    positions: &mut [u32],
    answer: &mut [u64; 7],
)
    ensures { SharesRowPaging (lists_call (collation_of collation) first.now second.now
        entries.now pool.now presence.old ranks.old store.old
        partners.old positions.old)
        answer.new (store.new ∷ partners.new ∷ positions.new ∷ [])
        (pages presence.new ranks.new) }
{
    mz_lists::mz_find_shared(
        collation, first, second, entries, pool, presence, ranks, store, partners, positions,
        answer,
    );
}

// As `mz_find_shared`, over a table that is accepted already, with its pages.
#[unsafe(no_mangle)]
pub extern "C" fn mz_find_shared_accepted(
    collation: u32,
    first: &[u8],
    second: &[u8],
    entries: &[u32],
    pool: &[u32],
    presence: &[u64],
    ranks: &[u64],
    store: &mut [u8],
    partners: &mut [u32],
    positions: &mut [u32],
    answer: &mut [u64; 7],
)
    requires { UsableBy (collation_of collation) (table entries.now pool.now) (pages presence.now ranks.now) }
    ensures { SharesRow (lists_call (collation_of collation) first.now second.now
        entries.now pool.now presence.now ranks.now store.old
        partners.old positions.old)
        answer.new (store.new ∷ partners.new ∷ positions.new ∷ []) }
{
    mz_lists::mz_find_shared_accepted(
        collation, first, second, entries, pool, presence, ranks, store, partners, positions,
        answer,
    );
}

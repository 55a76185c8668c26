// The calls of the C interface on lists (include/mundeziwa.h, include/mundeziwa_accepted.h): each function calls one of the
// library's and stores the answer as a row of numbers. mz_lists_c exports them.
//
// `mz_find_shared` takes any arguments at all; its twin asks for a table that is accepted already and its pages. That pointers and lengths
// are what the header says of them is the C caller's part: no proof sees it.

#![tactic(auto)]

ghost use Rattle.std.specs.Prelude.{◌≡◌, [], ◌∷◌};
ghost use Rattle.terms.specs.Collations.{collation_of};
ghost use Rattle.terms.specs.Refusals.{row};
ghost use Rattle.table.specs.Table.{table};
ghost use Rattle.pages.specs.Pages.{pages};
ghost use Rattle.prepare.specs.Calls.{UsableBy};
ghost use Rattle.lists.specs.Lists.{lists_call, shared_outcome};
ghost use Rattle.mz_lists.specs.Promises.{SharesRow, SharesRowPaging};

use lists::Totals;
use terms::Refusal;

// Finds which names two lists share.
pub fn mz_find_shared(
    collation: u32,
    first: &[u8],
    second: &[u8],
    entries: &[u32],
    pool: &[u32],
    presence: &mut [u64],
    ranks: &mut [u64],
    store: &mut [u8],
    partners: &mut [u32],
    positions: &mut [u32],
    answer: &mut [u64; 7],
)
    ensures { SharesRowPaging (lists_call (collation_of collation) first.now second.now
        entries.now pool.now presence.old ranks.old store.old
        partners.old positions.old)
        answer.new (store.new ∷ partners.new ∷ positions.new ∷ [])
        (pages presence.new ranks.new) }
{
    let shared = lists::find_shared(
        collation, first, second, entries, pool, presence, ranks, store, partners, positions,
    );
    *answer = sharing_row(shared);
}

// As `mz_find_shared`, over a table that is accepted already, with its pages.
pub fn mz_find_shared_accepted(
    collation: u32,
    first: &[u8],
    second: &[u8],
    entries: &[u32],
    pool: &[u32],
    presence: &[u64],
    ranks: &[u64],
    store: &mut [u8],
    partners: &mut [u32],
    positions: &mut [u32],
    answer: &mut [u64; 7],
)
    requires { UsableBy (collation_of collation) (table entries.now pool.now) (pages presence.now ranks.now) }
    ensures { SharesRow (lists_call (collation_of collation) first.now second.now
        entries.now pool.now presence.now ranks.now store.old
        partners.old positions.old)
        answer.new (store.new ∷ partners.new ∷ positions.new ∷ []) }
{
    let shared = lists::find_shared_accepted(
        collation, first, second, entries, pool, presence, ranks, store, partners, positions,
    );
    *answer = sharing_row(shared);
}

// The row of what two lists share: refusal number (0 if not refused), place, detail; names in each list, equal pairs, names of
// the first list with a partner.
fn sharing_row(shared: Result<Totals, Refusal>) -> [u64; 7]
    ensures { result ≡ row 4 (shared_outcome shared) }
{
    match shared {
        Ok(t) => [
            0,
            0,
            0,
            t.first_names as u64,
            t.second_names as u64,
            t.equal_pairs,
            t.partnered as u64,
        ],
        Err(r) => terms::refused_row(r),
    }
}

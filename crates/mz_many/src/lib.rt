// The calls of the C interface on many texts and on the keys of two lists (include/mundeziwa.h): each function calls one of the
// library's and stores the answer as a row of numbers. mz_many_c exports them.
//
// Both take any arguments at all. That pointers and lengths are what the header says of them is the C caller's part: no proof
// sees it.

#![tactic(auto)]

ghost use Rattle.std.specs.Prelude.{◌≡◌, [], ◌∷◌};
ghost use Rattle.terms.specs.Collations.{collation_of};
ghost use Rattle.terms.specs.Refusals.{row};
ghost use Rattle.pages.specs.Pages.{pages};
ghost use Rattle.many.specs.Many.{many_call, batch_outcome};
ghost use Rattle.matching.specs.Matching.{keys_call, matched_outcome};
ghost use Rattle.mz_many.specs.Promises.{PreparesManyRowPaging, MatchesRow};

use partners::Totals;
use terms::Refusal;

// Prepares many texts.
pub fn mz_prepare_many(
    collation: u32,
    octets: &[u8],
    ends: &[usize],
    entries: &[u32],
    pool: &[u32],
    presence: &mut [u64],
    ranks: &mut [u64],
    store: &mut [u8],
    key_ends: &mut [usize],
    valid: &mut [u8],
    answer: &mut [u64; 4],
)
    ensures { PreparesManyRowPaging (many_call (collation_of collation) octets.now ends.now
        entries.now pool.now presence.old ranks.old store.old
        key_ends.old valid.old)
        answer.new (store.new ∷ key_ends.new ∷ valid.new ∷ [])
        (pages presence.new ranks.new) }
{
    let batch = many::prepare_many(
        collation, octets, ends, entries, pool, presence, ranks, store, key_ends, valid,
    );
    *answer = batch_row(batch);
}

// Finds which keys of two lists are equal.
pub fn mz_match_keys(
    store: &[u8],
    ends: &[usize],
    first_names: usize,
    row: &mut [u32],
    repeats: &mut [u32],
    partners: &mut [u32],
    answer: &mut [u64; 5],
)
    ensures { MatchesRow (keys_call store.now ends.now first_names row.old
        repeats.old partners.old) answer.new
        (row.new ∷ repeats.new ∷ partners.new ∷ []) }
{
    let matched = matching::match_keys(store, ends, first_names, row, repeats, partners);
    *answer = matched_row(matched);
}

// The row of many texts prepared: refusal number (0 if not refused), place, detail; the octets of all keys.
fn batch_row(batch: Result<usize, Refusal>) -> [u64; 4]
    ensures { result ≡ row 1 (batch_outcome batch) }
{
    match batch {
        Ok(octets) => [0, 0, 0, octets as u64],
        Err(r) => terms::refused_row(r),
    }
}

// The row of what the keys of two lists share: refusal number (0 if not refused), place, detail; equal pairs, names of the
// first list with a partner.
fn matched_row(matched: Result<Totals, Refusal>) -> [u64; 5]
    ensures { result ≡ row 2 (matched_outcome matched) }
{
    match matched {
        Ok(t) => [0, 0, 0, t.equal_pairs, t.partnered as u64],
        Err(r) => terms::refused_row(r),
    }
}

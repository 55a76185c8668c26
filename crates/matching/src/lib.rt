// Which keys of two lists are equal, for any number of names: the keys stand in a store one after another, the first list's
// before the second's.
//
// `match_keys` takes any arguments at all. What keys share is defined and found as for lists of at most 1,024 names, by the
// crate partners; here stand the checks, and the rows in which all keys are told in order.

#![tactic(auto)]

mod rows;

ghost use Rattle.std.specs.Prelude.{◌≡◌, [], ◌∷◌, ◌<◌, ◌≤◌, length};
ghost use Rattle.terms.specs.Refusals.{refusal};
ghost use Rattle.std.specs.Result.{result_err};
ghost use Rattle.sorting.specs.KeyOrder.{Ends};
ghost use Rattle.matching.specs.Matching.{keys_call, keys_checked, Matches};
ghost use Rattle.matching.specs.Promises.{MatchesIn};
ghost use Rattle.terms.specs.Reasons.{reason_number};

use partners::{Totals, sort_numbers, walk};
use rows::{count_from_one, mark_repeats};
use terms::{Reason, Refusal};

// Finds which keys of two lists are equal, of which the first so many are the first list's. The numbers of all keys in their
// order are left in row, which of them have the same key as the next in repeats, and the lowest partner of each key of the first
// list in partners.
pub fn match_keys(
    store: &[u8],
    ends: &[usize],
    first_names: usize,
    row: &mut [u32],
    repeats: &mut [u32],
    partners: &mut [u32],
) -> Result<Totals, Refusal>
    ensures { Matches (keys_call store.now ends.now first_names row.old
        repeats.old partners.old) result
        (row.new ∷ repeats.new ∷ partners.new ∷ []) }
{
    check_keys(
        store.len(),
        ends,
        first_names,
        row.len(),
        repeats.len(),
        partners.len(),
    )?;
    let n = ends.len();
    Ok(fill_rows(
        store,
        ends,
        first_names,
        &mut row[..n],
        &mut repeats[..n],
        partners,
    ))
}

// Whether a call on keys in a store of so many octets, with rows of these lengths, passes 14, 36, 37 and 8.
fn check_keys(
    octets: usize,
    ends: &[usize],
    first_names: usize,
    row: usize,
    repeats: usize,
    partners: usize,
) -> Result<(), Refusal>
    ensures { result_err result ≡ keys_checked octets ends.now first_names row repeats partners }
{
    storing::check_ends(octets, ends)?;
    let n = ends.len();
    if n < first_names {
        return Err(refused(Reason::FirstCount, n));
    }
    storing::check_arrays(row, repeats, n)?;
    if partners < first_names {
        return Err(refused(Reason::Room, first_names));
    }
    Ok(())
}

// A refusal of no text or list in particular.
fn refused(reason: Reason, detail: usize) -> Refusal
    ensures { result ≡ refusal (reason_number reason) 0 detail }
{
    Refusal {
        number: reason.number(),
        place: 0,
        detail: detail as u64,
    }
}

// Matches keys whose ends and rows are as they must be: rows as long as there are keys, and room for the partners. The row of
// repeats is the spare one of the sort and of the walk before it is filled.
fn fill_rows(
    store: &[u8],
    ends: &[usize],
    first_names: usize,
    row: &mut [u32],
    repeats: &mut [u32],
    partners: &mut [u32],
) -> Totals
    requires ends { Ends store.now ends.now }
    requires ends_len_bound { length ends.now < 0x100000000 }
    requires first_names_in_bounds { first_names ≤ length ends.now }
    requires row_len { length row.old ≡ length ends.now }
    requires repeats_len { length repeats.old ≡ length ends.now }
    requires first_names_in_bounds_2 { first_names ≤ length partners.old }
    ensures { MatchesIn store.now ends.now first_names partners.old result
        row.new repeats.new partners.new }
{
    sort_numbers(store, ends, row, repeats);
    let totals = walk(store, ends, first_names, row, partners, repeats);
    mark_repeats(store, ends, row, repeats);
    count_from_one(row);
    totals
}

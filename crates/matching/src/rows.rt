// The rows that tell keys in order: which have the same key as the next, and the numbers counted from 1.
ghost use Rattle.std.specs.Prelude.{◌≡◌, true, map, suc, ltb, length};
ghost use Rattle.terms.specs.Lists.{all};
ghost use Rattle.terms.specs.Refusals.{ends_most};
ghost use Rattle.sorting.specs.KeyOrder.{key_in, Ends, all_numbered};
ghost use Rattle.matching.specs.Matching.{repeated};

use partners::repeats_key;

// Fills a row with 1 where the key at the next place of the row of numbers is the same, and else with 0.
pub fn mark_repeats(store: &[u8], ends: &[usize], row: &[u32], repeats: &mut [u32])
    requires ends { Ends store.now ends.now }
    requires row_value { all_numbered ends.now row.now ≡ true }
    requires repeats_len { length repeats.old ≡ length row.now }
    ensures { repeats.new ≡ repeated (map (key_in store.now ends.now)
        row.now) }
{
    for i in 0..row.len() {
        repeats[i] = u32::from(repeats_key(store, ends, row, i));
    }
}

// Adds 1 to each number of a row.
pub fn count_from_one(row: &mut [u32])
    requires { all (λ x. ltb x ends_most) row.old ≡ true }
    ensures { row.new ≡ map suc row.old }
{
    for i in 0..row.len() {
        row[i] += 1;
    }
}

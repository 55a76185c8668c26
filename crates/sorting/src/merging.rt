// One step of the sort: two parts of a row, each in order, become one.
ghost use Rattle.std.specs.Prelude.{◌≡◌, true, ◌<◌, ◌≤◌, length, take, drop};
ghost use Rattle.terms.specs.Lists.{over};
ghost use Rattle.sorting.specs.Sorted.{merged};
ghost use Rattle.sorting.specs.KeyOrder.{key_in, Ends, all_numbered, key_order};
ghost use Rattle.sorting.specs.Promises.{first_left, Merges};

use super::may_precede;

// Makes one row in order of the part of a row before half and the part from there on, each in order.
pub fn join(store: &[u8], ends: &[usize], row: &mut [u32], half: usize, spare: &mut [u32])
    requires ends { Ends store.now ends.now }
    requires row_value { all_numbered ends.now row.old ≡ true }
    requires half_in_bounds { half ≤ length row.old }
    requires row_in_bounds { length row.old ≤ length spare.old }
    ensures { row.new ≡ merged (key_order (key_in store.now ends.now))
        (take half row.old) (drop half row.old) }
{
    let count = merge(store, ends, row, half, spare);
    copy_back(spare, count, row);
}

// Merges the part of a row before half with the part from there on, until the former is used up, and answers how many numbers
// then stand in the other row: those after them in the row are in their places.
fn merge(store: &[u8], ends: &[usize], row: &[u32], half: usize, out: &mut [u32]) -> usize
    requires ends { Ends store.now ends.now }
    requires row_value { all_numbered ends.now row.now ≡ true }
    requires half_in_bounds { half ≤ length row.now }
    requires row_in_bounds { length row.now ≤ length out.old }
    ensures { Merges (key_order (key_in store.now ends.now)) row.now half result
        out.new }
{
    // Two places that advance by turns, so not a `for`.
    let mut i = 0;
    let mut j = half;
    while i < half {
        let k = i + (j - half);
        if takes_left(store, ends, row, i, j) {
            out[k] = row[i];
            i += 1;
        } else {
            out[k] = row[j];
            j += 1;
        }
    }
    j
}

// Whether of the numbers at two places the first is to be taken: it may stand before the second, or there is no second.
fn takes_left(store: &[u8], ends: &[usize], row: &[u32], i: usize, j: usize) -> bool
    requires ends { Ends store.now ends.now }
    requires row_value { all_numbered ends.now row.now ≡ true }
    requires i_in_bounds { i < length row.now }
    requires j_in_bounds { j ≤ length row.now }
    ensures { result ≡ first_left (key_order (key_in store.now ends.now)) (drop i row.now)
        (drop j row.now) }
{
    j == row.len() || may_precede(store, ends, row[i], row[j])
}

// Copies so many numbers to the start of a row. Not by `copy_from_slice`, which calls memmove.
fn copy_back(from: &[u32], n: usize, row: &mut [u32])
    requires n_in_bounds { n ≤ length from.now }
    requires n_in_bounds_2 { n ≤ length row.old }
    ensures { row.new ≡ over (take n from.now) row.old }
{
    for i in 0..n {
        row[i] = from[i];
    }
}

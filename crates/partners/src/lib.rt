// What two lists of keys share (document 02, request 3): equal pairs, names with a partner, each name's lowest partner, and the
// first list's positions in key order.
//
// The keys of both lists stand in a store one after another, the first list's before the second's. All their numbers are sorted
// by key, and one walk over the sorted row finds everything: no pair is looked at. Any number of names below 2 to the 32 is
// taken; all rows are lent.

#![tactic(auto)]

mod groups;

ghost use Rattle.std.specs.Prelude.{◌≡◌, ◌<◌, ◌≤◌, length};
ghost use Rattle.sorting.specs.Sorted.{sorted, numbers};
ghost use Rattle.sorting.specs.KeyOrder.{key_in, Ends, key_order};
ghost use Rattle.partners.specs.Promises.{FindsIn};

pub use groups::repeats_key;
use groups::{EMPTY, group_at};

// The totals of two lists.
#[derive(Clone, Copy)]
pub struct Totals {
    // Equal pairs across the lists.
    pub equal_pairs: u64,
    // Names of the first list with any partner in the second.
    pub partnered: usize,
}

// Finds what two lists of keys share, of which the first so many are the first list's. The rows are written over.
pub fn find_partners(
    store: &[u8],
    ends: &[usize],
    middle: usize,
    row: &mut [u32],
    spare: &mut [u32],
    partners: &mut [u32],
    positions: &mut [u32],
) -> Totals
    requires ends { Ends store.now ends.now }
    requires ends_len_bound { length ends.now < 0x100000000 }
    requires middle_in_bounds { middle ≤ length ends.now }
    requires row_len { length row.old ≡ length ends.now }
    requires row_in_bounds { length row.old ≤ length spare.old }
    requires middle_in_bounds_2 { middle ≤ length partners.old }
    requires middle_in_bounds_3 { middle ≤ length positions.old }
    ensures { FindsIn store.now ends.now middle partners.old positions.old result
        partners.new positions.new }
{
    sort_numbers(store, ends, row, spare);
    walk(store, ends, middle, row, partners, positions)
}

// Fills a row with the numbers of all keys, in their order. The spare row is written over.
pub fn sort_numbers(store: &[u8], ends: &[usize], row: &mut [u32], spare: &mut [u32])
    requires ends { Ends store.now ends.now }
    requires ends_len_bound { length ends.now < 0x100000000 }
    requires row_len { length row.old ≡ length ends.now }
    requires row_in_bounds { length row.old ≤ length spare.old }
    ensures { row.new ≡ sorted (key_order (key_in store.now ends.now))
        (numbers 0 (length ends.now)) }
{
    number(row);
    sorting::sort(store, ends, row, spare);
}

// Fills a row with its own places.
fn number(row: &mut [u32])
    requires { length row.old < 0x100000000 }
    ensures { row.new ≡ numbers 0 (length row.old) }
{
    for i in 0..row.len() {
        row[i] = i as u32;
    }
}

// The totals of two lists by their sorted row, with partners and positions stored. It is walked from its end: the first list's
// numbers with a key come before the second's, so that the second's have been counted when one of the first's is reached.
pub fn walk(
    store: &[u8],
    ends: &[usize],
    middle: usize,
    row: &[u32],
    partners: &mut [u32],
    positions: &mut [u32],
) -> Totals
    requires ends { Ends store.now ends.now }
    requires ends_len_bound { length ends.now < 0x100000000 }
    requires middle_in_bounds { middle ≤ length ends.now }
    requires row_value { row.now ≡ sorted (key_order (key_in store.now ends.now)) (numbers 0 (length ends.now)) }
    requires middle_in_bounds_2 { middle ≤ length partners.old }
    requires middle_in_bounds_3 { middle ≤ length positions.old }
    ensures { FindsIn store.now ends.now middle partners.old positions.old result
        partners.new positions.new }
{
    let mut free = middle;
    let mut group = EMPTY;
    let mut equal_pairs = 0;
    let mut partnered = 0;
    for i in (0..row.len()).rev() {
        group = group_at(store, ends, middle, row, i, group);
        let x = row[i] as usize;
        if x < middle {
            free -= 1;
            positions[free] = row[i] + 1;
            partners[x] = group.lowest;
            equal_pairs += group.count;
            partnered += usize::from(group.count != 0);
        }
    }
    Totals {
        equal_pairs,
        partnered,
    }
}

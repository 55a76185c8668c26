// Rows of numbers in the order of their keys (document 02, request 3): a stable merge sort.
//
// The keys stand in a store one after another, and a row has their numbers. The order is a parameter of the definitions
// (specs/Sorted.antt), not of the functions. All functions work on numbers of keys that are there, and say so.

#![tactic(auto)]

mod merging;

ghost use Rattle.std.specs.Prelude.{◌≡◌, true, ◌<◌, ◌≤◌, length};
ghost use Rattle.sorting.specs.Sorted.{sorted};
ghost use Rattle.sorting.specs.KeyOrder.{key_in, Ends, all_numbered, key_order};

use merging::join;
use octets::compare_octets;
use std::cmp::Ordering;

// Sorts a row by the keys of its numbers, equal keys by number. The spare row is written over.
pub fn sort(store: &[u8], ends: &[usize], row: &mut [u32], spare: &mut [u32])
    requires ends { Ends store.now ends.now }
    requires row_value { all_numbered ends.now row.old ≡ true }
    requires row_in_bounds { length row.old ≤ length spare.old }
    ensures { row.new ≡ sorted (key_order (key_in store.now ends.now)) row.old }
{
    let n = row.len();
    if n < 2 {
        return;
    }
    let half = n / 2;
    sort(store, ends, &mut row[..half], spare);
    sort(store, ends, &mut row[half..], spare);
    join(store, ends, row, half, spare);
}

// The key of a number.
pub fn key_at<'a>(store: &'a [u8], ends: &[usize], x: usize) -> &'a [u8]
    requires ends { Ends store.now ends.now }
    requires x_in_bounds { x < length ends.now }
    ensures { result.now ≡ key_in store.now ends.now x }
{
    let end = ends[x];
    // A slice in each branch: a start chosen before one slice takes a jump more in each comparison of two keys.
    if x == 0 {
        &store[..end]
    } else {
        &store[ends[x - 1]..end]
    }
}

// Whether by the keys of two numbers the first may stand before the second.
fn may_precede(store: &[u8], ends: &[usize], x: u32, y: u32) -> bool
    requires ends { Ends store.now ends.now }
    requires x_in_bounds { x < length ends.now }
    requires y_in_bounds { y < length ends.now }
    ensures { result ≡ key_order (key_in store.now ends.now) x y }
{
    let a = key_at(store, ends, x as usize);
    let b = key_at(store, ends, y as usize);
    match compare_octets(a, b) {
        Ordering::Less => true,
        Ordering::Equal => x <= y,
        Ordering::Greater => false,
    }
}

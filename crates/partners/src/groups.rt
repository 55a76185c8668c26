// The second list's numbers with one key, as the walk from the end of the sorted row meets them.
ghost use Rattle.std.specs.Prelude.{◌≡◌, true, suc, ◌<◌, length, drop, get_or};
ghost use Rattle.sorting.specs.Sorted.{ascending};
ghost use Rattle.sorting.specs.KeyOrder.{key_in, Ends, all_numbered, key_order};
ghost use Rattle.partners.specs.Groups.{partners_in, leading, Tells, key_repeats};

use sorting::key_at;

// The second list's numbers that have a key.
#[derive(Clone, Copy)]
pub struct Group {
    pub count: u64,
    // The lowest, from 1; 0 if there is none.
    pub lowest: u32,
}

// The group of a key that no number has.
pub const EMPTY: Group = Group {
    count: 0,
    lowest: 0,
};

// The group of the key at a place, of the numbers from there on, given that of the next place.
pub fn group_at(
    store: &[u8],
    ends: &[usize],
    middle: usize,
    row: &[u32],
    i: usize,
    next: Group,
) -> Group
    requires ends { Ends store.now ends.now }
    requires ends_len_bound { length ends.now < 0x100000000 }
    requires row_value { all_numbered ends.now row.now ≡ true }
    requires row_len_bound { length row.now < 0x100000000 }
    requires row_value_2 { ascending (key_order (key_in store.now ends.now)) row.now ≡ true }
    requires i_in_bounds { i < length row.now }
    requires tells { Tells middle (leading (key_in store.now ends.now) middle (drop (suc i) row.now)) next }
    ensures { Tells middle
        (leading (key_in store.now ends.now) middle (drop i row.now)) result }
{
    let after = group_after(store, ends, middle, row, i, next);
    let x = row[i] as usize;
    if x < middle {
        return after;
    }
    Group {
        count: after.count + 1,
        lowest: (x - middle) as u32 + 1,
    }
}

// The group of the key at a place, of the numbers after it: that of the next place if it has the same key, and else none.
fn group_after(
    store: &[u8],
    ends: &[usize],
    middle: usize,
    row: &[u32],
    i: usize,
    next: Group,
) -> Group
    requires ends { Ends store.now ends.now }
    requires row_value { all_numbered ends.now row.now ≡ true }
    requires row_value_2 { ascending (key_order (key_in store.now ends.now)) row.now ≡ true }
    requires i_in_bounds { i < length row.now }
    requires tells { Tells middle (leading (key_in store.now ends.now) middle (drop (suc i) row.now)) next }
    ensures { Tells middle (partners_in (key_in store.now ends.now) middle
        (key_in store.now ends.now (get_or row.now i 0)) (drop (suc i) row.now)) result }
{
    if repeats_key(store, ends, row, i) {
        next
    } else {
        EMPTY
    }
}

// Whether there is a number after a place, and it has the same key.
pub fn repeats_key(store: &[u8], ends: &[usize], row: &[u32], i: usize) -> bool
    requires ends { Ends store.now ends.now }
    requires row_value { all_numbered ends.now row.now ≡ true }
    requires i_in_bounds { i < length row.now }
    ensures { result ≡ key_repeats (key_in store.now ends.now) (drop i row.now) }
{
    if row.len() - i < 2 {
        return false;
    }
    let a = key_at(store, ends, row[i] as usize);
    let b = key_at(store, ends, row[i + 1] as usize);
    octets::compare_octets(a, b).is_eq()
}

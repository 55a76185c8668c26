// The keys of a list's names: how many octets they have, and putting them one after another into the store.
ghost use Rattle.std.specs.Prelude.{◌≡◌, map, ◌++◌, ◌+◌, ◌≤◌, length};
ghost use Rattle.std.specs.Prelude.{None};
ghost use Rattle.table.specs.Table.{table, mapping_of};
ghost use Rattle.pages.specs.Pages.{pages};
ghost use Rattle.keys.specs.Keys.{key_of, UsableUnder};
ghost use Rattle.lists.specs.Names.{names_in, list_fault};
ghost use Rattle.storing.specs.Stored.{joined, PutsKeys};
ghost use Rattle.lists.specs.Promises.{name_octets, octets_most, PutsAll};

use crate::names::name_at;
use storing::put_key;
use terms::{Collation, RecordPosition};

// The octets that the keys of a list's names have together.
pub fn size_keys(
    collation: Collation,
    list: &[u8],
    entries: &[u32],
    pool: &[u32],
    presence: &[u64],
    ranks: &[u64],
) -> usize
    requires usable_under { UsableUnder collation (table entries.now pool.now) (pages presence.now ranks.now) }
    requires list_value { list_fault list.now ≡ None }
    requires list_bound { name_octets list.now ≤ octets_most }
    ensures { result ≡ length (joined (map (key_of collation (mapping_of (table entries.now pool.now)))
        (names_in list.now))) }
{
    let mut at = RecordPosition(0);
    let mut size = 0;
    // No `for`: a step is as long as the record that was read.
    while at.0 < list.len() {
        let place = name_at(list, at);
        let start = place.start.0;
        let end = place.end.0;
        let summary = keys::size_key(collation, &list[start..end], entries, pool, presence, ranks);
        size += summary.key_length;
        at = place.end;
    }
    size
}

// Puts the keys of both lists' names into the store, one after another, and the places where they end into a row.
pub fn put_both(
    collation: Collation,
    first: &[u8],
    second: &[u8],
    first_names: usize,
    entries: &[u32],
    pool: &[u32],
    presence: &[u64],
    ranks: &[u64],
    store: &mut [u8],
    ends: &mut [usize],
)
    requires usable_under { UsableUnder collation (table entries.now pool.now) (pages presence.now ranks.now) }
    requires first_value { list_fault first.now ≡ None }
    requires second_value { list_fault second.now ≡ None }
    requires first_names_value { first_names ≡ length (names_in first.now) }
    requires second_in_bounds { first_names + length (names_in second.now) ≤ length ends.old }
    requires second_in_bounds_2 { length (joined (map (key_of collation (mapping_of (table entries.now pool.now))) (names_in first.now)
        ++ map (key_of collation (mapping_of (table entries.now pool.now))) (names_in second.now))) ≤ length store.old }
    ensures { let key = key_of collation (mapping_of (table entries.now pool.now)) in
        PutsAll (map key (names_in first.now) ++ map key (names_in second.now)) store.old
        ends.old store.new ends.new }
{
    let middle = put_keys(
        collation, first, entries, pool, presence, ranks, 0, store, 0, ends,
    );
    put_keys(
        collation,
        second,
        entries,
        pool,
        presence,
        ranks,
        middle,
        store,
        first_names,
        ends,
    );
}

// Puts the keys of a list's names into the store, one after another from a place on, and the places where they end into a row,
// from an index on. Answers where the last one ends.
fn put_keys(
    collation: Collation,
    list: &[u8],
    entries: &[u32],
    pool: &[u32],
    presence: &[u64],
    ranks: &[u64],
    from: usize,
    store: &mut [u8],
    index: usize,
    ends: &mut [usize],
) -> usize
    requires usable_under { UsableUnder collation (table entries.now pool.now) (pages presence.now ranks.now) }
    requires list_value { list_fault list.now ≡ None }
    requires list_in_bounds { from + length (joined (map (key_of collation (mapping_of (table entries.now pool.now)))
        (names_in list.now))) ≤ length store.old }
    requires list_in_bounds_2 { index + length (names_in list.now) ≤ length ends.old }
    ensures { PutsKeys (map (key_of collation (mapping_of (table entries.now pool.now)))
        (names_in list.now)) from store.old index ends.old result store.new
        ends.new }
{
    let mut at = RecordPosition(0);
    let mut end = from;
    let mut i = index;
    // No `for`: a step is as long as the record that was read.
    while at.0 < list.len() {
        let place = name_at(list, at);
        let start = place.start.0;
        let stop = place.end.0;
        let summary = put_key(
            collation,
            &list[start..stop],
            entries,
            pool,
            presence,
            ranks,
            &mut store[end..],
        );
        end += summary.key_length;
        ends[i] = end;
        i += 1;
        at = place.end;
    }
    end
}

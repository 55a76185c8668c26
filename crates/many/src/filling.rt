// Calls on many texts that passed 1, 14, 36, 2, 3 to 7 and 15: only 8 is left, and then the keys are written.
ghost use Rattle.std.specs.Prelude.{◌≡◌, [], ◌∷◌, map, ◌≤◌, length};
ghost use Rattle.std.specs.Prelude.{None, Some};
ghost use Rattle.std.specs.Result.{result_err};
ghost use Rattle.table.specs.Table.{table, mapping_of};
ghost use Rattle.pages.specs.Pages.{pages};
ghost use Rattle.keys.specs.Keys.{key_of, UsableUnder};
ghost use Rattle.storing.specs.Rooms.{store_check};
ghost use Rattle.storing.specs.Stored.{joined, strings_in};
ghost use Rattle.many.specs.Many.{many_call, valid_under, rooms_refusal, PreparesMany};
ghost use Rattle.many.specs.Promises.{Texts, PutsMany};

use sorting::key_at;
use storing::{check_arrays, put_key};
use terms::{Collation, Reason, Refusal};

// Prepares many texts where all but 8 was passed.
pub fn fill_many(
    collation: Collation,
    octets: &[u8],
    ends: &[usize],
    entries: &[u32],
    pool: &[u32],
    presence: &[u64],
    ranks: &[u64],
    store: &mut [u8],
    key_ends: &mut [usize],
    valid: &mut [u8],
) -> Result<usize, Refusal>
    requires usable_under { UsableUnder collation (table entries.now pool.now) (pages presence.now ranks.now) }
    requires texts { Texts octets.now ends.now }
    ensures { let c = many_call (Some collation) octets.now ends.now
        entries.now pool.now presence.now ranks.now store.old
        key_ends.old valid.old in
        PreparesMany (rooms_refusal c) c result (store.new ∷ key_ends.new ∷ valid.new ∷ []) }
{
    check_store(
        collation,
        octets,
        ends,
        entries,
        pool,
        presence,
        ranks,
        store.len(),
    )?;
    check_arrays(key_ends.len(), valid.len(), ends.len())?;
    Ok(put_many(
        collation, octets, ends, entries, pool, presence, ranks, store, key_ends, valid,
    ))
}

// Whether the store has room for the keys of all texts: 8, with the length needed.
fn check_store(
    collation: Collation,
    octets: &[u8],
    ends: &[usize],
    entries: &[u32],
    pool: &[u32],
    presence: &[u64],
    ranks: &[u64],
    room: usize,
) -> Result<(), Refusal>
    requires usable_under { UsableUnder collation (table entries.now pool.now) (pages presence.now ranks.now) }
    requires texts { Texts octets.now ends.now }
    ensures { result_err result ≡ store_check room (length (joined
        (map (key_of collation (mapping_of (table entries.now pool.now)))
        (strings_in octets.now ends.now)))) }
{
    // Room for any keys of so many octets: none needs to be sized.
    if octets.len() <= room / terms::EXPANSION_MOST {
        return Ok(());
    }
    let needed = size_many(collation, octets, ends, entries, pool, presence, ranks);
    if room < needed {
        return Err(Refusal {
            number: Reason::Room.number(),
            place: 0,
            detail: needed as u64,
        });
    }
    Ok(())
}

// The octets that the keys of all texts have together.
fn size_many(
    collation: Collation,
    octets: &[u8],
    ends: &[usize],
    entries: &[u32],
    pool: &[u32],
    presence: &[u64],
    ranks: &[u64],
) -> usize
    requires usable_under { UsableUnder collation (table entries.now pool.now) (pages presence.now ranks.now) }
    requires texts { Texts octets.now ends.now }
    ensures { result ≡ length (joined
        (map (key_of collation (mapping_of (table entries.now pool.now)))
        (strings_in octets.now ends.now))) }
{
    let mut size = 0;
    for i in 0..ends.len() {
        let text = key_at(octets, ends, i);
        let summary = keys::size_key(collation, text, entries, pool, presence, ranks);
        size += summary.key_length;
    }
    size
}

// Puts the keys of all texts into the store, one after another, where they end into a row, and whether the texts are valid into
// another. Answers the octets of all keys together.
fn put_many(
    collation: Collation,
    octets: &[u8],
    ends: &[usize],
    entries: &[u32],
    pool: &[u32],
    presence: &[u64],
    ranks: &[u64],
    store: &mut [u8],
    key_ends: &mut [usize],
    valid: &mut [u8],
) -> usize
    requires usable_under { UsableUnder collation (table entries.now pool.now) (pages presence.now ranks.now) }
    requires texts { Texts octets.now ends.now }
    requires ends_in_bounds { length (joined (map (key_of collation (mapping_of (table entries.now pool.now)))
        (strings_in octets.now ends.now))) ≤ length store.old }
    requires ends_in_bounds_2 { length ends.now ≤ length key_ends.old }
    requires ends_in_bounds_3 { length ends.now ≤ length valid.old }
    ensures { let m = mapping_of (table entries.now pool.now) in
        let texts = strings_in octets.now ends.now in
        PutsMany (map (key_of collation m) texts) (valid_under (Some collation) m texts) store.old
        key_ends.old valid.old result store.new key_ends.new valid.new }
{
    let mut end = 0;
    for i in 0..ends.len() {
        let text = key_at(octets, ends, i);
        let summary = put_key(
            collation,
            text,
            entries,
            pool,
            presence,
            ranks,
            &mut store[end..],
        );
        end += summary.key_length;
        key_ends[i] = end;
        valid[i] = u8::from(summary.valid);
    }
    end
}

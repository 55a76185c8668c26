// The checks of a call on two lists, before anything is written.
ghost use Rattle.std.specs.Prelude.{◌≡◌, map, ◌++◌, ◌+◌, ◌≤◌, length};
ghost use Rattle.std.specs.Prelude.{None};
ghost use Rattle.std.specs.Result.{result_err};
ghost use Rattle.terms.specs.Collations.{collation_of};
ghost use Rattle.terms.specs.Refusals.{refusal};
ghost use Rattle.table.specs.Table.{table, mapping_of};
ghost use Rattle.pages.specs.Pages.{pages};
ghost use Rattle.keys.specs.Keys.{key_of, UsableUnder};
ghost use Rattle.lists.specs.Names.{names_in, list_fault};
ghost use Rattle.storing.specs.Stored.{joined};
ghost use Rattle.storing.specs.Rooms.{store_check};
ghost use Rattle.lists.specs.Promises.{name_octets, octets_most, ListsIn, ChecksLists};
ghost use Rattle.terms.specs.Reasons.{reason_number};

use crate::names::{NameCount, count_names};
use crate::putting::size_keys;
use terms::{Collation, Reason, Refusal};

// What a call on two lists is that passed 1 and 11 to 14: its collation, and the names of both lists.
#[derive(Clone, Copy)]
pub struct CheckedLists {
    pub collation: Collation,
    pub first: NameCount,
    pub second: NameCount,
}

// Whether a call on two lists passes 1 and 11 to 14.
pub fn check_lists(collation: u32, first: &[u8], second: &[u8]) -> Result<CheckedLists, Refusal>
    ensures { ChecksLists (collation_of collation) first.now second.now result }
{
    let Some(known) = terms::collation_of(collation) else {
        return Err(refused(Reason::Collation, 0, 0));
    };
    let one = count_in(1, first)?;
    let two = count_in(2, second)?;
    if terms::NAMES_MOST < one.names {
        return Err(refused(Reason::Count, 1, 0));
    }
    if terms::NAMES_MOST < two.names {
        return Err(refused(Reason::Count, 2, 0));
    }
    Ok(CheckedLists {
        collation: known,
        first: one,
        second: two,
    })
}

// The names of the first or the second list, or the refusal of its first record that is none, which names the list.
fn count_in(place: u32, list: &[u8]) -> Result<NameCount, Refusal>
    ensures { ListsIn place list.now result }
{
    match count_names(list) {
        Ok(n) => Ok(n),
        Err(r) => Err(Refusal { place, ..r }),
    }
}

// Whether the store has room for the keys of both lists, whose names have so many octets together: 8, with the length needed.
pub fn check_store(
    collation: Collation,
    first: &[u8],
    second: &[u8],
    octets: usize,
    entries: &[u32],
    pool: &[u32],
    presence: &[u64],
    ranks: &[u64],
    room: usize,
) -> Result<(), Refusal>
    requires usable_under { UsableUnder collation (table entries.now pool.now) (pages presence.now ranks.now) }
    requires first_value { list_fault first.now ≡ None }
    requires second_value { list_fault second.now ≡ None }
    requires first_bound { name_octets first.now ≤ octets_most }
    requires second_bound { name_octets second.now ≤ octets_most }
    requires octets_value { octets ≡ name_octets first.now + name_octets second.now }
    ensures { let key = key_of collation (mapping_of (table entries.now pool.now)) in result_err result
        ≡ store_check room (length (joined (map key (names_in first.now) ++ map key (names_in second.now)))) }
{
    // Room for any keys of so many octets: none needs to be sized.
    if octets <= room / terms::EXPANSION_MOST {
        return Ok(());
    }
    let needed = size_keys(collation, first, entries, pool, presence, ranks)
        + size_keys(collation, second, entries, pool, presence, ranks);
    if room < needed {
        return Err(refused(Reason::Room, 0, needed as u64));
    }
    Ok(())
}

// A refusal by its three numbers.
fn refused(reason: Reason, place: u32, detail: u64) -> Refusal
    ensures { result ≡ refusal (reason_number reason) place detail }
{
    Refusal {
        number: reason.number(),
        place,
        detail,
    }
}

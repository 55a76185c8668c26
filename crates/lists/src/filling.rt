// Calls on two lists that passed 1, 11 to 14, 3 to 7 and 15: only 8 is left, and then the report is written.
ghost use Rattle.std.specs.Prelude.{◌≡◌, [], ◌∷◌, ◌++◌, map, ◌≤◌, length};
ghost use Rattle.std.specs.Prelude.{Some};
ghost use Rattle.table.specs.Table.{table, mapping_of};
ghost use Rattle.pages.specs.Pages.{pages};
ghost use Rattle.keys.specs.Keys.{key_of, UsableUnder};
ghost use Rattle.lists.specs.Names.{names_in};
ghost use Rattle.storing.specs.Stored.{joined};
ghost use Rattle.lists.specs.Lists.{lists_call, rooms_refusal, Shares};
ghost use Rattle.lists.specs.Promises.{Named, Listed, Reports};

use super::Totals;
use crate::checks::check_store;
use crate::names::NameCount;
use crate::putting::put_both;
use partners::find_partners;
use storing::check_arrays;
use terms::{Collation, Refusal};

// The most names of two lists.
const BOTH_MOST: usize = 2 * terms::NAMES_MOST;

// Finds which names two lists share where all but 8 was passed.
pub fn fill_lists(
    collation: Collation,
    first: &[u8],
    second: &[u8],
    one: NameCount,
    two: NameCount,
    entries: &[u32],
    pool: &[u32],
    presence: &[u64],
    ranks: &[u64],
    store: &mut [u8],
    partners: &mut [u32],
    positions: &mut [u32],
) -> Result<Totals, Refusal>
    requires usable_under { UsableUnder collation (table entries.now pool.now) (pages presence.now ranks.now) }
    requires listed { Listed first.now one }
    requires listed_2 { Listed second.now two }
    ensures { let c = lists_call (Some collation) first.now second.now entries.now
        pool.now presence.now ranks.now store.old partners.old
        positions.old in
        Shares (rooms_refusal c) c result (store.new ∷ partners.new ∷ positions.new ∷ []) }
{
    let octets = one.octets + two.octets;
    check_store(
        collation,
        first,
        second,
        octets,
        entries,
        pool,
        presence,
        ranks,
        store.len(),
    )?;
    check_arrays(partners.len(), positions.len(), one.names)?;
    let totals = report(
        collation, first, second, one.names, two.names, entries, pool, presence, ranks, store,
        partners, positions,
    );
    Ok(Totals {
        first_names: one.names,
        second_names: two.names,
        equal_pairs: totals.equal_pairs,
        partnered: totals.partnered,
    })
}

// Writes keys, partners and positions, for which there is room.
fn report(
    collation: Collation,
    first: &[u8],
    second: &[u8],
    first_names: usize,
    second_names: usize,
    entries: &[u32],
    pool: &[u32],
    presence: &[u64],
    ranks: &[u64],
    store: &mut [u8],
    partners: &mut [u32],
    positions: &mut [u32],
) -> partners::Totals
    requires usable_under { UsableUnder collation (table entries.now pool.now) (pages presence.now ranks.now) }
    requires named { Named first.now first_names }
    requires named_2 { Named second.now second_names }
    requires second_in_bounds { length (joined (map (key_of collation (mapping_of (table entries.now pool.now))) (names_in first.now)
        ++ map (key_of collation (mapping_of (table entries.now pool.now))) (names_in second.now))) ≤ length store.old }
    requires first_names_in_bounds { first_names ≤ length partners.old }
    requires first_names_in_bounds_2 { first_names ≤ length positions.old }
    ensures { let m = mapping_of (table entries.now pool.now) in
        Reports (map (key_of collation m) (names_in first.now))
        (map (key_of collation m) (names_in second.now)) store.old partners.old
        positions.old result store.new partners.new
        positions.new }
{
    let mut ends = [0usize; BOTH_MOST];
    let mut row = [0u32; BOTH_MOST];
    let mut spare = [0u32; BOTH_MOST];
    put_both(
        collation,
        first,
        second,
        first_names,
        entries,
        pool,
        presence,
        ranks,
        store,
        &mut ends,
    );
    let n = first_names + second_names;
    find_partners(
        store,
        &ends[..n],
        first_names,
        &mut row[..n],
        &mut spare,
        partners,
        positions,
    )
}
